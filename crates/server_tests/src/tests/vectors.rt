// Vectors of the standards, and of PostgreSQL's password hash.
use super::OrFail;
use server::auth::md5_password;
use server::saslprep::prepare;
use server::scram::{Exchange, hmac};
use std::alloc::Global;
use std::test::Fail;
use testing::asserts::assert_same;

/// The exchange of RFC 7677, whose user is `user` and whose password `pencil`.
fn exchange(alloc: Global) -> Result<Exchange, Fail> {
    Ok(Exchange::new(alloc, "user", "rOprNGfwEbeRWgbNEkqO")?)
}

/// The server's first message, the client's answer, and the server's last messages: which of them show that it
/// knows the password.
const CHALLENGE: &str =
    "r=rOprNGfwEbeRWgbNEkqO%hvYDpWUa2RaTCAfuxFIlj)hNlF$k0,s=W22ZaJ0SNY7soEsUEjb6gQ==,i=4096";

const ANSWER: &str =
    "c=biws,r=rOprNGfwEbeRWgbNEkqO%hvYDpWUa2RaTCAfuxFIlj)hNlF$k0,p=dHzbZapWIk4jUhN+Ute9ytag9zjfMHgsqmmiz7AndVQ=";

static FINALS: [(&str, bool); 5] = [
    ("v=6rriTRBi23WpRR/wtup+mMhUZUn/dB5nLTJRsjl95G4=", true),
    ("v=7rriTRBi23WpRR/wtup+mMhUZUn/dB5nLTJRsjl95G4=", false),
    ("v=6rriTRBi23WpRR/wtup+mMhUZUn/dB5nLTJRsjl95A==", false),
    ("v=", false),
    ("e=invalid-proof", false),
];

#[test]
fn scram_is_that_of_rfc_7677(rt: HostRuntime) {
    let exchange = exchange(rt.alloc()).or_fail(&rt);
    let first = exchange.first().or_fail(&rt);
    assert_same(first.as_str(), "n,,n=user,r=rOprNGfwEbeRWgbNEkqO", "first").or_fail(&rt);
    let proof = exchange.proof("pencil", CHALLENGE).or_fail(&rt);
    assert_same(proof.message.as_str(), ANSWER, "answer").or_fail(&rt);
}

#[test]
fn a_server_is_known_by_its_last_message(rt: HostRuntime) {
    let proof = exchange(rt.alloc())
        .or_fail(&rt)
        .proof("pencil", CHALLENGE)
        .or_fail(&rt);
    for (text, want) in &FINALS {
        let answer = proof.is_answered_by(rt.alloc(), *text);
        assert_same(answer, *want, *text).or_fail(&rt);
    }
}

/// A key, a message in two parts, and its hash.
static HASHED: [(&[u8], &[u8], &[u8], &str); 2] = [
    (
        b"Jefe",
        b"what do ya want ",
        b"for nothing?",
        "5bdcc146bf60754e6a042426089575c75a003f089d2739839dec58b964ec3843",
    ),
    (
        &[0xaa; 131],
        b"Test Using Larger Than Block-Size Key - Hash Key First",
        b"",
        "60e431591ee0b67f0d8a26aacbf5b77f8e0bc6213728c5140546040f0ee37f54",
    ),
];

#[test]
fn hmac_is_that_of_rfc_4231(rt: HostRuntime) {
    for (key, first, second, want) in &HASHED {
        let text = hex::encode(rt.alloc(), &hmac(*key, *first, *second)).or_fail(&rt);
        assert_same(text.as_str(), *want, *want).or_fail(&rt);
    }
}

#[test]
fn an_md5_password_is_that_of_python(rt: HostRuntime) {
    let text = md5_password(rt.alloc(), "alice", "secret", &[1, 2, 3, 4]).or_fail(&rt);
    assert_same(text.as_str(), "md598a0412b9c31436fc53776e863350083", "").or_fail(&rt);
}

/// Passwords, among them the examples of RFC 4013, and what they are proved as, by Python's `stringprep` and
/// `unicodedata`.
static PREPARED: [(&str, &str); 26] = [
    ("", ""),
    ("user", "user"),
    ("USER\u{7}", "USER\u{7}"),
    ("I\u{ad}X", "IX"),
    ("\u{aa}", "a"),
    ("\u{2168}", "IX"),
    ("\u{627}1", "\u{627}1"),
    ("\u{627}1\u{628}", "\u{627}1\u{628}"),
    ("p\u{e4}ss\u{2168}word", "p\u{e4}ssIXword"),
    ("pa\u{308}ss", "p\u{e4}ss"),
    ("a\u{a0}b", "a b"),
    ("a\u{200b}b", "a b"),
    ("\u{1680}a", " a"),
    ("\u{221}a", "\u{221}a"),
    ("a\u{e000}", "a\u{e000}"),
    ("a\u{2028}", "a\u{2028}"),
    ("\u{ad}", "\u{ad}"),
    ("\u{5d0}\u{5d1}", "\u{5d0}\u{5d1}"),
    ("\u{5d0}a\u{5d1}", "\u{5d0}a\u{5d1}"),
    ("\u{5d0}1", "\u{5d0}1"),
    ("1\u{5d0}", "1\u{5d0}"),
    ("\u{e4}\u{7}", "\u{e4}\u{7}"),
    ("\u{fb01}\u{2460}", "fi1"),
    ("\u{1f600}", "\u{1f600}"),
    ("\u{1d49c}", "A"),
    ("\u{340}a", "\u{340}a"),
];

#[test]
fn a_password_is_prepared_as_rfc_4013_says(rt: HostRuntime) {
    for (password, want) in &PREPARED {
        let prepared = prepare(rt.alloc(), *password).or_fail(&rt);
        assert_same(prepared.as_str(), *want, *password).or_fail(&rt);
    }
}
