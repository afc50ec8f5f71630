// What a server may say in place of what was asked for, and the fault of a login, of a question and of a
// stream that begins so.
use super::OrFail;
use super::lines::question;
use super::logins::Attempt;
use super::script::{Behind, Message, SLOT, assert_fault, connect, spell};
use server::fault::Fault;
use server::stream::start;
use std::alloc::Global;
use std::test::Fail;

/// What comes of a message at a login, at a question, and where a stream is to start.
type Outcome = [&'static str; 3];

const SERVER: Outcome = ["Server"; 3];

const NONSENSE: Outcome = ["Nonsense"; 3];

const CLOSED: Outcome = ["Closed"; 3];

/// What a server says before it closes, and what comes of it. The last three errors are of a slot that is busy
/// or gone, and of a server without version 4.
static REFUSALS: [(Message<'static>, Outcome); 27] = [
    ((b'E', b"SFATAL\0C28P01"), NONSENSE),
    ((b'E', b"SFATAL\0C28P01\0Mno\0\0"), SERVER),
    ((b'E', b"SERROR\0C42P01\0Mno\0\0"), SERVER),
    (
        (
            b'E',
            b"SERROR\0C55006\0Mreplication slot \"s\" is active for PID 1\0\0",
        ),
        SERVER,
    ),
    (
        (
            b'E',
            b"SERROR\0C42704\0Mreplication slot \"s\" does not exist\0\0",
        ),
        SERVER,
    ),
    (
        (
            b'E',
            b"SERROR\0C0A000\0Mclient sent proto_version=4 but server only supports protocol 3 or lower\0\0",
        ),
        SERVER,
    ),
    ((b'R', b"\0\0\0"), NONSENSE),
    ((b'R', b"\0\0\0\0"), ["Closed", "Nonsense", "Nonsense"]),
    ((b'R', b"\0\0\0\x03"), ["Closed", "Nonsense", "Nonsense"]),
    (
        (b'R', b"\0\0\0\x07"),
        ["UnknownAuthentication", "Nonsense", "Nonsense"],
    ),
    (
        (b'R', b"\0\0\0\x0aSCRAM-SHA-1\0\0"),
        ["NoMechanism", "Nonsense", "Nonsense"],
    ),
    ((b'R', b"\0\0\0\x0aSCRAM-SHA-256"), NONSENSE),
    (
        (b'R', b"\0\0\0\x0bx"),
        ["UnknownAuthentication", "Nonsense", "Nonsense"],
    ),
    ((b'Z', b"I"), ["Nonsense", "none", "Nonsense"]),
    ((b'W', b""), ["Nonsense", "Nonsense", "none"]),
    ((b'C', b""), ["Nonsense", "Closed", "Nonsense"]),
    ((b'D', b"\0\0"), ["Nonsense", "Closed", "Nonsense"]),
    ((b'D', b"\0"), NONSENSE),
    ((b'D', b"\xff\xff"), NONSENSE),
    ((b'D', b"\0\x01\0\0\0\x02a"), NONSENSE),
    ((b'D', b"\0\x01\0\0\0\x01ab"), NONSENSE),
    ((b'D', b"\0\x01\0\0\0\x01\xff"), NONSENSE),
    ((b'N', b"Shello\0\0"), CLOSED),
    ((b'S', b""), CLOSED),
    ((b'A', b""), CLOSED),
    ((b'K', b""), NONSENSE),
    ((b'v', b"\0\x03\0\0\0\0\0\0"), NONSENSE),
];

/// What comes of starting a stream at a server that says this.
fn started(alloc: Global, input: &[u8]) -> Result<Result<(), Fault>, Fail> {
    let mut sent = Vec::new(alloc);
    let mut connection = connect(input, 4, Behind::Close, &mut sent)?;
    Ok(start(&mut connection, "p", SLOT.name, 0))
}

#[test]
fn each_refusal_has_its_name(rt: HostRuntime) {
    for (case, (message, [login, asked, stream])) in REFUSALS.iter().enumerate() {
        let input = spell(rt.alloc(), &[&[*message]]).or_fail(&rt);
        let input = input.as_slice();
        Attempt::of(input, 3)
            .assert_fault(rt.alloc(), *login, case)
            .or_fail(&rt);
        assert_fault(
            rt.alloc(),
            question(rt.alloc(), input, 4).or_fail(&rt),
            *asked,
            case,
        )
        .or_fail(&rt);
        assert_fault(
            rt.alloc(),
            started(rt.alloc(), input).or_fail(&rt),
            *stream,
            case,
        )
        .or_fail(&rt);
    }
}
