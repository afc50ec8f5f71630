// SCRAM-SHA-256 (RFC 5802, RFC 7677), the client's side, without channel binding.
use crate::fault::{Fault, Nonsense};
use crate::saslprep::prepare;
use base64::engine::general_purpose::STANDARD;
use sha2::{Digest, Sha256};
use std::alloc::Global;
use std::fmt;

/// How many rounds a server may ask for, which take a second or two.
const MOST_ROUNDS: u32 = 1_000_000;

/// How many it has to ask for: PostgreSQL's own default. From fewer a password is cheap to guess.
const LEAST_ROUNDS: u32 = 4096;

const BLOCK: usize = 64;

/// HMAC-SHA-256 (RFC 2104) of a message in two parts. A key of more than 64 bytes is hashed first.
pub fn hmac(key: &[u8], first: &[u8], second: &[u8]) -> [u8; 32] {
    let mut inner = [0x36u8; BLOCK];
    let mut outer = [0x5cu8; BLOCK];
    if key.len() > BLOCK {
        mix(&mut inner, &Sha256::digest(key));
        mix(&mut outer, &Sha256::digest(key));
    } else {
        mix(&mut inner, key);
        mix(&mut outer, key);
    }
    let mut hasher = Sha256::new();
    hasher.update(inner.as_slice());
    hasher.update(first);
    hasher.update(second);
    let digest = hasher.finalize();
    let mut hasher = Sha256::new();
    hasher.update(outer.as_slice());
    hasher.update(digest.as_slice());
    hasher.finalize()
}

/// Adds bytes bit by bit, as far as both go.
fn mix(into: &mut [u8], bytes: &[u8]) {
    for (to, byte) in into.iter_mut().zip(bytes) {
        *to ^= *byte;
    }
}

/// `Hi` of RFC 5802: the first block of PBKDF2 with HMAC-SHA-256.
pub fn salted_password(password: &[u8], salt: &[u8], rounds: u32) -> [u8; 32] {
    let mut round = hmac(password, salt, &[0, 0, 0, 1]);
    let mut sum = round;
    for _ in 1..rounds {
        round = hmac(password, round.as_slice(), &[]);
        mix(&mut sum, round.as_slice());
    }
    sum
}

/// A client's exchange with a server.
#[derive(Drop)]
pub struct Exchange {
    alloc: Global,
    nonce: String,
    first_bare: String,
}

/// Without what a password is proved by.
impl fmt::Debug for Exchange {
    fn fmt<W: fmt::Write>(&self, f: &mut fmt::Formatter<W>) -> fmt::Result {
        f.debug_struct("Exchange").finish_non_exhaustive()
    }
}

/// The last message of the client, and the signature that the server has to answer.
#[derive(Drop)]
pub struct Proof {
    /// The message.
    pub message: String,
    signature: [u8; 32],
}

/// Without what a password is proved by.
impl fmt::Debug for Proof {
    fn fmt<W: fmt::Write>(&self, f: &mut fmt::Formatter<W>) -> fmt::Result {
        f.debug_struct("Proof").finish_non_exhaustive()
    }
}

/// What the server's first message says.
#[derive(Clone, Copy)]
struct Challenge<'a> {
    nonce: &'a str,
    salt: &'a str,
    rounds: u32,
}

impl Exchange {
    /// An exchange of this user name, which PostgreSQL doesn't read, with this nonce of printable
    /// characters but commas.
    pub fn new(alloc: Global, user: &str, nonce: &str) -> Result<Exchange, Fault> {
        let first_bare = format!(in alloc; "n={user},r={nonce}")?;
        Ok(Exchange {
            alloc,
            nonce: String::from_str(alloc, nonce)?,
            first_bare,
        })
    }

    /// The client's first message.
    pub fn first(&self) -> Result<String, Fault> {
        let alloc = self.alloc;
        let bare = self.first_bare.as_str();
        Ok(format!(in alloc; "n,,{bare}")?)
    }

    /// The client's answer to the server's first message.
    pub fn proof(&self, password: &str, server_first: &str) -> Result<Proof, Fault> {
        let alloc = self.alloc;
        let challenge = self.read_challenge(server_first)?;
        let Ok(salt) = STANDARD.decode(alloc, challenge.salt.as_bytes()) else {
            return Err(Fault::Nonsense(Nonsense::BadScram));
        };
        let password = prepare(alloc, password)?;
        let salted = salted_password(password.as_bytes(), salt.as_slice(), challenge.rounds);
        let bare = self.first_bare.as_str();
        let nonce = challenge.nonce;
        let unproved = format!(in alloc; "c=biws,r={nonce}")?;
        let unproved = unproved.as_str();
        let exchanged = format!(in alloc; "{bare},{server_first},{unproved}")?;
        let mut proof = hmac(salted.as_slice(), b"Client Key", &[]);
        let stored = Sha256::digest(proof.as_slice());
        let signed = hmac(stored.as_slice(), exchanged.as_bytes(), &[]);
        mix(&mut proof, signed.as_slice());
        let proof = STANDARD.encode(alloc, proof.as_slice())?;
        let server_key = hmac(salted.as_slice(), b"Server Key", &[]);
        Ok(Proof {
            message: format!(in alloc; "{unproved},p={proof}")?,
            signature: hmac(server_key.as_slice(), exchanged.as_bytes(), &[]),
        })
    }

    fn read_challenge<'a>(&self, text: &'a str) -> Result<Challenge<'a>, Fault> {
        let bad = Fault::Nonsense(Nonsense::BadScram);
        let mut parts = text.split(',');
        let (Some(nonce), Some(salt), Some(rounds)) = (parts.next(), parts.next(), parts.next())
        else {
            return Err(bad);
        };
        let (Some(nonce), Some(salt), Some(rounds)) = (
            nonce.strip_prefix("r="),
            salt.strip_prefix("s="),
            rounds.strip_prefix("i="),
        ) else {
            return Err(bad);
        };
        let Ok(rounds) = rounds.parse::<u32>() else {
            return Err(bad);
        };
        // The server has to go on from the client's nonce, with more of its own.
        if !nonce.starts_with(self.nonce.as_str()) || nonce.len() == self.nonce.len() {
            return Err(bad);
        }
        if rounds < LEAST_ROUNDS {
            return Err(Fault::TooFewRounds(rounds));
        }
        if rounds > MOST_ROUNDS {
            return Err(Fault::TooManyRounds(rounds));
        }
        Ok(Challenge {
            nonce,
            salt,
            rounds,
        })
    }
}

impl Proof {
    /// Whether the server's last message shows that it knows the password.
    pub fn is_answered_by(&self, alloc: Global, server_final: &str) -> bool {
        let Some(text) = server_final.strip_prefix("v=") else {
            return false;
        };
        match STANDARD.decode(alloc, text.as_bytes()) {
            Ok(signature) => signature.as_slice() == self.signature.as_slice(),
            Err(_) => false,
        }
    }
}
