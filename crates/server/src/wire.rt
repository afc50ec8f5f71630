// Messages of the frontend/backend protocol (PostgreSQL manual: Message Formats), as bytes.
ghost use Rattle.std.specs.Prelude.{◌≤◌, length, take, IfOk, IfSome};
ghost use Rattle.server.specs.Frames.{IsFrame};

use crate::fault::{Fault, Nonsense};
use std::alloc::Global;

/// The greatest length field that a message may have: that of a frame that `pgapply` reads.
pub const MAX_LENGTH: u32 = 67108864;

/// The bytes of tag and length.
pub const HEADER: usize = 5;

/// Protocol version 3.0.
const VERSION: u32 = 196608;

/// How many bytes the first message has, or none where it isn't whole.
#[tactic(auto, unfolding(crate::specs::Frames::length_field))]
pub fn first_length(bytes: &[u8]) -> Result<Option<usize>, Nonsense>
    ensures within { IfOk result (λ found. IfSome found (λ n. n ≤ length bytes.now)) }
    ensures whole { IfOk result (λ found. IfSome found (λ n. IsFrame (take n bytes.now))) }
{
    if bytes.len() < HEADER {
        return Ok(None);
    }
    let length = u32::from_be_bytes([bytes[1], bytes[2], bytes[3], bytes[4]]);
    if length < 4 {
        return Err(Nonsense::BadLength);
    }
    if length > MAX_LENGTH {
        return Err(Nonsense::TooLong);
    }
    let whole = length as usize + 1;
    if whole <= bytes.len() {
        Ok(Some(whole))
    } else {
        Ok(None)
    }
}

/// How many bytes the message has that begins with this header.
pub fn declared_length(header: &[u8; HEADER]) -> Result<usize, Nonsense> {
    let [_, first, second, third, last] = *header;
    let length = u32::from_be_bytes([first, second, third, last]);
    if length < 4 {
        Err(Nonsense::BadLength)
    } else if length > MAX_LENGTH {
        Err(Nonsense::TooLong)
    } else {
        Ok(length as usize + 1)
    }
}

/// A message: its tag, and its content behind the length.
#[derive(Debug, Drop)]
pub struct Message {
    /// Its first byte, which says what it is.
    pub tag: u8,
    /// What stands behind the length.
    pub body: Vec<u8>,
}

/// A message of the client: the tag, the length and the content.
pub fn frame(alloc: Global, tag: u8, body: &[u8]) -> Result<Vec<u8>, Fault> {
    let mut bytes = Vec::new(alloc);
    bytes.push(tag)?;
    push_counted(&mut bytes, body)?;
    Ok(bytes)
}

/// A keepalive as a server sends it: where its log ends, and whether an answer is wanted.
pub fn keepalive(alloc: Global, end: u64, reply: bool) -> Result<Vec<u8>, Fault> {
    let mut body = Vec::new(alloc);
    body.push(b'k')?;
    body.extend_from_slice(&end.to_be_bytes())?;
    body.extend_from_slice(&[0; 8])?;
    body.push(if reply { 1 } else { 0 })?;
    frame(alloc, b'd', body.as_slice())
}

/// A piece of the log as a server sends it, with this message: CopyData, 'w', the place twice, and a clock
/// that is left at its start.
pub fn data(alloc: Global, place: u64, message: &[u8]) -> Result<Vec<u8>, Fault> {
    let mut body = Vec::new(alloc);
    body.push(b'w')?;
    body.extend_from_slice(&place.to_be_bytes())?;
    body.extend_from_slice(&place.to_be_bytes())?;
    body.extend_from_slice(&[0; 8])?;
    body.extend_from_slice(message)?;
    frame(alloc, b'd', body.as_slice())
}

/// Appends a length that counts itself, and the content.
fn push_counted(bytes: &mut Vec<u8>, body: &[u8]) -> Result<(), Fault> {
    if body.len() > MAX_LENGTH as usize {
        return Err(Fault::Nonsense(Nonsense::TooLong));
    }
    let length = body.len() as u32 + 4;
    bytes.extend_from_slice(&length.to_be_bytes())?;
    bytes.extend_from_slice(body)?;
    Ok(())
}

/// Appends a text and a zero byte. A text with a zero byte in it is cut by the server there.
pub fn push_zero_ended(bytes: &mut Vec<u8>, text: &str) -> Result<(), Fault> {
    bytes.extend_from_slice(text.as_bytes())?;
    bytes.push(0)?;
    Ok(())
}

/// StartupMessage, which has no tag: the parameters' names and values.
pub fn startup(alloc: Global, parameters: &[(&str, &str)]) -> Result<Vec<u8>, Fault> {
    let mut body = Vec::new(alloc);
    body.extend_from_slice(&VERSION.to_be_bytes())?;
    for (name, value) in parameters {
        push_zero_ended(&mut body, *name)?;
        push_zero_ended(&mut body, *value)?;
    }
    body.push(0)?;
    let mut bytes = Vec::new(alloc);
    push_counted(&mut bytes, body.as_slice())?;
    Ok(bytes)
}

/// Query: one text of SQL, or of a replication command.
pub fn query(alloc: Global, sql: &str) -> Result<Vec<u8>, Fault> {
    let mut body = Vec::new(alloc);
    push_zero_ended(&mut body, sql)?;
    frame(alloc, b'Q', body.as_slice())
}

/// The fields of a message, taken from its front.
#[derive(Clone, Copy, Debug)]
pub struct Fields<'a> {
    rest: &'a [u8],
}

impl<'a> Fields<'a> {
    /// The fields of a message with this content.
    pub fn new(body: &'a [u8]) -> Fields<'a> {
        Fields { rest: body }
    }

    /// Whether all were taken.
    pub fn is_empty(&self) -> bool {
        self.rest.is_empty()
    }

    /// All that is left.
    pub fn rest(&self) -> &'a [u8] {
        self.rest
    }

    /// Byte1.
    pub fn byte(&mut self) -> Result<u8, Nonsense> {
        let [byte] = self.front::<1>()?;
        Ok(byte)
    }

    /// Int16.
    pub fn int16(&mut self) -> Result<u16, Nonsense> {
        Ok(u16::from_be_bytes(self.front()?))
    }

    /// Int32.
    pub fn int32(&mut self) -> Result<u32, Nonsense> {
        Ok(u32::from_be_bytes(self.front()?))
    }

    /// Int64.
    pub fn int64(&mut self) -> Result<u64, Nonsense> {
        Ok(u64::from_be_bytes(self.front()?))
    }

    fn front<const N: usize>(&mut self) -> Result<[u8; N], Nonsense> {
        match self.rest.split_first_chunk::<N>() {
            Some((bytes, rest)) => {
                self.rest = rest;
                Ok(*bytes)
            }
            None => Err(Nonsense::BadFields),
        }
    }

    /// So many bytes.
    pub fn take(&mut self, count: usize) -> Result<&'a [u8], Nonsense> {
        match self.rest.split_at_checked(count) {
            Some((front, rest)) => {
                self.rest = rest;
                Ok(front)
            }
            None => Err(Nonsense::BadFields),
        }
    }

    /// The bytes of a String, without its zero byte.
    pub fn zero_ended(&mut self) -> Result<&'a [u8], Nonsense> {
        let Some(end) = self.rest.iter().position(|byte| *byte == 0) else {
            return Err(Nonsense::BadFields);
        };
        let text = self.take(end)?;
        self.byte()?;
        Ok(text)
    }
}
