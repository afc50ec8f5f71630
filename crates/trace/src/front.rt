// Fields at the front of a frame, one behind another (PostgreSQL manual: Logical Replication Message Formats).

/// Bytes of which fields are taken. A field that isn't there is none.
#[derive(Clone, Copy)]
pub struct Front<'a> {
    rest: &'a [u8],
}

impl<'a> Front<'a> {
    pub fn new(bytes: &'a [u8]) -> Front<'a> {
        Front { rest: bytes }
    }

    /// Byte1.
    pub fn byte(&mut self) -> Option<u8> {
        let (byte, rest) = self.rest.split_first()?;
        self.rest = rest;
        Some(*byte)
    }

    /// Int32.
    pub fn int32(&mut self) -> Option<u32> {
        let (bytes, rest) = self.rest.split_first_chunk::<4>()?;
        self.rest = rest;
        Some(u32::from_be_bytes(*bytes))
    }

    /// Int64.
    pub fn int64(&mut self) -> Option<u64> {
        let (bytes, rest) = self.rest.split_first_chunk::<8>()?;
        self.rest = rest;
        Some(u64::from_be_bytes(*bytes))
    }

    /// String, whose zero byte isn't part of it.
    pub fn text(&mut self) -> Option<&'a str> {
        let end = self.rest.iter().position(|byte| *byte == 0)?;
        let (text, rest) = self.rest.split_at_checked(end)?;
        let (_, rest) = rest.split_first()?;
        self.rest = rest;
        std::str::from_utf8(text).ok()
    }
}
