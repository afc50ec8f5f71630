// A place of the server's log as PostgreSQL writes it.
use std::fmt;

/// A place of the server's log (pg_lsn): its halves in hexadecimal, as 1/2A.
#[derive(Clone, Copy, Debug, PartialEq, Eq)]
pub struct Place(pub u64);

impl fmt::Display for Place {
    fn fmt<W: fmt::Write>(&self, f: &mut fmt::Formatter<W>) -> fmt::Result {
        let high = self.0 >> 32;
        let low = self.0 & 0xffff_ffff;
        write!(f, "{high:X}/{low:X}")
    }
}

/// Reads a place: two halves of one to eight hexadecimal digits, parted by a slash.
pub fn read_place(text: &str) -> Option<u64> {
    let (high, low) = text.split_once('/')?;
    Some(u64::from(half(high)?) << 32 | u64::from(half(low)?))
}

fn half(text: &str) -> Option<u32> {
    if !text.bytes().all(|byte| byte.is_ascii_hexdigit()) {
        return None;
    }
    u32::from_str_radix(text, 16).ok()
}
