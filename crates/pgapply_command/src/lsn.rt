// LSNs as PostgreSQL writes them.
use leader::Lsn;
use std::alloc::AllocError;

/// The LSN that a text stands for: one to eight hexadecimal digits, `/`, and one to eight digits, in
/// either case. (PostgreSQL manual: pg_lsn Type.)
pub fn read_lsn(text: &str) -> Option<Lsn> {
    let (high, low) = text.split_once('/')?;
    Some(read_half(high)? << 32 | read_half(low)?)
}

fn read_half(digits: &str) -> Option<u64> {
    if digits.len() > 8 || !digits.bytes().all(|byte| byte.is_ascii_hexdigit()) {
        return None;
    }
    u64::from_str_radix(digits, 16).ok()
}

/// Appends an LSN as PostgreSQL writes it.
pub fn write_lsn(text: &mut String, lsn: Lsn) -> Result<(), AllocError> {
    let high = lsn >> 32;
    let low = lsn & 0xffff_ffff;
    write!(text, "{high:X}/{low:X}")
}
