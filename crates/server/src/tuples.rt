// The messages of a copy of rows, as pgoutput spells them (PostgreSQL manual: Logical Replication Message
// Formats), and the rows of COPY's text format (SQL commands: COPY).
use crate::fault::{Fault, Nonsense};
use std::alloc::Global;

/// The transaction of a copy: FrozenTransactionId, which no transaction of a server has.
const XID: u32 = 2;

/// Begin, of a transaction that commits at this place.
pub fn begin(alloc: Global, place: u64) -> Result<Vec<u8>, Fault> {
    let mut message = Vec::new(alloc);
    message.push(b'B')?;
    message.extend_from_slice(&place.to_be_bytes())?;
    message.extend_from_slice(&[0; 8])?;
    message.extend_from_slice(&XID.to_be_bytes())?;
    Ok(message)
}

/// Commit, of a transaction whose commit's record begins and ends at this place.
pub fn commit(alloc: Global, place: u64) -> Result<Vec<u8>, Fault> {
    let mut message = Vec::new(alloc);
    message.extend_from_slice(b"C\0")?;
    message.extend_from_slice(&place.to_be_bytes())?;
    message.extend_from_slice(&place.to_be_bytes())?;
    message.extend_from_slice(&[0; 8])?;
    Ok(message)
}

/// Insert into the relation of this OID, of a line of COPY's text that has so many values: texts parted by
/// tabs, with backslashes before what would be read otherwise, and `\N` for null.
pub fn insert(alloc: Global, oid: u32, line: &[u8], count: usize) -> Result<Vec<u8>, Fault> {
    let refused = Fault::Nonsense(Nonsense::BadRow);
    let Ok(columns) = u16::try_from(count) else {
        return Err(refused);
    };
    let mut message = Vec::new(alloc);
    message.push(b'I')?;
    message.extend_from_slice(&oid.to_be_bytes())?;
    message.push(b'N')?;
    message.extend_from_slice(&columns.to_be_bytes())?;
    let mut found = 0usize;
    for text in line.split(|byte| *byte == b'\t') {
        push_value(&mut message, text)?;
        found = found.saturating_add(1);
    }
    if found == count {
        Ok(message)
    } else {
        Err(refused)
    }
}

/// Appends a value: 'n', or 't' with the length and the bytes of the text that this spells.
fn push_value(message: &mut Vec<u8>, spelled: &[u8]) -> Result<(), Fault> {
    if spelled == b"\\N".as_slice() {
        message.push(b'n')?;
        return Ok(());
    }
    let mut text = Vec::new(*message.allocator());
    let mut is_escaped = false;
    for byte in spelled {
        if is_escaped {
            text.push(unescaped(*byte))?;
            is_escaped = false;
        } else if *byte == b'\\' {
            is_escaped = true;
        } else {
            text.push(*byte)?;
        }
    }
    let Ok(length) = u32::try_from(text.len()) else {
        return Err(Fault::Nonsense(Nonsense::TooLong));
    };
    message.push(b't')?;
    message.extend_from_slice(&length.to_be_bytes())?;
    message.extend_from_slice(text.as_slice())?;
    Ok(())
}

/// The byte that this letter behind a backslash stands for.
fn unescaped(letter: u8) -> u8 {
    match letter {
        b'b' => 8,
        b't' => b'\t',
        b'n' => b'\n',
        b'v' => 11,
        b'f' => 12,
        b'r' => b'\r',
        other => other,
    }
}
