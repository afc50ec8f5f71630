// Whose stream it is, as a notice at its front says (PostgreSQL manual: Error and Notice Message Fields).
use std::alloc::{AllocError, Global};

/// What stands before the identifier in such a notice, which `publisher` puts at the front of a stream.
const BEFORE: &[u8] = b" of system ";

/// The identifier of a system that a frame names, where that is such a notice.
pub fn system_in(alloc: Global, frame: &[u8]) -> Result<Option<String>, AllocError> {
    if frame.first() != Some(&b'N') {
        return Ok(None);
    }
    let Some(digits) = digits_behind(frame) else {
        return Ok(None);
    };
    match std::str::from_utf8(digits) {
        Ok(text) if !text.is_empty() => Ok(Some(String::from_str(alloc, text)?)),
        _ => Ok(None),
    }
}

// The digits behind the words that stand before an identifier.
fn digits_behind(frame: &[u8]) -> Option<&[u8]> {
    let place = frame
        .windows(BEFORE.len())
        .rposition(|words| words == BEFORE)?;
    let behind = frame.get(place.saturating_add(BEFORE.len())..)?;
    let count = behind
        .iter()
        .position(|byte| !byte.is_ascii_digit())
        .unwrap_or(behind.len());
    behind.get(..count)
}
