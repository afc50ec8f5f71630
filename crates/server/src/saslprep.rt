// SASLprep (RFC 4013): two spellings of one password are one text.
ghost use Rattle.std.specs.Prelude.{◌≡◌, string_bytes, IsAscii, IfOk};

use crate::fault::Fault;
use crate::stringprep::{LEFT_TO_RIGHT, NOTHING, PROHIBITED, RIGHT_TO_LEFT, SPACES, is_in};
use std::alloc::Global;
use unicode_normalization::to_nfkc;

/// A password as it is proved, as PostgreSQL prepares it: one in ASCII, and one that SASLprep refuses, is left as
/// it is.
pub fn prepare(alloc: Global, password: &str) -> Result<String, Fault>
    ensures ascii { IsAscii password.now → IfOk result (λ text. string_bytes text ≡ password.now) }
{
    if password.is_ascii() {
        return Ok(String::from_str(alloc, password)?);
    }
    let mapped = map_letters(alloc, password)?;
    let mapped = mapped.as_str();
    if is_refused(mapped) {
        return Ok(String::from_str(alloc, password)?);
    }
    Ok(to_nfkc(alloc, mapped)?)
}

/// Spaces as spaces of ASCII, without what is mapped to nothing.
fn map_letters(alloc: Global, password: &str) -> Result<String, Fault> {
    let mut out = String::new(alloc);
    for letter in password.chars() {
        if is_in(&SPACES, letter) {
            out.push(' ')?;
        } else if !is_in(&NOTHING, letter) {
            out.push(letter)?;
        }
    }
    Ok(out)
}

/// Whether a text is empty, has what is prohibited, or mixes directions of writing: one with a letter that is
/// written from right to left has none that isn't, and such a one at both ends.
fn is_refused(text: &str) -> bool {
    let (Some(first), Some(last)) = (text.chars().next(), text.chars().next_back()) else {
        return true;
    };
    if text.chars().any(|letter| is_in(&PROHIBITED, letter)) {
        return true;
    }
    text.chars().any(|letter| is_in(&RIGHT_TO_LEFT, letter))
        && (text.chars().any(|letter| is_in(&LEFT_TO_RIGHT, letter))
            || !is_in(&RIGHT_TO_LEFT, first)
            || !is_in(&RIGHT_TO_LEFT, last))
}
