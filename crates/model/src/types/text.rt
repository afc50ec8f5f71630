// The type text. Each text spells itself.
ghost use Rattle.std.specs.Prelude.{◌≡◌, ◌≢◌, ◌≤◌, ◌<◌, ◌↔◌, ◌∷◌, ◌++◌, [], IfOk, IsTrue, OnOk, length, slice_index, take};
ghost use Rattle.std.specs.Bool.{OnFalse};
ghost use Rattle.model.specs.Types.Text.{escape, escaped_text};

use crate::memory::OutOfMemory;
use std::alloc::{AllocError, Global};
use std::marker::Model;
use std::sync::ArcStr;

/// A text as a value keeps it: characters of its own, which copies of the value share. It keeps no
/// buffer alive from which it was read. A clause sees its bytes, which are UTF-8.
#[derive(Debug, Drop)]
pub struct KeptText {
    text: ArcStr,
}

impl Model for KeptText {
    ghost use Rattle.std.specs.Prelude.{List, ℕ};

    ghost Value = { List ℕ };

    ghost use Rattle.std.specs.Arc.{arc_str_bytes};

    ghost view = { λ t. arc_str_bytes t.text };
}

impl KeptText {
    /// A text of its own with these characters, which are copied.
    pub fn from_str(alloc: Global, text: &str) -> Result<KeptText, OutOfMemory>
        ensures { IfOk result (λ kept. kept ≡ text.now) }
    {
        Ok(KeptText {
            text: ArcStr::from_str(alloc, text)?,
        })
    }

    /// Its characters.
    pub fn as_str(&self) -> &str
        ensures { result.now ≡ self.now }
    {
        self.text.as_str()
    }
}

impl Clone for KeptText {
    ghost use Rattle.std.specs.Prelude.{◌≡◌};

    ghost is_clone = { λ text other. other ≡ text };

    fn clone(&self) -> Result<KeptText, AllocError> {
        Ok(KeptText {
            text: self.text.clone()?,
        })
    }
}

/// Appends a text as the report prints it: with escapes. One without any, as most are, goes at once.
pub fn push(out: &mut Vec<u8>, text: &str) -> Result<(), AllocError>
    ensures { OnOk result (out.new.items ≡ out.old.items ++ escaped_text text.now) }
{
    let bytes = text.as_bytes();
    if has_escaped(bytes) {
        push_parts(out, bytes)
    } else {
        Ok(out.extend_from_slice(bytes)?)
    }
}

// Whether a byte is escaped. A search for one byte goes through many at a time, so these four are
// faster than one for all.
fn has_escaped(bytes: &[u8]) -> bool
    ensures { OnFalse result (escaped_text bytes.now ≡ bytes.now) }
{
    bytes.contains(&b'\\') | bytes.contains(&b'|') | bytes.contains(&b'\n') | bytes.contains(&b'\r')
}

// Appends bytes with escapes. Those between two escapes go at once.
fn push_parts(out: &mut Vec<u8>, bytes: &[u8]) -> Result<(), AllocError>
    ensures { OnOk result (out.new.items ≡ out.old.items ++ escaped_text bytes.now) }
{
    let mut rest = bytes;
    loop {
        let (plain, behind) = rest.split_at(plain_len(rest));
        out.extend_from_slice(plain)?;
        let Some((byte, others)) = behind.split_first() else {
            return Ok(());
        };
        push_escaped(out, *byte)?;
        rest = others;
    }
}

// How many bytes at the front are printed as they are, up to the first that is escaped.
fn plain_len(bytes: &[u8]) -> usize
    ensures within { result ≤ length bytes.now }
    ensures plain { escaped_text (take result bytes.now) ≡ take result bytes.now }
    ensures next { result < length bytes.now → escape (slice_index bytes.now result) ≢ slice_index bytes.now result ∷ [] }
{
    for (at, byte) in bytes.iter().enumerate() {
        if is_escaped(*byte) {
            return at;
        }
    }
    bytes.len()
}

fn is_escaped(byte: u8) -> bool
    ensures { IsTrue result ↔ (escape byte ≢ byte ∷ []) }
{
    matches!(byte, b'\\' | b'|' | b'\n' | b'\r')
}

fn push_escaped(out: &mut Vec<u8>, byte: u8) -> Result<(), AllocError>
    ensures { OnOk result (out.new.items ≡ out.old.items ++ escape byte) }
{
    match byte {
        b'\\' => out.extend_from_slice(b"\\\\"),
        b'|' => out.extend_from_slice(b"\\p"),
        b'\n' => out.extend_from_slice(b"\\n"),
        b'\r' => out.extend_from_slice(b"\\r"),
        other => Ok(out.push(other)?),
    }
}
