// The text of values and positions.
ghost use Rattle.std.specs.Prelude.{◌≡◌, ◌++◌, OnOk, decimal};
ghost use Rattle.std.specs.Option.{option_map};
ghost use Rattle.model.specs.Types.{value_text};
ghost use Rattle.model.specs.ValueRef.{read_value};
ghost use Rattle.run.specs.Text.{lsn_text};

use itoa::Buffer;
use model::ValueRef;
use model::types::{boolean, int, text};
use std::alloc::AllocError;

/// Appends a value.
pub fn push_value(out: &mut Vec<u8>, value: Option<ValueRef<'_>>) -> Result<(), AllocError>
    ensures { OnOk result (out.new.items ≡ out.old.items ++ value_text (option_map read_value value.entry)) }
{
    match value {
        None => out.extend_from_slice(b"\\N"),
        Some(ValueRef::Int(number)) => int::push(out, number),
        Some(ValueRef::Text(words)) => text::push(out, words),
        Some(ValueRef::Bool(truth)) => boolean::push(out, truth),
    }
}

/// Appends a number in decimal.
pub fn push_number(out: &mut Vec<u8>, number: u64) -> Result<(), AllocError>
    ensures { OnOk result (out.new.items ≡ out.old.items ++ decimal number) }
{
    let mut buffer = Buffer::new();
    out.extend_from_slice(buffer.format(number).as_bytes())
}

/// Appends a position in the log.
pub fn push_lsn(out: &mut Vec<u8>, lsn: u64) -> Result<(), AllocError>
    ensures { OnOk result (out.new.items ≡ out.old.items ++ lsn_text lsn) }
{
    let alloc = *out.allocator();
    let text = format!(in alloc; "{:X}/{:X}", lsn >> 32, lsn & 0xffff_ffff)?;
    out.extend_from_slice(text.as_bytes())
}
