// The type int.
ghost use Rattle.std.specs.Prelude.{◌≡◌, ◌++◌, OnOk};
ghost use Rattle.model.specs.Types.Int.{int_of, int_text};

use itoa::Buffer;
use std::alloc::AllocError;

/// The number that a text spells: an optional sign and digits, within 64 bits.
pub fn read(text: &str) -> Option<i64>
    ensures { result ≡ int_of text.now }
{
    text.parse::<i64>().ok()
}

/// Appends a number as the report prints it.
pub fn push(out: &mut Vec<u8>, number: i64) -> Result<(), AllocError>
    ensures { OnOk result (out.new.items ≡ out.old.items ++ int_text number) }
{
    let mut buffer = Buffer::new();
    out.extend_from_slice(buffer.format(number).as_bytes())
}
