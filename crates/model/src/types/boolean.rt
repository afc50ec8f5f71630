// The type bool.
ghost use Rattle.std.specs.Prelude.{◌≡◌, ◌++◌, OnOk};
ghost use Rattle.model.specs.Types.Boolean.{bool_of, bool_text};

use std::alloc::AllocError;

/// The truth that a text spells: `t` or `f`.
pub fn read(text: &str) -> Option<bool>
    ensures { result ≡ bool_of text.now }
{
    match text {
        "t" => Some(true),
        "f" => Some(false),
        _ => None,
    }
}

/// Appends a truth as the report prints it.
pub fn push(out: &mut Vec<u8>, truth: bool) -> Result<(), AllocError>
    ensures { OnOk result (out.new.items ≡ out.old.items ++ bool_text truth) }
{
    out.extend_from_slice(if truth { b"t" } else { b"f" })
}
