// TOML as text: what a catalog needs of it.
ghost use Rattle.std.specs.Prelude.{◌≡◌, ◌++◌, string_bytes, Some, OnOk};
ghost use Rattle.toml_writer.specs.Text.{string_text};

use server::fault::Fault;
use std::fmt;
use toml_writer::write_string;

/// A text as a string of TOML.
#[derive(Clone, Copy)]
struct TomlString<'a> {
    text: &'a str,
}

impl fmt::Display for TomlString<'_> {
    ghost output = { λ string. Some (string_text string.text.now) };

    fn fmt<W: fmt::Write>(&self, f: &mut fmt::Formatter<W>) -> fmt::Result {
        write_string(f, self.text)
    }
}

/// Appends a string.
pub fn push_string(out: &mut String, text: &str) -> Result<(), Fault>
    ensures { OnOk result (string_bytes out.new ≡ string_bytes out.old ++ string_text text.now) }
{
    let string = TomlString { text };
    write!(out, "{string}")?;
    Ok(())
}

/// Appends an array of strings.
pub fn push_strings(out: &mut String, texts: &[String]) -> Result<(), Fault> {
    out.push('[')?;
    for (index, text) in texts.iter().enumerate() {
        push_comma(out, index)?;
        push_string(out, text.as_str())?;
    }
    out.push(']')?;
    Ok(())
}

/// Appends what stands before the element of an array that has this number: nothing before the first.
pub fn push_comma(out: &mut String, index: usize) -> Result<(), Fault> {
    if index > 0 {
        out.push_str(", ")?;
    }
    Ok(())
}
