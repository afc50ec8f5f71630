// Texts of others as they may stand on a terminal.
use std::fmt;
use std::fmt::Write;

/// A text of another machine. Shown, a character that a terminal would obey is spelled by its number, as
/// `\u001B`: controls, ends of lines, and what turns the direction of writing.
#[derive(Clone, Copy, Debug)]
pub struct Shown<'a>(pub &'a str);

impl fmt::Display for Shown<'_> {
    fn fmt<W: fmt::Write>(&self, f: &mut fmt::Formatter<W>) -> fmt::Result {
        for letter in self.0.chars() {
            if is_obeyed(letter) {
                let code = u32::from(letter);
                write!(f, "\\u{code:04X}")?;
            } else {
                f.write_char(letter)?;
            }
        }
        Ok(())
    }
}

/// Whether a terminal obeys a character, and does not show it.
pub fn is_obeyed(letter: char) -> bool {
    match letter {
        '\u{200e}' | '\u{200f}' | '\u{2028}'..='\u{202e}' | '\u{2066}'..='\u{2069}' => true,
        other => other.is_control(),
    }
}
