// The table of most tests: accounts with an id, an email that is unique, and a note.
use std::alloc::Global;
use std::fmt::Write;
use std::test::Fail;

/// A catalog of this one table.
pub const CATALOG: &str = r#"
[[table]]
namespace = "public"
name = "accounts"
primary = ["id"]
unique = [["email"]]
[[table.column]]
name = "id"
type = "int"
[[table.column]]
name = "email"
type = "text"
[[table.column]]
name = "note"
type = "text"
default = "x"
"#;

/// What stands in the publisher's relation message, behind its tag and outside of a block. Its number is
/// 16385, and the id is in the key.
pub const RELATION: &[u8] = b"\0\0\x40\x01public\0accounts\0d\0\x03\
    \x01id\0\0\0\0\x17\xff\xff\xff\xff\
    \0email\0\0\0\0\x19\xff\xff\xff\xff\
    \0note\0\0\0\0\x19\xff\xff\xff\xff";

/// The report of the rows 1 to 1000, each with a null and the note n, of a run up to 0/320.
pub fn thousand_rows(alloc: Global) -> Result<String, Fail> {
    let mut report = String::new(alloc);
    report.push_str("table public.accounts 1000\n")?;
    for key in 1..1001u32 {
        write!(report, "{key}|\\N|n\n")?;
    }
    report.push_str("position 0/320\nend 0 Clean\n")?;
    Ok(report)
}
