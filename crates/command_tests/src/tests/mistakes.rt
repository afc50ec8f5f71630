// Where a catalog has its fault.
use pgapply_command::mistake::find_mistake;
use std::alloc::Global;
use std::test::Fail;
use testing::asserts::{assert_holds, assert_same};

/// What is said of the place, or nothing.
fn said(alloc: Global, bytes: &[u8]) -> Result<String, Fail> {
    match find_mistake(alloc, bytes)? {
        Some(mistake) => Ok(format!(in alloc; "{mistake}")?),
        None => Ok(String::new(alloc)),
    }
}

/// A table of two columns, which stand in lines 7 and 11, and what follows it.
macro_rules! accounts {
    ($($behind:literal)*) => {
        concat!(
            "# accounts\n[[table]]\nnamespace = \"public\"\nname = \"accounts\"\nprimary = [\"id\"]\n\n",
            "[[table.column]]\nname = \"id\"\ntype = \"int\"\n\n",
            "[[table.column]]\nname = \"note\"\ntype = \"text\"\n",
            $($behind),*
        )
    };
}

/// Texts, and where their faults are.
static CASES: [(&str, &str); 14] = [
    (accounts!(), ""),
    ("", ""),
    ("table = 1", "line ?: it is in no table"),
    ("\ntabel = []", "line ?: it is in no table"),
    // A type, a field and a default.
    (
        accounts!("\n[[table.column]]\nname = \"n\"\ntype = \"integer\"\n"),
        "line 15, table public.accounts, column n",
    ),
    (
        accounts!(
            "\n[[table.column]]\nnmae = \"n\"\n\n[[table.column]]\nname = \"m\"\ntype = \"int\"\n"
        ),
        "line 15, table public.accounts",
    ),
    (
        accounts!("default = 1\n"),
        "line 11, table public.accounts, column note",
    ),
    // A column that stands twice.
    (
        accounts!("\n[[table.column]]\nname = \"id\"\ntype = \"int\"\n"),
        "line 15, table public.accounts, column id",
    ),
    // A second table: of the same name, without a key, with a key of no column, with a field more.
    (
        accounts!("[[ table ]]\nnamespace = \"public\"\nname = \"accounts\"\nprimary = [\"id\"]\n"),
        "line 14, table public.accounts",
    ),
    (
        accounts!("[[table]] # more\nnamespace = \"public\"\nname = \"a\\u001Bb\"\n"),
        "line 14, table public.a\\u{1b}b",
    ),
    (
        accounts!("[[table]]\nnamespace = \"public\"\nname = \"other\"\nprimary = [\"id\"]\n"),
        "line 14, table public.other",
    ),
    (
        accounts!("[[table]]\nnmae = \"x\"\nprimary = [\"id\"]\n"),
        "line 14, table 2",
    ),
    // A text without headers.
    (
        "table = [{ namespace = \"s\", name = \"t\", primary = [\"k\"], column = [{ name = \"k\", type = \"x\" }] }]",
        "line ?, table s.t, column k",
    ),
    // A header within a text, so that lines are not known.
    (
        accounts!(
            "default = \"\"\"\n[[table]]\n\"\"\"\n\n[[table.column]]\nname = \"n\"\ntype = \"x\"\n"
        ),
        "line ?, table public.accounts, column n",
    ),
];

#[test]
fn where_a_catalog_has_its_fault(rt: HostRuntime) -> Result<(), Fail> {
    for (text, want) in &CASES {
        let text = said(rt.alloc(), text.as_bytes())?;
        assert_same(text.as_str(), *want, *want)?;
    }
    Ok(())
}

#[test]
fn where_a_text_is_no_toml(rt: HostRuntime) -> Result<(), Fail> {
    assert_same(
        said(rt.alloc(), b"a = 1\n\xff")?.as_str(),
        "line 2: it is not UTF-8",
        "text",
    )?;
    let said = said(rt.alloc(), b"a = 1\n\n= 2\n")?;
    assert_holds(said.as_str().starts_with("line 3: "), "line")
}
