use super::OrFail;
use catalog::{Catalog, CatalogFault, Column, ColumnType, Value};
use model::KeptText;
use std::alloc::{AllocError, Global};
use std::test::Fail;
use testing::accounts::CATALOG;
use testing::asserts::{assert_holds, assert_same};

// The columns of the accounts.
static COLUMNS: [(&str, ColumnType); 3] = [
    ("id", ColumnType::Int),
    ("email", ColumnType::Text),
    ("note", ColumnType::Text),
];

fn assert_columns(columns: &[Column]) -> Result<(), Fail> {
    assert_same(columns.len(), COLUMNS.len(), "columns")?;
    for (column, (name, kind)) in columns.iter().zip(&COLUMNS) {
        assert_same(column.name.as_str(), *name, "name")?;
        assert_same(column.kind, *kind, "kind")?;
    }
    Ok(())
}

#[test]
fn reads_the_accounts(rt: HostRuntime) {
    let catalog = Catalog::read(rt.alloc(), CATALOG).or_fail(&rt);
    let [accounts] = catalog.tables() else {
        panic!(rt; "one table");
    };
    assert_same(accounts.namespace().as_str(), "public", "namespace").or_fail(&rt);
    assert_same(accounts.name().as_str(), "accounts", "name").or_fail(&rt);
    assert_columns(accounts.columns()).or_fail(&rt);
    let text = KeptText::from_str(rt.alloc(), "x").or_fail(&rt);
    let defaults = [None, None, Some(Value::Text(text))];
    assert_holds(accounts.defaults() == defaults.as_slice(), "defaults").or_fail(&rt);
}

#[test]
fn reads_the_keys_of_the_accounts(rt: HostRuntime) {
    let catalog = Catalog::read(rt.alloc(), CATALOG).or_fail(&rt);
    let [accounts] = catalog.tables() else {
        panic!(rt; "one table");
    };
    assert_holds(accounts.primary().numbers() == [0].as_slice(), "primary").or_fail(&rt);
    let [email] = accounts.uniques() else {
        panic!(rt; "one unique key");
    };
    assert_holds(email.numbers() == [1].as_slice(), "unique").or_fail(&rt);
}

// Texts that are a catalog, and how many tables they have.
static TAKEN: [(&str, usize); 7] = [
    ("", 0),
    ("# no table\n", 0),
    ("table = []", 0),
    (
        r#"table = [{namespace="n", name="t", primary=["a"], column=[{name="a", type="bool"}]}]"#,
        1,
    ),
    (
        r#"table = [{namespace="n", name="t", primary=["b", "a"], unique=[], column=[{name="a", type="int", default=-7}, {name="b", type="bool", default=true}]}]"#,
        1,
    ),
    (
        r#"table = [{namespace="n", name="t", primary=["a"], unique=[["a"], ["a"]], column=[{name="a", type="text", default="\u0000"}]}]"#,
        1,
    ),
    (
        r#"table = [{namespace="n", name="t", primary=["a"], column=[{name="a", type="int"}]}, {namespace="m", name="t", primary=["a"], column=[{name="a", type="int"}]}, {namespace="n", name="u", primary=["a"], column=[{name="a", type="int"}]}]"#,
        3,
    ),
];

#[test]
fn takes_what_is_a_catalog(rt: HostRuntime) {
    for &(text, count) in &TAKEN {
        let catalog = Catalog::read(rt.alloc(), text).or_fail(&rt);
        assert_same(catalog.tables().len(), count, text).or_fail(&rt);
    }
}

// Faults, and texts for which each is answered.
static REFUSED: [(CatalogFault, &[&str]); 13] = [
    (
        CatalogFault::NotToml,
        &[
            "table",
            "table = []\ntable = []",
            "limit = 9223372036854775808",
        ],
    ),
    (
        CatalogFault::UnknownField,
        &[
            "tables = []",
            "table = 1",
            "table = [1]",
            r#"table = {namespace="n", name="t", primary=["a"], column=[{name="a", type="int"}]}"#,
            r#"table = [{namespace="n", name="t", primary=["a"], column=[{name="a", type="int"}], owner="x"}]"#,
            r#"table = [{name="t", primary=["a"], column=[{name="a", type="int"}]}]"#,
            r#"table = [{namespace="n", primary=["a"], column=[{name="a", type="int"}]}]"#,
            r#"table = [{namespace="n", name="t", primary=["a"]}]"#,
            r#"table = [{namespace=1, name="t", primary=["a"], column=[{name="a", type="int"}]}]"#,
            r#"table = [{namespace="", name="t", primary=["a"], column=[{name="a", type="int"}]}]"#,
            r#"table = [{namespace="n", name=["t"], primary=["a"], column=[{name="a", type="int"}]}]"#,
            r#"table = [{namespace="n", name="t\u0000", primary=["a"], column=[{name="a", type="int"}]}]"#,
            r#"table = [{namespace="n", name="t", primary="a", column=[{name="a", type="int"}]}]"#,
            r#"table = [{namespace="n", name="t", primary=[1], column=[{name="a", type="int"}]}]"#,
            r#"table = [{namespace="n", name="t", primary=["a"], unique="a", column=[{name="a", type="int"}]}]"#,
            r#"table = [{namespace="n", name="t", primary=["a"], unique=["a"], column=[{name="a", type="int"}]}]"#,
            r#"table = [{namespace="n", name="t", primary=["a"], unique=[[1]], column=[{name="a", type="int"}]}]"#,
            r#"table = [{namespace="n", name="t", primary=["a"], column={name="a", type="int"}}]"#,
            r#"table = [{namespace="n", name="t", primary=["a"], column=["a"]}]"#,
            r#"table = [{namespace="n", name="t", primary=["a"], column=[{name="a", type="int", width=8}]}]"#,
            r#"table = [{namespace="n", name="t", primary=["a"], column=[{type="int"}]}]"#,
            r#"table = [{namespace="n", name="t", primary=["a"], column=[{name="a"}]}]"#,
            r#"table = [{namespace="n", name="t", primary=["a"], column=[{name="", type="int"}]}]"#,
            r#"table = [{namespace="n", name="t", primary=["a"], column=[{name="a", type=1}]}]"#,
            r#"table = [{namespace="n", name="t", primary=["a"], column=[{name="a", type="float"}]}]"#,
        ],
    ),
    (
        CatalogFault::DuplicateTable,
        &[
            r#"table = [{namespace="n", name="t", primary=["a"], column=[{name="a", type="int"}]}, {namespace="n", name="t", primary=["b"], column=[{name="b", type="int"}]}]"#,
        ],
    ),
    (
        CatalogFault::DuplicateColumn,
        &[
            r#"table = [{namespace="n", name="t", primary=["a"], column=[{name="a", type="int"}, {name="b", type="int"}, {name="a", type="text"}]}]"#,
        ],
    ),
    (
        CatalogFault::NoPrimaryKey,
        &[
            r#"table = [{namespace="n", name="t", column=[{name="a", type="int"}]}]"#,
            r#"table = [{namespace="n", name="t", primary=[], column=[]}]"#,
        ],
    ),
    (
        CatalogFault::KeyColumnUnknown,
        &[
            r#"table = [{namespace="n", name="t", primary=["a"], column=[]}]"#,
            r#"table = [{namespace="n", name="t", primary=["a", "a"], column=[{name="a", type="int"}]}]"#,
            r#"table = [{namespace="n", name="t", primary=["a"], unique=[[]], column=[{name="a", type="int"}]}]"#,
            r#"table = [{namespace="n", name="t", primary=["a"], unique=[["a"], ["b"]], column=[{name="a", type="int"}]}]"#,
            r#"table = [{namespace="n", name="t", primary=["a"], unique=[[""]], column=[{name="a", type="int"}]}]"#,
        ],
    ),
    (
        CatalogFault::BadDefault,
        &[
            r#"table = [{namespace="n", name="t", primary=["a"], column=[{name="a", type="int", default="1"}]}]"#,
            r#"table = [{namespace="n", name="t", primary=["a"], column=[{name="a", type="text", default=1}]}]"#,
            r#"table = [{namespace="n", name="t", primary=["a"], column=[{name="a", type="bool", default="t"}]}]"#,
            r#"table = [{namespace="n", name="t", primary=["a"], column=[{name="a", type="int", default=1.0}]}]"#,
            r#"table = [{namespace="n", name="t", primary=["a"], column=[{name="a", type="text", default=2000-01-01}]}]"#,
        ],
    ),
    // Two faults each, the greater one first in the text.
    (
        CatalogFault::UnknownField,
        &[
            r#"table = [{namespace="n", name="t", column=[{name="a", type="int"}]}, {namespace="n", name="t", column=[]}, {namespace="n", name="u", row=1}]"#,
        ],
    ),
    (
        CatalogFault::DuplicateTable,
        &[
            r#"table = [{namespace="n", name="u", column=[{name="a", type="int"}, {name="a", type="int"}]}, {namespace="n", name="t", column=[]}, {namespace="n", name="t", column=[]}]"#,
        ],
    ),
    (
        CatalogFault::DuplicateColumn,
        &[
            r#"table = [{namespace="n", name="u", column=[]}, {namespace="n", name="t", primary=["a"], column=[{name="a", type="int"}, {name="a", type="int"}]}]"#,
        ],
    ),
    (
        CatalogFault::NoPrimaryKey,
        &[
            r#"table = [{namespace="n", name="u", primary=["b"], column=[]}, {namespace="n", name="t", column=[{name="a", type="int"}]}]"#,
        ],
    ),
    (
        CatalogFault::KeyColumnUnknown,
        &[
            r#"table = [{namespace="n", name="u", primary=["a"], column=[{name="a", type="int", default=""}]}, {namespace="n", name="t", primary=["b"], column=[]}]"#,
        ],
    ),
    (
        CatalogFault::BadDefault,
        &[
            r#"table = [{namespace="n", name="u", primary=["a"], unique=[["a"],["a"],["a"],["a"],["a"],["a"],["a"],["a"],["a"],["a"],["a"],["a"],["a"],["a"],["a"],["a"],["a"]], column=[{name="a", type="int", default=""}]}]"#,
        ],
    ),
];

#[test]
fn answers_the_least_fault(rt: HostRuntime) {
    for &(fault, texts) in &REFUSED {
        for text in texts {
            let answer = Catalog::read(rt.alloc(), *text).err();
            assert_same(answer, Some(fault), *text).or_fail(&rt);
        }
    }
}

// Appends a table with so many columns and unique keys.
fn push_table(
    text: &mut String,
    number: usize,
    columns: usize,
    uniques: usize,
) -> Result<(), AllocError> {
    write!(
        text,
        "[[table]]\nnamespace = \"n\"\nname = \"t{number}\"\nprimary = [\"c0\"]\nunique = ["
    )?;
    for _ in 0..uniques {
        text.push_str("[\"c0\"],")?;
    }
    text.push_str("]\n")?;
    for column in 0..columns {
        write!(
            text,
            "[[table.column]]\nname = \"c{column}\"\ntype = \"int\"\n"
        )?;
    }
    Ok(())
}

// A text with so many tables, of which the first has so many columns and unique keys.
fn large_text(
    alloc: Global,
    tables: usize,
    columns: usize,
    uniques: usize,
) -> Result<String, AllocError> {
    let mut text = String::new(alloc);
    push_table(&mut text, 0, columns, uniques)?;
    for number in 1..tables {
        push_table(&mut text, number, 1, 0)?;
    }
    Ok(text)
}

// Tables, columns and unique keys, and whether a catalog may have so many.
static SIZES: [(usize, usize, usize, Option<CatalogFault>); 6] = [
    (1024, 1, 0, None),
    (1025, 1, 0, Some(CatalogFault::OverLimit)),
    (1, 1600, 0, None),
    (1, 1601, 0, Some(CatalogFault::OverLimit)),
    (1, 1, 16, None),
    (1, 1, 17, Some(CatalogFault::OverLimit)),
];

#[test]
fn takes_up_to_the_limits(rt: HostRuntime) {
    for &(tables, columns, uniques, want) in &SIZES {
        let text = large_text(rt.alloc(), tables, columns, uniques).or_fail(&rt);
        let fault = Catalog::read(rt.alloc(), text.as_str()).err();
        assert_same(fault, want, tables).or_fail(&rt);
    }
}
