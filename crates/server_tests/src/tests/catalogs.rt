// The catalog of what a server says of a publication, and defaults as `pg_get_expr` prints them.
use super::OrFail;
use super::script::{Behind, assert_fault, connect, say, say_row};
use publication::catalog::{Answers, ask, print};
use publication::columns::{Kind, read_default};
use server::fault::Fault;
use std::alloc::Global;
use std::test::Fail;
use testing::accounts::CATALOG;
use testing::asserts::{assert_holds, assert_same};

/// Appends the answer to one question.
fn answer(out: &mut Vec<u8>, rows: &[&str]) -> Result<(), Fail> {
    say(out, b'T', b"\0\0")?;
    for row in rows {
        say_row(out, *row)?;
    }
    say(out, b'C', b"SELECT\0")?;
    say(out, b'Z', b"I")
}

/// What is made of a scripted server's answers to one question after another.
fn asked(alloc: Global, answers: &[&[&str]]) -> Result<Result<Answers, Fault>, Fail> {
    let mut input = Vec::new(alloc);
    for rows in answers {
        answer(&mut input, *rows)?;
    }
    let mut sent = Vec::new(alloc);
    let mut connection = connect(input.as_slice(), 100, Behind::Close, &mut sent)?;
    Ok(ask(&mut connection, "it's"))
}

const TABLES: [&str; 5] = [
    "1|public|odd \"\\\n|i|(n > 5)",
    r"2|public|bare|d|\N",
    r"3|public|late|d|\N",
    r"4|public|accounts|d|\N",
    r"5|public|other|i|\N",
];

const COLUMNS: [&str; 13] = [
    "1|1|ok|16|b|0| |f|t|true|boolean",
    "1|2|n|20|b|0| |f|t|'-5'::integer|bigint",
    "1|4|a\u{7f}|21|b|0| |f|t|\\N|smallint",
    "3|1|id|23|b|0| |f|t|nextval('s'::regclass)|integer",
    "4|1|id|23|b|0| |f|t|\\N|integer",
    "4|2|email|25|b|0| |f|t|\\N|text",
    "4|4|note|1043|b|0| |f|t|'x'::character varying|character varying(9)",
    "4|5|twice|23|b|0| |t|t|(n * 2)|integer",
    "4|6|hidden|23|b|0| |f|f|\\N|integer",
    "4|7|price|1700|b|0| |f|t|0.5|numeric",
    "4|8|face|99999|e|0| |f|t|\\N|mood",
    "4|9|page|142|b|0| |f|t|\\N|\u{1b}xml",
    "5|1|id|23|b|0| |f|t|\\N|integer",
];

const KEYS: [&str; 11] = [
    "1|10|odd_pkey|t|t|t|f|f|t|f|4",
    "1|11|both|f|f|t|f|f|t|f|2",
    "1|11|both|f|f|t|f|f|t|f|4",
    "3|30|late_pkey|t|f|f|f|f|t|f|1",
    "4|40|accounts_pkey|t|f|t|f|f|t|f|1",
    "4|41|email|f|f|t|f|f|t|f|2",
    "4|42|late|f|f|f|f|f|t|f|2",
    "4|43|some|f|f|t|t|f|t|f|2",
    "4|44|lower|f|f|t|f|t|t|f|0",
    "4|45|nulls|f|f|t|f|f|t|t|2",
    "4|46|priced|f|f|t|f|f|t|f|7",
];

/// A publication of inserts and updates, in which a partition's changes are its root's.
const PUBLICATION: &str = "it's|t|t|t|f|f";

/// What a server says of a publication: its version, the publication, and the tables.
static SHOP: [&[&str]; 5] = [&["170002"], &[PUBLICATION], &TABLES, &COLUMNS, &KEYS];

/// The first of these tables, whose names need escapes and whose key is not its first column.
const ODD: &str = r#"[[table]]
namespace = "public"
name = '''
odd "\
'''
primary = ["a\u007F"]
unique = [["n", "a\u007F"]]
[[table.column]]
name = "ok"
type = "bool"
default = true
[[table.column]]
name = "n"
type = "int"
default = -5
[[table.column]]
name = "a\u007F"
type = "int"
"#;

/// A server's version, the publication of the name, and the fault where it then closes.
static REFUSED: [([&[&str]; 2], &str); 3] = [
    ([&["139999"], &[PUBLICATION]], "OldServer"),
    ([&["140000"], &[]], "NoPublication"),
    ([&["140000"], &[PUBLICATION]], "Closed"),
];

#[test]
fn an_old_server_and_a_publication_that_is_not_there(rt: HostRuntime) {
    for (case, (answers, want)) in REFUSED.iter().enumerate() {
        let refused = asked(rt.alloc(), answers).or_fail(&rt);
        assert_fault(rt.alloc(), refused, *want, case).or_fail(&rt);
    }
}

fn assert_plain(alloc: Global, toml: &str) -> Result<(), Fail> {
    let mut want = String::from_str(alloc, ODD)?;
    want.push_str(CATALOG)?;
    assert_same(toml, want.as_str(), "plain")?;
    assert_holds(toml::table_from_str(alloc, toml).is_ok(), "plain")
}

/// Asserts that names in notes are shown, and that there is one of each of five columns, five keys, two
/// tables of the first three, the filter, and the last table.
fn assert_notes(notes: &[String]) -> Result<(), Fail> {
    let is_shown = notes
        .iter()
        .any(|note| note.as_str().find("odd \"\\\\u000A").is_some());
    assert_holds(is_shown, "shown")?;
    assert_same(notes.len(), 15, "notes")
}

#[test]
fn what_is_kept_and_what_is_left_out(rt: HostRuntime) {
    let answers = asked(rt.alloc(), &SHOP).or_fail(&rt).or_fail(&rt);
    let plain = print(rt.alloc(), &answers, false).or_fail(&rt);
    assert_plain(rt.alloc(), plain.toml.as_str()).or_fail(&rt);
    assert_notes(plain.notes.as_slice()).or_fail(&rt);
}

/// What stands in the catalog where columns of other types are kept as text, and what doesn't.
static PARTS: [(&str, bool); 4] = [
    ("name = \"price\"\ntype = \"text\"\n[[", true),
    ("name = \"face\"\ntype = \"text\"\n", true),
    ("page", false),
    ("[\"email\"], [\"price\"]]", true),
];

fn assert_parts(toml: &str) -> Result<(), Fail> {
    for (part, want) in &PARTS {
        assert_same(toml.find(*part).is_some(), *want, *part)?;
    }
    Ok(())
}

#[test]
fn what_is_kept_as_text(rt: HostRuntime) {
    let answers = asked(rt.alloc(), &SHOP).or_fail(&rt).or_fail(&rt);
    let printed = print(rt.alloc(), &answers, true).or_fail(&rt);
    assert_parts(printed.toml.as_str()).or_fail(&rt);
    let read = toml::table_from_str(rt.alloc(), printed.toml.as_str());
    assert_holds(read.is_ok(), "as text").or_fail(&rt);
}

/// What has just the tables and columns that are kept. Its first name has characters that SQL or a terminal
/// would obey.
const STATEMENT: &str =
    r#"CREATE PUBLICATION "it's_kept" FOR TABLE ONLY "public".U&"odd ""\\\000A" WHERE ((n > 5)), ONLY "public"."accounts" ("id", "email", "note") WITH (publish = 'insert, update', publish_via_partition_root = true);"#;

#[test]
fn a_publication_of_what_is_kept(rt: HostRuntime) {
    let answers = asked(rt.alloc(), &SHOP).or_fail(&rt).or_fail(&rt);
    let printed = print(rt.alloc(), &answers, false).or_fail(&rt);
    assert_same(printed.statement.as_deref(), Some(STATEMENT), "statement").or_fail(&rt);
}

/// A table's columns: the key, one that is kept only as text, one that is generated.
const ID: &str = r"1|1|id|23|b|0| |f|t|\N|integer";

const PRICE: &str = r"1|2|price|1700|b|0| |f|t|\N|numeric";

const TWICE: &str = r"1|3|twice|23|b|0| |t|t|(id * 2)|integer";

/// Its primary key, the same as replica identity, and an identity with the column that isn't kept.
const KEY: &str = "1|10|t_pkey|t|f|t|f|f|t|f|1";

const IDENTITY: &str = "1|10|t_pkey|t|t|t|f|f|t|f|1";

const WIDER: [&str; 3] = [
    KEY,
    "1|11|wide|f|t|t|f|f|t|f|1",
    "1|11|wide|f|t|t|f|f|t|f|2",
];

/// A publication of deletes and truncates, and tables by their replica identities.
const OTHER: &str = "p|f|f|f|t|t";

const BY_KEY: &str = r"1|s|t|d|\N";

const BY_ALL: &str = r"1|s|t|f|\N";

const BY_INDEX: &str = r"1|s|t|i|\N";

const FILTERED: &str = "1|s|t|d|(x = '\u{1b}')";

/// What a server says of a publication, and what one that fits has of its table.
static FITTED: [([&[&str]; 5], Option<&str>); 8] = [
    ([&["140000"], &[OTHER], &[BY_KEY], &[ID], &[KEY]], Some("")),
    (
        [&["140000"], &[OTHER], &[BY_ALL], &[ID, TWICE], &[KEY]],
        Some(""),
    ),
    (
        [&["140000"], &[OTHER], &[BY_KEY], &[ID, PRICE], &[KEY]],
        None,
    ),
    (
        [&["150000"], &[OTHER], &[BY_KEY], &[ID, PRICE], &[KEY]],
        Some(r#" ("id")"#),
    ),
    (
        [&["150000"], &[OTHER], &[BY_ALL], &[ID, PRICE], &[KEY]],
        None,
    ),
    (
        [
            &["150000"],
            &[OTHER],
            &[BY_INDEX],
            &[ID, PRICE],
            &[IDENTITY],
        ],
        Some(r#" ("id")"#),
    ),
    (
        [&["150000"], &[OTHER], &[BY_INDEX], &[ID, PRICE], &WIDER],
        None,
    ),
    ([&["150000"], &[OTHER], &[FILTERED], &[ID], &[KEY]], None),
];

/// The statement for these columns and filter of one table.
fn fitted(alloc: Global, entry: &str) -> Result<String, Fail> {
    Ok(format!(in alloc;
        "CREATE PUBLICATION \"p_kept\" FOR TABLE ONLY \"s\".\"t\"{entry} WITH (publish = 'delete, truncate', publish_via_partition_root = false);"
    )?)
}

/// Asserts that the statement is this one, or that there is none.
fn assert_fitted(
    alloc: Global,
    statement: Option<&str>,
    entry: Option<&str>,
    case: usize,
) -> Result<(), Fail> {
    match entry {
        Some(entry) => assert_same(statement, Some(fitted(alloc, entry)?.as_str()), case),
        None => assert_same(statement, None, case),
    }
}

/// Whether a note says that no publication fits.
fn is_named(notes: &[String]) -> bool {
    notes.iter().any(|note| note.as_str().find("CREATE PUBLICATION lacks it").is_some())
}

#[test]
fn a_table_that_no_publication_fits_is_named(rt: HostRuntime) {
    for (case, (answers, entry)) in FITTED.iter().enumerate() {
        let answers = asked(rt.alloc(), answers).or_fail(&rt).or_fail(&rt);
        let printed = print(rt.alloc(), &answers, false).or_fail(&rt);
        assert_fitted(rt.alloc(), printed.statement.as_deref(), *entry, case).or_fail(&rt);
        assert_same(is_named(printed.notes.as_slice()), entry.is_none(), case).or_fail(&rt);
    }
}

/// Defaults as a server prints them, and what each is.
static DEFAULTS: [(Kind, &str, &str); 20] = [
    (Kind::Int, "7", "Int(7)"),
    (Kind::Int, "'-7'::integer", "Int(-7)"),
    (Kind::Int, "(-7)", "Int(-7)"),
    (Kind::Int, "'7'::bigint", "Int(7)"),
    (Kind::Int, "NULL::integer", "Null"),
    (Kind::Int, "9223372036854775808", "Other"),
    (Kind::Int, "nextval('s'::regclass)", "Other"),
    (Kind::Int, "(1 + 2)", "Other"),
    (Kind::Bool, "true", "Bool(true)"),
    (Kind::Bool, "false", "Bool(false)"),
    (Kind::Bool, "'f'::boolean", "Bool(false)"),
    (Kind::Bool, "(NOT true)", "Other"),
    (Kind::Text, "'it''s'::text", "Text(\"it's\")"),
    (Kind::Text, "''::character varying", "Text(\"\")"),
    (Kind::Text, "''''''::text", "Text(\"''\")"),
    (Kind::Text, "'a'", "Text(\"a\")"),
    (Kind::Text, "'a'::text || 'b'::text", "Other"),
    (Kind::Text, "'a", "Other"),
    (Kind::Text, "CURRENT_USER", "Other"),
    (Kind::Text, "upper('x'::text)", "Other"),
];

#[test]
fn defaults_as_the_server_prints_them(rt: HostRuntime) {
    for (kind, expression, want) in &DEFAULTS {
        let read = read_default(rt.alloc(), *kind, *expression).or_fail(&rt);
        let text = format!(in rt.alloc(); "{read:?}").or_fail(&rt);
        assert_same(text.as_str(), *want, *expression).or_fail(&rt);
    }
}
