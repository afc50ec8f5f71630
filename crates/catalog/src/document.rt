// Reads the fields of a TOML document into drafts of tables. Each reader answers none where a field
// is unknown, missing or of another kind, and fails for memory alone.
ghost use Rattle.std.specs.Prelude.{◌≡◌, [], IfOk, Option, map, option_map};
ghost use Rattle.std.specs.List.{list_any};
ghost use Rattle.std.specs.Str.{bytes_eq};
ghost use Rattle.toml.specs.Data.{Data as Item, get_member};
ghost use Rattle.toml.specs.View.{view, table_view};
ghost use Rattle.catalog.specs.Document.{array_of, column_of, default_of, has_only, is_name, key_of, name_of, optional, required, tables_of, fields_of, type_named, type_of};

use crate::draft::{ColumnDraft, DefaultDraft, KeyDraft, Listed, TableDraft};
use bytes::ByteStr;
use model::{ColumnType, KeptText, OutOfMemory, Value};
use std::alloc::Global;
use toml::{Table, Value as Data};

const COLUMN_FIELDS: [&str; 3] = ["name", "type", "default"];

const TABLE_FIELDS: [&str; 5] = ["namespace", "name", "primary", "unique", "column"];

/// The tables of a document.
#[tactic(auto, unfolding(crate::specs::Document::tables_of))]
pub(crate) fn read_tables(
    alloc: Global,
    document: &Table,
) -> Result<Option<Listed<TableDraft>>, OutOfMemory>
    ensures { IfOk result (λ ts. ts ≡ tables_of (table_view document.now)) }
{
    if !has_only(document, &["table"]) {
        return Ok(None);
    }
    read_optional(alloc, document, "table")
}

/// What an item of an array describes.
trait Described: Sized {
    ghost of: { Item → Option Self };

    /// What the item describes.
    fn read(alloc: Global, item: &Data) -> Result<Option<Self>, OutOfMemory>
        ensures { IfOk result (λ described. described ≡ of (view item.now)) };
}

/// An array, item by item.
fn read_array<T: Described + Drop>(
    alloc: Global,
    value: &Data,
) -> Result<Option<Listed<T>>, OutOfMemory>
    ensures { IfOk result (λ array. array ≡ array_of T.of (view value.now)) }
{
    let Some(items) = value.as_array() else {
        return Ok(None);
    };
    let mut array = Vec::new(alloc);
    for item in items {
        let Some(described) = T::read(alloc, item)? else {
            return Ok(None);
        };
        array.push(described)?;
    }
    Ok(Some(Listed { items: array }))
}

/// An array that may be missing, and then has no items.
fn read_optional<T: Described + Drop>(
    alloc: Global,
    fields: &Table,
    key: &str,
) -> Result<Option<Listed<T>>, OutOfMemory>
    ensures { IfOk result (λ array. array ≡ optional [] (array_of T.of) (get_member key.now (table_view fields.now))) }
{
    match member(fields, key) {
        None => Ok(Some(Listed {
            items: Vec::new(alloc),
        })),
        Some(value) => read_array(alloc, value),
    }
}

impl Described for TableDraft {
    ghost use Rattle.catalog.specs.Document.{table_of};

    ghost of = { table_of };

    #[tactic(auto, unfolding(crate::specs::Document::table_of, crate::specs::Document::table_in))]
    fn read(alloc: Global, item: &Data) -> Result<Option<TableDraft>, OutOfMemory> {
        let Some(fields) = fields_of(item, &TABLE_FIELDS) else {
            return Ok(None);
        };
        let Some(namespace) = read_name(alloc, fields, "namespace")? else {
            return Ok(None);
        };
        let Some(name) = read_name(alloc, fields, "name")? else {
            return Ok(None);
        };
        let Some(columns) = read_columns(alloc, fields, "column")? else {
            return Ok(None);
        };
        let Some(primary) = read_optional(alloc, fields, "primary")? else {
            return Ok(None);
        };
        let Some(uniques) = read_optional(alloc, fields, "unique")? else {
            return Ok(None);
        };
        Ok(Some(TableDraft {
            namespace,
            name,
            columns,
            primary,
            uniques,
        }))
    }
}

fn read_columns(
    alloc: Global,
    fields: &Table,
    key: &str,
) -> Result<Option<Listed<ColumnDraft>>, OutOfMemory>
    ensures { IfOk result (λ cs. cs ≡ required (array_of column_of) (get_member key.now (table_view fields.now))) }
{
    match member(fields, key) {
        None => Ok(None),
        Some(value) => read_array(alloc, value),
    }
}

impl Described for ColumnDraft {
    ghost use Rattle.catalog.specs.Document.{column_of};

    ghost of = { column_of };

    #[tactic(auto, unfolding(crate::specs::Document::column_of, crate::specs::Document::column_in))]
    fn read(alloc: Global, item: &Data) -> Result<Option<ColumnDraft>, OutOfMemory> {
        let Some(fields) = fields_of(item, &COLUMN_FIELDS) else {
            return Ok(None);
        };
        let Some(name) = read_name(alloc, fields, "name")? else {
            return Ok(None);
        };
        let Some(kind) = read_type(fields, "type") else {
            return Ok(None);
        };
        let default = read_default(alloc, fields, "default")?;
        Ok(Some(ColumnDraft {
            name,
            kind,
            default,
        }))
    }
}

fn read_type(fields: &Table, key: &str) -> Option<ColumnType>
    ensures { result ≡ required type_of (get_member key.now (table_view fields.now)) }
{
    type_named(member(fields, key)?.as_str()?)
}

fn type_named(text: &str) -> Option<ColumnType>
    ensures { result ≡ type_named text.now }
{
    match text {
        "int" => Some(ColumnType::Int),
        "text" => Some(ColumnType::Text),
        "bool" => Some(ColumnType::Bool),
        _ => None,
    }
}

fn read_default(alloc: Global, fields: &Table, key: &str) -> Result<DefaultDraft, OutOfMemory>
    ensures { IfOk result (λ d. d ≡ default_of (get_member key.now (table_view fields.now))) }
{
    let Some(value) = member(fields, key) else {
        return Ok(DefaultDraft::Missing);
    };
    match value {
        Data::Integer(number) => Ok(DefaultDraft::Given(Value::Int(*number))),
        Data::String(text) => Ok(DefaultDraft::Given(Value::Text(KeptText::from_str(
            alloc,
            text.as_str(),
        )?))),
        Data::Boolean(truth) => Ok(DefaultDraft::Given(Value::Bool(*truth))),
        _ => Ok(DefaultDraft::OtherKind),
    }
}

impl Described for KeyDraft {
    ghost use Rattle.catalog.specs.Document.{key_of};

    ghost of = { key_of };

    fn read(alloc: Global, item: &Data) -> Result<Option<KeyDraft>, OutOfMemory> {
        read_array(alloc, item)
    }
}

/// The name of a key's column.
impl Described for ByteStr {
    ghost use Rattle.toml.specs.Data.{as_str};

    ghost of = { as_str };

    fn read(alloc: Global, item: &Data) -> Result<Option<ByteStr>, OutOfMemory> {
        match item.as_str() {
            Some(name) => Ok(Some(ByteStr::copy_from_str(alloc, name)?)),
            None => Ok(None),
        }
    }
}

fn read_name(alloc: Global, fields: &Table, key: &str) -> Result<Option<ByteStr>, OutOfMemory>
    ensures { IfOk result (λ n. n ≡ required name_of (get_member key.now (table_view fields.now))) }
{
    let Some(value) = member(fields, key) else {
        return Ok(None);
    };
    match value.as_str() {
        Some(text) if is_name(text) => Ok(Some(ByteStr::copy_from_str(alloc, text)?)),
        _ => Ok(None),
    }
}

/// Whether a text may name a table or a column: it is not empty and has no zero byte.
fn is_name(text: &str) -> bool
    ensures { result ≡ is_name text.now }
{
    !text.is_empty() && !text.as_bytes().contains(&0)
}

/// The members of a table that has no other keys than these.
fn fields_of<'a>(value: &'a Data, keys: &[&str]) -> Option<&'a Table>
    ensures { option_map (λ t. table_view t.now) result
        ≡ fields_of (map (λ k. k.now) keys.now) (view value.now) }
{
    let table = value.as_table()?;
    if has_only(table, keys) {
        Some(table)
    } else {
        None
    }
}

/// Whether the table has no other keys than these.
fn has_only(table: &Table, keys: &[&str]) -> bool
    ensures { result ≡ has_only (map (λ k. k.now) keys.now) (table_view table.now) }
{
    for key in table.keys() {
        if !is_among(key.as_str(), keys) {
            return false;
        }
    }
    true
}

/// Whether a text is one of these.
fn is_among(text: &str, texts: &[&str]) -> bool
    ensures { result ≡ list_any (bytes_eq text.now) (map (λ t. t.now) texts.now) }
{
    for other in texts {
        if text == *other {
            return true;
        }
    }
    false
}

/// The value at a key.
fn member<'a>(table: &'a Table, key: &str) -> Option<&'a Data>
    ensures { option_map (λ v. view v.now) result ≡ get_member key.now (table_view table.now) }
{
    table.get(key)
}
