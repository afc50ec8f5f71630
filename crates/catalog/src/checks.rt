// Looks for what is wrong with the tables of a document, fault by fault in the order of their
// numbers, each over all tables.
ghost use Rattle.std.specs.Prelude.{◌≡◌, Bool};
ghost use Rattle.std.specs.List.{list_any, list_all};
ghost use Rattle.catalog.specs.Faults.{are_over_limit, first_fault, has_bad_default, has_column, has_unknown_key, is_bad_default, is_of_type, is_over_limit, is_unknown_unique, lacks_primary, names_columns, repeats, repeats_column};

use crate::draft::{ColumnDraft, DefaultDraft, KeyDraft, TableDraft};
use crate::fault::CatalogFault;
use bytes::ByteStr;
use model::{ColumnType, Value};

const MAX_TABLES: usize = 1024;

const MAX_COLUMNS: usize = 1600;

const MAX_UNIQUES: usize = 16;

/// The least fault that applies to the tables, if one does.
#[tactic(auto, unfolding(crate::specs::Faults::first_fault))]
pub(crate) fn first_fault(tables: &[TableDraft]) -> Option<CatalogFault>
    ensures { result ≡ first_fault tables.now }
{
    if repeats(tables) {
        return Some(CatalogFault::DuplicateTable);
    }
    if some_repeats_column(tables) {
        return Some(CatalogFault::DuplicateColumn);
    }
    if some_lacks_primary(tables) {
        return Some(CatalogFault::NoPrimaryKey);
    }
    if some_has_unknown_key(tables) {
        return Some(CatalogFault::KeyColumnUnknown);
    }
    if some_has_bad_default(tables) {
        return Some(CatalogFault::BadDefault);
    }
    if are_over_limit(tables) {
        return Some(CatalogFault::OverLimit);
    }
    None
}

fn some_repeats_column(tables: &[TableDraft]) -> bool
    ensures { result ≡ list_any repeats_column tables.now }
{
    tables
        .iter()
        .any(|table| repeats(table.columns.items.as_slice()))
}

fn some_lacks_primary(tables: &[TableDraft]) -> bool
    ensures { result ≡ list_any lacks_primary tables.now }
{
    tables.iter().any(|table| table.primary.items.is_empty())
}

fn some_has_unknown_key(tables: &[TableDraft]) -> bool
    ensures { result ≡ list_any has_unknown_key tables.now }
{
    tables.iter().any(has_unknown_key)
}

fn has_unknown_key(table: &TableDraft) -> bool
    ensures { result ≡ has_unknown_key table.now }
{
    let columns = table.columns.items.as_slice();
    !names_columns(columns, &table.primary)
        || has_unknown_unique(columns, table.uniques.items.as_slice())
}

fn has_unknown_unique(columns: &[ColumnDraft], keys: &[KeyDraft]) -> bool
    ensures { result ≡ list_any (is_unknown_unique columns.now) keys.now }
{
    keys.iter().any(|key| is_unknown_unique(columns, key))
}

fn is_unknown_unique(columns: &[ColumnDraft], key: &KeyDraft) -> bool
    ensures { result ≡ is_unknown_unique columns.now key.now }
{
    key.items.is_empty() || !names_columns(columns, key)
}

/// Whether the names of a key are those of columns, and none stands twice.
fn names_columns(columns: &[ColumnDraft], key: &KeyDraft) -> bool
    ensures { result ≡ names_columns columns.now key.now }
{
    let names = key.items.as_slice();
    are_columns(columns, names) && !repeats(names)
}

fn are_columns(columns: &[ColumnDraft], names: &[ByteStr]) -> bool
    ensures { result ≡ list_all (has_column columns.now) names.now }
{
    names.iter().all(|name| has_column(columns, name))
}

fn has_column(columns: &[ColumnDraft], name: &ByteStr) -> bool
    ensures { result ≡ has_column columns.now name.now }
{
    columns.iter().any(|column| *name == column.name)
}

fn some_has_bad_default(tables: &[TableDraft]) -> bool
    ensures { result ≡ list_any has_bad_default tables.now }
{
    tables.iter().any(has_bad_default)
}

fn has_bad_default(table: &TableDraft) -> bool
    ensures { result ≡ has_bad_default table.now }
{
    table.columns.items.iter().any(is_bad_default)
}

/// Whether a default is given that is no value of the column's type.
fn is_bad_default(column: &ColumnDraft) -> bool
    ensures { result ≡ is_bad_default column.now }
{
    match &column.default {
        DefaultDraft::Missing => false,
        DefaultDraft::Given(value) => !is_of_type(column.kind, value),
        DefaultDraft::OtherKind => true,
    }
}

fn is_of_type(kind: ColumnType, value: &Value) -> bool
    ensures { result ≡ is_of_type kind value.now }
{
    match (kind, value) {
        (ColumnType::Int, Value::Int(_)) => true,
        (ColumnType::Text, Value::Text(_)) => true,
        (ColumnType::Bool, Value::Bool(_)) => true,
        _ => false,
    }
}

fn are_over_limit(tables: &[TableDraft]) -> bool
    ensures { result ≡ are_over_limit tables.now }
{
    tables.len() > MAX_TABLES || some_is_over_limit(tables)
}

fn some_is_over_limit(tables: &[TableDraft]) -> bool
    ensures { result ≡ list_any is_over_limit tables.now }
{
    tables.iter().any(is_over_limit)
}

fn is_over_limit(table: &TableDraft) -> bool
    ensures { result ≡ is_over_limit table.now }
{
    table.columns.items.len() > MAX_COLUMNS || table.uniques.items.len() > MAX_UNIQUES
}

/// What is told apart by its name.
trait Named {
    ghost same: { Self → Self → Bool };

    fn has_name_of(&self, other: &Self) -> bool
        ensures { result ≡ same self.now other.now };
}

impl Named for TableDraft {
    ghost use Rattle.catalog.specs.Faults.{same_table};

    ghost same = { same_table };

    fn has_name_of(&self, other: &TableDraft) -> bool {
        self.namespace == other.namespace && self.name == other.name
    }
}

impl Named for ColumnDraft {
    ghost use Rattle.catalog.specs.Faults.{same_column};

    ghost same = { same_column };

    fn has_name_of(&self, other: &ColumnDraft) -> bool {
        self.name == other.name
    }
}

impl Named for ByteStr {
    ghost use Rattle.std.specs.Str.{bytes_eq};

    ghost same = { bytes_eq };

    fn has_name_of(&self, other: &ByteStr) -> bool {
        *self == *other
    }
}

/// Whether one of the items has the name of a later one.
fn repeats<T: Named>(items: &[T]) -> bool
    ensures { result ≡ repeats T.same items.now }
{
    let mut rest = items;
    while let Some((first, others)) = rest.split_first() {
        if is_named_among(first, others) {
            return true;
        }
        rest = others;
    }
    false
}

/// Whether one of the others has the item's name.
fn is_named_among<T: Named>(item: &T, others: &[T]) -> bool
    ensures { result ≡ list_any (T.same item.now) others.now }
{
    for other in others {
        if item.has_name_of(other) {
            return true;
        }
    }
    false
}
