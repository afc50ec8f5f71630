// The types of columns, a file each: which texts of the publisher spell a value (PostgreSQL manual:
// Data Types), and how the report prints one. `specs/Types` says the same of each, and its order.
//
// A further type is a file here and one there, and a line in each definition of `specs/Types.antt`
// and each function over all types: `read_value` here, the order of values in `value_ref`.
ghost use Rattle.std.specs.Prelude.{◌≡◌};
ghost use Rattle.std.specs.Option.{option_map};
ghost use Rattle.model.specs.Types.{value_of};
ghost use Rattle.model.specs.ValueRef.{read_value as value_read};

pub mod boolean;
pub mod int;
pub mod text;

use crate::table_def::ColumnType;
use crate::value_ref::ValueRef;

/// The value of a column's type that a text spells, if it spells one. A text is lent.
pub fn read_value<'a>(kind: ColumnType, text: &'a str) -> Option<ValueRef<'a>>
    ensures { option_map value_read result ≡ value_of kind text.now }
{
    match kind {
        ColumnType::Int => Some(ValueRef::Int(int::read(text)?)),
        ColumnType::Text => Some(ValueRef::Text(text)),
        ColumnType::Bool => Some(ValueRef::Bool(boolean::read(text)?)),
    }
}
