// Why a text is no catalog.
ghost use Rattle.std.specs.Prelude.{◌≡◌};

use model::OutOfMemory;
use thiserror::Error;

/// Why a text is no catalog. Where several of these apply, the first of them is answered.
#[derive(Clone, Copy, Debug, PartialEq, Eq, Error)]
pub enum CatalogFault {
    /// The text is no TOML document.
    #[error("the text is no TOML document")]
    NotToml,
    /// A field is unknown, missing or of another kind, a column's type is none of the three, or a
    /// name is empty or has a zero byte.
    #[error("a field is unknown, missing or of another kind")]
    UnknownField,
    /// Two tables have the same namespace and name.
    #[error("two tables have one name")]
    DuplicateTable,
    /// Two columns of a table have the same name.
    #[error("two columns of a table have one name")]
    DuplicateColumn,
    /// A table's primary key is missing or empty.
    #[error("a table has no primary key")]
    NoPrimaryKey,
    /// A key names a column that its table hasn't, or names one twice, or a unique key is empty.
    #[error("a key names a column that is not there, or one twice")]
    KeyColumnUnknown,
    /// A column's default is not of the column's type.
    #[error("a default is not of its column's type")]
    BadDefault,
    /// There are more than 1024 tables, 1600 columns in a table, or 16 unique keys of a table.
    #[error("a limit on tables, columns or unique keys is passed")]
    OverLimit,
    /// The system had no memory for the catalog. It may come in place of any other answer.
    #[error("out of memory")]
    OutOfMemory,
}

impl From<OutOfMemory> for CatalogFault {
    ghost use Rattle.std.specs.Prelude.{◌≡◌};
    ghost use Rattle.catalog.specs.declared.fault.CatalogFault.TheVariants.{OutOfMemory};

    ghost from_gives = { λ _ e. e ≡ OutOfMemory };

    fn from(_e: OutOfMemory) -> CatalogFault {
        CatalogFault::OutOfMemory
    }
}
