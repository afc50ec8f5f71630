// The catalog, as it is read from a text.
ghost use Rattle.std.specs.Prelude.{◌≡◌, ◌≢◌, IfOk, IfErr, Ok, Err};
ghost use Rattle.catalog.specs.declared.fault.CatalogFault.TheVariants.{OutOfMemory};

use crate::checks::first_fault;
use crate::definitions::define_tables;
use crate::document::read_tables;
use crate::fault::CatalogFault;
use model::TableDef;
use std::alloc::Global;
use std::marker::Model;

/// The tables that the subscriber has. A clause sees the list of their definitions, and they are
/// valid: no name is empty or has a zero byte, no table or column stands twice, each key has
/// columns of its table, each once, each default is null or of its column's type, and there are at
/// most 1024 tables, 1600 columns in a table and 16 unique keys of a table.
#[derive(Debug, Drop)]
pub struct Catalog {
    tables: Vec<TableDef>,
}

impl Model for Catalog {
    ghost use Rattle.catalog.specs.Valid.{Definitions, IsValid};

    ghost Value = { Definitions };

    ghost view = { λ c. c.tables.items };

    ghost invariant = { λ c. IsValid c.tables.items };
}

impl Catalog {
    ghost use Rattle.catalog.specs.Catalog.{catalog_of};
    ghost use Rattle.catalog.specs.Valid.{IsValid};

    /// Reads a catalog from a TOML document.
    ///
    /// The document has an array of tables `table`, and nothing else; without it there are no
    /// tables. Each table has `namespace` and `name`, strings; `primary`, an array of column names;
    /// `unique`, an array of such arrays, which may be missing; and `column`, an array of tables
    /// with `name`, `type`, which is `"int"`, `"text"` or `"bool"`, and `default` or none.
    ///
    /// Where several faults apply, the first in the order of `CatalogFault` is answered, wherever
    /// in the document they stand.
    pub fn read(alloc: Global, text: &str) -> Result<Catalog, CatalogFault>
        ensures catalog { IfOk result (λ c. catalog_of text.now ≡ Ok c) }
        ensures valid { IfOk result IsValid }
        ensures fault { IfErr result (λ e. e ≢ OutOfMemory → catalog_of text.now ≡ Err e) }
    {
        let document = match toml::table_from_str(alloc, text) {
            Ok(document) => document,
            Err(e) if e.is_memory() => return Err(CatalogFault::OutOfMemory),
            Err(_) => return Err(CatalogFault::NotToml),
        };
        let Some(drafts) = read_tables(alloc, &document)? else {
            return Err(CatalogFault::UnknownField);
        };
        if let Some(fault) = first_fault(drafts.items.as_slice()) {
            return Err(fault);
        }
        let tables = define_tables(alloc, drafts.items.as_slice())?;
        Ok(Catalog { tables })
    }

    /// The definitions of its tables, in the order of the text. A table's place here is its
    /// `TableId`.
    pub fn tables(&self) -> &[TableDef]
        ensures value { result.now ≡ self.now }
        ensures valid { IsValid self.now }
    {
        self.tables.as_slice()
    }
}
