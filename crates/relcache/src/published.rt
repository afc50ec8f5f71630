// What a relation says, as far as it counts.

ghost use Rattle.std.specs.Prelude.{◌≡◌, ◌++◌, map, take, IfOk};
ghost use Rattle.relcache.specs.Published.{published_column};

use bytes::ByteStr;
use messages::{Relation, RelationColumn};
use std::alloc::{AllocError, Global};
use std::marker::Model;

/// A published column: its name, and whether the relation flags it as a key column.
#[derive(Debug, Drop)]
pub struct PublishedColumn {
    pub name: ByteStr,
    pub is_key: bool,
}

/// The names of a relation, and its columns in the publisher's order. A clause sees it as the record
/// of `specs/Published`.
#[derive(Debug, Drop)]
pub struct Published {
    pub namespace: ByteStr,
    pub name: ByteStr,
    pub columns: Vec<PublishedColumn>,
}

impl Model for Published {
    ghost use Rattle.relcache.specs.Published.{Published};

    ghost Value = { Published };

    ghost view = { λ p. record {
      namespace = p.namespace;
      name = p.name;
      columns = p.columns.items;
    } };
}

impl Published {
    ghost use Rattle.relcache.specs.Published.{published};

    /// What the relation says. Its names are shared, not copied.
    pub fn of(alloc: Global, r: &Relation) -> Result<Published, AllocError>
        ensures { IfOk result (λ p. p ≡ published r.now) }
    {
        let sent = r.columns.as_slice();
        let mut columns = Vec::with_capacity(alloc, sent.len())?;
        for column in sent {
            columns.push(published_column(column)?)?;
        }
        Ok(Published {
            namespace: r.namespace.as_byte_str().clone()?,
            name: r.name.as_byte_str().clone()?,
            columns,
        })
    }
}

/// What the relation says of a column.
fn published_column(column: &RelationColumn) -> Result<PublishedColumn, AllocError>
    ensures { IfOk result (λ p. p ≡ published_column column.now) }
{
    Ok(PublishedColumn {
        name: column.name.as_byte_str().clone()?,
        is_key: column.is_key,
    })
}
