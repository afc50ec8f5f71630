//! What messages say of the publisher's relations and types.

ghost use Rattle.std.specs.Prelude.{◌≡◌, ◌^◌, ◌<◌, length};

use crate::message::{Oid, Xid};
use crate::text::Name;
use std::marker::Model;

/// 'R': how a relation of the publisher looks from here on.
#[derive(Debug, Drop)]
pub struct Relation {
    pub oid: Oid,
    /// Empty for `pg_catalog`.
    pub namespace: Name,
    pub name: Name,
    pub identity: ReplicaIdentity,
    pub columns: Columns,
}

/// Which old rows updates and deletes send.
#[derive(Clone, Copy, Debug, PartialEq, Eq)]
pub enum ReplicaIdentity {
    /// 'd': the primary key.
    Default,
    /// 'n': none.
    Nothing,
    /// 'f': all columns.
    Full,
    /// 'i': the columns of an index.
    Index,
}

/// A published column.
#[derive(Debug, Drop)]
pub struct RelationColumn {
    /// The column is part of the replica identity.
    pub is_key: bool,
    pub name: Name,
    pub type_oid: Oid,
    pub type_modifier: i32,
}

/// The published columns of a relation, few enough for their signed 16 bit count. A clause sees the list
/// of them.
#[derive(Debug, Drop)]
pub struct Columns {
    columns: Vec<RelationColumn>,
}

impl Model for Columns {
    ghost use Rattle.std.specs.Prelude.{List, ◌^◌, ◌<◌, length};
    ghost use Rattle.messages.specs.declared.relation.RelationColumn.{RelationColumn};

    ghost Value = { List RelationColumn };

    ghost view = { λ c. c.columns.items };

    ghost invariant = { λ c. length c.columns.items < 2 ^ 15 };
}

impl Columns {
    /// The columns of one relation.
    pub fn new(columns: Vec<RelationColumn>) -> Columns
        requires { length columns.items < 2 ^ 15 }
        ensures { result ≡ columns.items }
    {
        Columns { columns }
    }

    /// The columns, in the publisher's order.
    pub fn as_slice(&self) -> &[RelationColumn]
        ensures value { result.now ≡ self.now }
        ensures bound { length self.now < 2 ^ 15 }
    {
        self.columns.as_slice()
    }
}

/// 'Y': the name of a type that a relation's column has.
#[derive(Debug, Drop)]
pub struct TypeName {
    pub xid: Option<Xid>,
    pub oid: Oid,
    /// Empty for `pg_catalog`.
    pub namespace: Name,
    pub name: Name,
}

/// 'T': all rows of some relations are removed.
#[derive(Debug, Drop)]
pub struct Truncate {
    pub xid: Option<Xid>,
    pub options: TruncateOptions,
    pub relations: Relations,
}

/// The option bits of a truncate.
#[derive(Clone, Copy, Debug, PartialEq, Eq)]
pub struct TruncateOptions {
    pub cascade: bool,
    pub restart_identity: bool,
}

/// The relations of a truncate, few enough for their signed 32 bit count. A clause sees the list of them.
#[derive(Debug, Drop)]
pub struct Relations {
    oids: Vec<Oid>,
}

impl Model for Relations {
    ghost use Rattle.std.specs.Prelude.{ℕ, List, ◌^◌, ◌<◌, length};

    ghost Value = { List ℕ };

    ghost view = { λ r. r.oids.items };

    ghost invariant = { λ r. length r.oids.items < 2 ^ 31 };
}

impl Relations {
    /// The relations of one truncate.
    pub fn new(oids: Vec<Oid>) -> Relations
        requires { length oids.items < 2 ^ 31 }
        ensures { result ≡ oids.items }
    {
        Relations { oids }
    }

    /// The relations, in the order in which they were sent.
    pub fn as_slice(&self) -> &[Oid]
        ensures value { result.now ≡ self.now }
        ensures bound { length self.now < 2 ^ 31 }
    {
        self.oids.as_slice()
    }
}
