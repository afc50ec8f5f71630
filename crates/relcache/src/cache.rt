// The relations that were learnt.

ghost use Rattle.std.specs.Prelude.{◌≡◌, [], OnOk, OnErr, IfOk, IfErr};
ghost use Rattle.std.specs.Arc.{arc_value};
ghost use Rattle.relcache.specs.declared.fault.RelFault.TheVariants.{OutOfMemory};

use crate::fault::RelFault;
use crate::mapping::Mapping;
use crate::published::Published;
use crate::resolve::map_relation;
use catalog::Catalog;
use indexmap::IndexMap;
use messages::{Oid, Relation};
use model::TableDef;
use std::alloc::Global;
use std::marker::Model;
use std::sync::Arc;

/// What was last said of each OID, in the order in which the OIDs first came.
///
/// A clause sees the list of these.
#[derive(Debug, Drop)]
pub struct RelCache {
    alloc: Global,
    relations: IndexMap<Oid, Published>,
}

impl Model for RelCache {
    ghost use Rattle.relcache.specs.Published.{Relations};

    ghost Value = { Relations };

    ghost view = { λ c. c.relations.entries };
}

impl RelCache {
    ghost use Rattle.relcache.specs.Answer.{Answers, IsFaultOf};
    ghost use Rattle.relcache.specs.Fits.{FitsCatalog};
    ghost use Rattle.relcache.specs.Mapping.{resolved};
    ghost use Rattle.relcache.specs.Published.{learnt};

    /// A cache that has learnt nothing yet.
    pub fn new(alloc: Global) -> RelCache
        ensures { result ≡ [] }
    {
        RelCache {
            alloc,
            relations: IndexMap::new(alloc),
        }
    }

    /// Learns a relation. It takes the place of the one that its OID named before.
    ///
    /// Nothing is wrong with a relation until a change uses it, so the only fault is that memory was
    /// refused, and then the cache is as it was. (PostgreSQL manual: Logical Replication Message
    /// Formats, Relation.)
    pub fn learn(&mut self, r: &Relation) -> Result<(), RelFault>
        ensures learnt { OnOk result (self.new ≡ learnt self.old r.now) }
        ensures refused { IfErr result (λ fault. fault ≡ OutOfMemory) }
        ensures unchanged { OnErr result (self.new ≡ self.old) }
    {
        let said = Published::of(self.alloc, r)?;
        self.relations.insert(r.oid, said)?;
        Ok(())
    }

    /// The mapping of the relation that was last learnt for this OID to the subscriber's table of the
    /// same namespace and name; an empty namespace means `pg_catalog`.
    ///
    /// Columns are matched by name, in any order. The first of these faults is answered:
    /// UnknownRelation, where no relation was learnt for the OID; TableMissing, where there is no such
    /// table; ColumnMissing, where a published column is not in it; ColumnCount, where the relation
    /// names a column twice. OutOfMemory may stand in place of any answer. (PostgreSQL manual: Logical
    /// Replication, Subscription.)
    pub fn resolve(&self, alloc: Global, cat: &Catalog, oid: Oid) -> Result<Arc<Mapping>, RelFault>
        ensures mapping { IfOk result (λ m. resolved cat.now self.now oid ≡ Ok (arc_value m)) }
        ensures fault { IfErr result (IsFaultOf (resolved cat.now self.now oid)) }
        ensures fits { IfOk result (λ m. FitsCatalog cat.now (arc_value m)) }
    {
        let mapping = self.mapping_of(alloc, cat.tables(), oid)?;
        Ok(Arc::new(alloc, mapping)?)
    }

    fn mapping_of(&self, alloc: Global, tables: &[TableDef], oid: Oid) -> Result<Mapping, RelFault>
        ensures { Answers result (resolved tables.now self.now oid) }
    {
        match self.relations.get(&oid) {
            Some(r) => map_relation(alloc, r, tables),
            None => Err(RelFault::UnknownRelation),
        }
    }
}
