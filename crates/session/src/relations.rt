// The relations that were learnt, and what they map to.
use catalog::Catalog;
use messages::{Oid, Relation, RowMessage};
use model::{Change, TableId, TableIds};
use relcache::{Mapping, RelCache, RelFault, plan};
use std::alloc::Global;
use std::collections::BTreeMap;
use std::sync::Arc;

/// The relations that were learnt, with the mapping of each that a change has used since.
///
/// A relation is mapped once, at its first use, so that a row takes no look-up by name.
#[derive(Debug, Drop)]
pub struct KnownRelations {
    alloc: Global,
    learnt: RelCache,
    mappings: BTreeMap<Oid, Arc<Mapping>>,
}

impl KnownRelations {
    ghost use Rattle.std.specs.Prelude.{◌≡◌, []};
    ghost use Rattle.relcache.specs.Published.{Relations, learnt as with_learnt};
    ghost use Rattle.session.specs.State.{Setting, State};
    ghost use Rattle.session.specs.Table.{row_change, truncate_change};
    ghost use Rattle.session.specs.KnownRelations.{Represents, IsLearnt, IsTableFound, IsPlanned};

    /// None yet. It takes no memory.
    pub(crate) fn new(alloc: Global) -> KnownRelations
        ensures { (g : Setting) → Represents g result [] }
    {
        KnownRelations {
            alloc,
            learnt: RelCache::new(alloc),
            mappings: BTreeMap::new(alloc),
        }
    }

    /// Learns a relation, in the place of the one that its OID named before. Refused for memory, it
    /// changes nothing.
    pub(crate) fn learn(&mut self, relation: &Relation) -> Result<(), RelFault>
        ensures { (g : Setting) (relations : Relations) → Represents g self.old relations
            → IsLearnt g self.new relations (with_learnt relations relation.now) result }
    {
        self.learnt.learn(relation)?;
        self.mappings.remove(&relation.oid);
        Ok(())
    }

    /// The change of a row message of this relation.
    pub(crate) fn plan(
        &mut self,
        catalog: &Catalog,
        oid: Oid,
        row: &RowMessage,
    ) -> Result<Change, RelFault>
        ensures { (g : Setting) (h : State) → g.catalog ≡ catalog.now → Represents g self.old h.relations
            → IsPlanned g self.new h.relations (row_change g h oid row.now) result }
    {
        if let Some(mapping) = self.mappings.get(&oid) {
            return plan(self.alloc, mapping, row);
        }
        let mapping = self.learnt.resolve(self.alloc, catalog, oid)?;
        let change = plan(self.alloc, &mapping, row)?;
        self.mappings.insert(oid, mapping)?;
        Ok(change)
    }

    /// The change of a truncate of these relations.
    pub(crate) fn wipe(&mut self, catalog: &Catalog, oids: &[Oid]) -> Result<Change, RelFault>
        ensures { (g : Setting) (h : State) → g.catalog ≡ catalog.now → Represents g self.old h.relations
            → IsPlanned g self.new h.relations (truncate_change g h oids.now) result }
    {
        let mut tables = Vec::new(self.alloc);
        for oid in oids {
            tables.push(self.table(catalog, *oid)?)?;
        }
        Ok(Change::Wipe {
            tables: TableIds::from_ids(tables),
        })
    }

    /// The table of a relation.
    fn table(&mut self, catalog: &Catalog, oid: Oid) -> Result<TableId, RelFault>
        ensures { (g : Setting) (relations : Relations) → g.catalog ≡ catalog.now → Represents g self.old relations
            → IsTableFound g self.new relations oid result }
    {
        if let Some(mapping) = self.mappings.get(&oid) {
            return Ok(mapping.table());
        }
        let mapping = self.learnt.resolve(self.alloc, catalog, oid)?;
        let table = mapping.table();
        self.mappings.insert(oid, mapping)?;
        Ok(table)
    }
}
