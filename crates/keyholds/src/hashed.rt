// Cells with their hashes, as the map of addresses keeps them and is asked for them.
//
// A map of hashes finds a cell by reading a few of its places, however many it keeps. The hash lies
// beside the cell, so that the map grows without making it anew.
ghost use Rattle.std.specs.Prelude.{◌≡◌};
ghost use Rattle.model.specs.Hashing.{hash_cell};

use crate::sought::SoughtCell;
use model::Cell;
use std::alloc::AllocError;
use std::collections::hash_map::Equivalent;
use std::hash::{Hash, Hasher};
use std::marker::Model;

/// A cell that is kept, with its hash. A clause sees the cell.
#[derive(Debug, Drop)]
pub(crate) struct HashedCell {
    hash: u64,
    cell: Cell,
}

impl Model for HashedCell {
    ghost use Rattle.std.specs.Prelude.{◌≡◌};
    ghost use Rattle.model.specs.declared.cell.Cell.{Cell};
    ghost use Rattle.model.specs.contracts.cell.Cell as cell_type;
    ghost use Rattle.model.specs.Hashing.{hash_cell};

    ghost Value = { Cell };

    ghost coded = { cell_type.the_row.coded };

    ghost view = { λ c. c.cell };

    ghost invariant = { λ c. c.hash ≡ hash_cell c.cell };
}

impl HashedCell {
    /// This cell.
    pub(crate) fn of(cell: Cell) -> HashedCell
        ensures { result ≡ cell }
    {
        HashedCell {
            hash: cell.hash(),
            cell,
        }
    }
}

impl PartialEq for HashedCell {
    ghost use Rattle.std.specs.Ordering.{eq_by_cmp};
    ghost use Rattle.std.specs.Cmp.{partial_equiv_from_equiv, eq_by_cmp_equiv};
    ghost use Rattle.model.specs.CellOrder.{cell_cmp, cell_cmp_total};

    ghost eq = { eq_by_cmp cell_cmp };

    ghost laws = { partial_equiv_from_equiv (eq_by_cmp_equiv cell_cmp_total) };

    fn eq(&self, other: &HashedCell) -> bool {
        self.cell.cmp(&other.cell).is_eq()
    }
}

impl Eq for HashedCell {
    ghost use Rattle.std.specs.Cmp.{eq_by_cmp_equiv};
    ghost use Rattle.model.specs.CellOrder.{cell_cmp_total};

    ghost laws = { eq_by_cmp_equiv cell_cmp_total };
}

impl Hash for HashedCell {
    ghost use Rattle.keyholds.specs.Hashed.{cell_writes, same_writes};

    ghost hash_input = { cell_writes };

    ghost respects_eq = { same_writes };

    fn hash<S: Hasher>(&self, state: &mut S) {
        self.hash.hash(state);
    }
}

/// A cell that is looked for.
pub(crate) struct Asked<'a, C: SoughtCell> {
    hash: u64,
    pub(crate) sought: &'a C,
    ghost hashed: { hash ≡ hash_cell (C.cell sought.now) },
}

impl<'a, C: SoughtCell> Asked<'a, C> {
    /// This cell.
    pub(crate) fn of(sought: &'a C) -> Asked<'a, C>
        ensures { result.sought.now ≡ sought.now }
    {
        Asked {
            hash: sought.hash(),
            sought,
        }
    }
}

impl<'a, C: SoughtCell> Clone for Asked<'a, C> {
    ghost is_clone = { λ q other. other ≡ q };

    fn clone(&self) -> Result<Asked<'a, C>, AllocError> {
        Ok(*self)
    }
}

impl<'a, C: SoughtCell> Copy for Asked<'a, C> {}

// Cells that are looked for are only compared with those that are kept; among themselves they are
// told apart by their hashes.
impl<'a, C: SoughtCell> PartialEq for Asked<'a, C> {
    ghost use Rattle.std.specs.Prelude.{◌==◌};
    ghost use Rattle.std.specs.Cmp.{partial_equiv_from_equiv, on_equiv, nat_eq_equiv};

    ghost eq = { λ x y. x.hash == y.hash };

    ghost laws = { partial_equiv_from_equiv (on_equiv (λ x. x.hash) nat_eq_equiv) };

    fn eq(&self, other: &Asked<'a, C>) -> bool {
        self.hash == other.hash
    }
}

impl<'a, C: SoughtCell> Eq for Asked<'a, C> {
    ghost use Rattle.std.specs.Cmp.{on_equiv, nat_eq_equiv};

    ghost laws = { on_equiv (λ x. x.hash) nat_eq_equiv };
}

impl<'a, C: SoughtCell> Hash for Asked<'a, C> {
    ghost use Rattle.keyholds.specs.Hashed.{hash_writes, same_hashes};

    ghost hash_input = { λ q. hash_writes q.hash };

    ghost respects_eq = { λ x y. same_hashes x.hash y.hash };

    fn hash<S: Hasher>(&self, state: &mut S) {
        self.hash.hash(state);
    }
}

impl<'a, C: SoughtCell> Equivalent<HashedCell> for Asked<'a, C> {
    ghost use Rattle.std.specs.Ordering.{eq_by_cmp};
    ghost use Rattle.std.specs.Cmp.{eq_by_cmp_equiv};
    ghost use Rattle.model.specs.CellOrder.{cell_cmp, cell_cmp_total};
    ghost use Rattle.keyholds.specs.Hashed.{asked_writes};

    ghost equivalent = { λ q k. eq_by_cmp cell_cmp (C.cell q.sought.now) k };

    ghost respects_hash = { λ q. asked_writes q.hash (C.cell q.sought.now) q.hashed };

    ghost respects_eq = { λ q. (eq_by_cmp_equiv cell_cmp_total).congr (C.cell q.sought.now) };

    fn equivalent(&self, key: &HashedCell) -> bool {
        self.hash == key.hash && self.sought.compare(&key.cell).is_eq()
    }
}
