// What is kept of where each cell stands.
ghost use Rattle.std.specs.Prelude.{◌≡◌, ℕ, false, None};
ghost use Rattle.std.specs.HashMap as hash;
ghost use Rattle.std.specs.Ordering.{eq_by_cmp};
ghost use Rattle.model.specs.declared.cell.Cell.TheVariants.{Whole};
ghost use Rattle.model.specs.CellOrder.{cell_cmp};

use crate::Xid;
use crate::counts::Counts;
use crate::hashed::HashedCell;
use std::collections::HashMap;

/// Where a cell stands: whose it is, and where in the list of that transaction's cells.
#[derive(Clone, Copy, Debug)]
pub(crate) struct Address {
    pub(crate) xid: Xid,
    pub(crate) index: usize,
}

/// The address of each cell that is held, and how many each transaction holds in each table.
#[derive(Debug, Drop)]
pub(crate) struct Addresses {
    pub(crate) addresses: HashMap<HashedCell, Address>,
    pub(crate) counts: Counts,
    /// Whether a table as a whole was ever among them: until then nobody looks for one.
    pub(crate) had_whole: bool,
    ghost none_whole: { had_whole ≡ false → (table : ℕ) → hash.get (eq_by_cmp cell_cmp) addresses (Whole table) ≡ None },
}
