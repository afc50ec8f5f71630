// What an entry of an index keeps: a row, in which its values lie.
//
// The row and the numbers of the key's columns are shared with all that hold them, so an entry is
// made without a copy of a value, whatever the values are. It keeps a row with these values alive,
// and not always the one that stands there: an entry that is there already stays as it is when a
// later row with the same values comes.
ghost use Rattle.std.specs.Prelude.{◌≡◌, IfOk};
ghost use Rattle.model.specs.Rows.{values_in};

use crate::columns::{compare_key, has_values};
use crate::sought::{Sought, compare_rows, hash_row};
use model::{Key, OutOfMemory, Row};
use std::alloc::{AllocError, Global};
use std::collections::hash_map::Equivalent;
use std::hash::{Hash, Hasher};
use std::marker::Model;
use std::sync::ArcSlice;

/// Column numbers of a unique key, in the key's order. A clause sees the list of them.
///
/// Copies share the numbers.
#[derive(Debug, Drop)]
pub(crate) struct SharedColumns {
    numbers: ArcSlice<usize>,
}

impl Model for SharedColumns {
    ghost use Rattle.std.specs.Prelude.{ℕ, List};
    ghost use Rattle.std.specs.Arc.{arc_slice_items};

    ghost Value = { List ℕ };

    ghost view = { λ c. arc_slice_items c.numbers };
}

impl SharedColumns {
    /// These columns.
    pub(crate) fn of(alloc: Global, numbers: &[usize]) -> Result<SharedColumns, OutOfMemory>
        ensures { IfOk result (λ columns. columns ≡ numbers.now) }
    {
        Ok(SharedColumns {
            numbers: ArcSlice::from_slice(alloc, numbers)?,
        })
    }

    /// Their numbers, from 0, in the key's order.
    pub(crate) fn as_slice(&self) -> &[usize]
        ensures { result.now ≡ self.now }
    {
        self.numbers.as_slice()
    }
}

impl Clone for SharedColumns {
    ghost is_clone = { λ columns other. other ≡ columns };

    fn clone(&self) -> Result<SharedColumns, AllocError> {
        Ok(SharedColumns {
            numbers: self.numbers.clone()?,
        })
    }
}

/// The values that a row has in the columns of a unique key, those that aren't null. A clause sees
/// the list of them.
#[derive(Debug, Drop)]
pub(crate) struct KeptValues {
    columns: SharedColumns,
    row: Row,
}

impl Model for KeptValues {
    ghost use Rattle.model.specs.declared.key.Key.{Key};
    ghost use Rattle.rows.specs.KeptCode.{key_code};
    ghost use Rattle.indexes.specs.Columns.{present};

    ghost Value = { Key };

    ghost coded = { key_code };

    ghost view = { λ k. present k.columns k.row };
}

impl KeptValues {
    /// A row's values in these columns; none if one of them is null.
    pub(crate) fn from_row(
        columns: &SharedColumns,
        row: &Row,
    ) -> Result<Option<KeptValues>, OutOfMemory>
        ensures { IfOk result (λ values. values ≡ values_in columns.now row.now) }
    {
        if !has_values(columns.as_slice(), row) {
            return Ok(None);
        }
        Ok(Some(KeptValues {
            columns: columns.clone()?,
            row: row.copy()?,
        }))
    }
}

impl Clone for KeptValues {
    ghost is_clone = { λ values other. other ≡ values };

    fn clone(&self) -> Result<KeptValues, AllocError> {
        Ok(KeptValues {
            columns: self.columns.clone()?,
            row: self.row.clone()?,
        })
    }
}

impl PartialEq for KeptValues {
    ghost use Rattle.std.specs.Ordering.{eq_by_cmp};
    ghost use Rattle.std.specs.Cmp.{partial_equiv_from_equiv, eq_by_cmp_equiv};
    ghost use Rattle.model.specs.Key.{key_cmp, key_cmp_total};

    ghost eq = { eq_by_cmp key_cmp };

    ghost laws = { partial_equiv_from_equiv (eq_by_cmp_equiv key_cmp_total) };

    fn eq(&self, other: &KeptValues) -> bool {
        let (own, others) = (self.columns.as_slice(), other.columns.as_slice());
        compare_rows(own, &self.row, others, &other.row).is_eq()
    }
}

impl Eq for KeptValues {
    ghost use Rattle.std.specs.Cmp.{eq_by_cmp_equiv};
    ghost use Rattle.model.specs.Key.{key_cmp_total};

    ghost laws = { eq_by_cmp_equiv key_cmp_total };
}

impl Hash for KeptValues {
    ghost use Rattle.model.specs.HasherInput.{key_writes, same_writes};

    ghost hash_input = { key_writes };

    ghost respects_eq = { same_writes };

    fn hash<S: Hasher>(&self, state: &mut S) {
        hash_row(self.columns.as_slice(), &self.row, state);
    }
}

impl<'a> Equivalent<KeptValues> for Sought<'a> {
    ghost use Rattle.std.specs.Ordering.{eq_by_cmp};
    ghost use Rattle.std.specs.Cmp.{eq_by_cmp_equiv};
    ghost use Rattle.model.specs.Key.{key_cmp, key_cmp_total};
    ghost use Rattle.model.specs.HasherInput.{same_writes};
    ghost use Rattle.indexes.specs.Columns.{present};

    ghost equivalent = { λ q k. eq_by_cmp key_cmp (present q.columns.now q.row.now) k };

    ghost respects_hash = { λ q. same_writes (present q.columns.now q.row.now) };

    ghost respects_eq = { λ q. (eq_by_cmp_equiv key_cmp_total).congr (present q.columns.now q.row.now) };

    fn equivalent(&self, values: &KeptValues) -> bool {
        let columns = values.columns.as_slice();
        compare_rows(self.columns, self.row, columns, &values.row).is_eq()
    }
}

impl<'a> Equivalent<KeptValues> for &'a Key {
    ghost use Rattle.std.specs.Ordering.{eq_by_cmp};
    ghost use Rattle.std.specs.Cmp.{eq_by_cmp_equiv};
    ghost use Rattle.model.specs.Key.{key_cmp, key_cmp_total};
    ghost use Rattle.model.specs.HasherInput.{same_writes};

    ghost equivalent = { λ q k. eq_by_cmp key_cmp q.now k };

    ghost respects_hash = { λ q. same_writes q.now };

    ghost respects_eq = { λ q. (eq_by_cmp_equiv key_cmp_total).congr q.now };

    fn equivalent(&self, values: &KeptValues) -> bool {
        compare_key(values.columns.as_slice(), &values.row, self).is_eq()
    }
}
