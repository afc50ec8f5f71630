// What an index is asked for: values as they lie in a row, without a key of one's own.
//
// An index is a table of hashes. Its hasher is fed a key's values in turn, and of a row that is sought
// those that it has in the key's columns, so that equal values are fed alike.
ghost use Rattle.std.specs.Prelude.{◌≡◌, ◌∷◌, [], IfSome, IfNone};
ghost use Rattle.std.specs.List.{fold};
ghost use Rattle.model.specs.Key.{key_cmp};
ghost use Rattle.model.specs.ValueRef.{read_value};
ghost use Rattle.model.specs.HasherInput.{key_writes};
ghost use Rattle.indexes.specs.Columns.{present};

use model::{Row, ValueRef};
use std::cmp::Ordering;
use std::hash::{Hash, Hasher};

/// The values that a row has in some columns, those that aren't null, as they stand in the row.
#[derive(Clone, Copy)]
pub(crate) struct Sought<'a> {
    pub(crate) columns: &'a [usize],
    pub(crate) row: &'a Row,
}

impl<'a> Sought<'a> {
    pub(crate) fn of(columns: &'a [usize], row: &'a Row) -> Sought<'a>
        ensures { present result.columns.now result.row.now ≡ present columns.now row.now }
    {
        Sought { columns, row }
    }
}

impl<'a> PartialEq for Sought<'a> {
    ghost use Rattle.std.specs.Ordering.{eq_by_cmp};
    ghost use Rattle.std.specs.Cmp.{partial_equiv_from_equiv, eq_by_cmp_equiv, on_equiv};
    ghost use Rattle.model.specs.Key.{key_cmp, key_cmp_total};
    ghost use Rattle.indexes.specs.Columns.{present};

    ghost eq = { λ x y. eq_by_cmp key_cmp (present x.columns.now x.row.now) (present y.columns.now y.row.now) };

    ghost laws = { partial_equiv_from_equiv (on_equiv (λ x. present x.columns.now x.row.now) (eq_by_cmp_equiv key_cmp_total)) };

    fn eq(&self, other: &Sought<'a>) -> bool {
        compare_rows(self.columns, self.row, other.columns, other.row).is_eq()
    }
}

impl<'a> Eq for Sought<'a> {
    ghost use Rattle.std.specs.Cmp.{eq_by_cmp_equiv, on_equiv};
    ghost use Rattle.model.specs.Key.{key_cmp_total};
    ghost use Rattle.indexes.specs.Columns.{present};

    ghost laws = { on_equiv (λ x. present x.columns.now x.row.now) (eq_by_cmp_equiv key_cmp_total) };
}

impl<'a> Hash for Sought<'a> {
    ghost use Rattle.model.specs.HasherInput.{key_writes, same_writes};
    ghost use Rattle.indexes.specs.Columns.{present};

    ghost hash_input = { λ q. key_writes (present q.columns.now q.row.now) };

    ghost respects_eq = { λ x y. same_writes (present x.columns.now x.row.now) (present y.columns.now y.row.now) };

    fn hash<S: Hasher>(&self, state: &mut S) {
        hash_row(self.columns, self.row, state);
    }
}

// The order of the values that two rows have in columns of theirs, nulls left out.
pub(crate) fn compare_rows(columns: &[usize], row: &Row, others: &[usize], other: &Row) -> Ordering
    ensures { result ≡ key_cmp (present columns.now row.now) (present others.now other.now) }
{
    let mut rest = others;
    for column in columns {
        let Some(value) = row.get(*column) else {
            continue;
        };
        let Some((first, tail)) = first_present(rest, other) else {
            return Ordering::Greater;
        };
        match value.compare(first) {
            Ordering::Equal => rest = tail,
            differ => return differ,
        }
    }
    match first_present(rest, other) {
        None => Ordering::Equal,
        Some(_) => Ordering::Less,
    }
}

// A row's first value in some columns that isn't null, and the columns behind it.
fn first_present<'a>(columns: &'a [usize], row: &'a Row) -> Option<(ValueRef<'a>, &'a [usize])>
    ensures found { IfSome result (λ first. present columns.now row.now ≡ read_value first.0 ∷ present first.1.now row.now) }
    ensures missed { IfNone result (present columns.now row.now ≡ []) }
{
    for index in 0..columns.len() {
        if let Some(value) = row.get(columns[index]) {
            return Some((value, &columns[index + 1..]));
        }
    }
    None
}

// The values that a row has in some columns, nulls left out, are fed to a hasher in turn.
pub(crate) fn hash_row<S: Hasher>(columns: &[usize], row: &Row, state: &mut S)
    ensures { state.new ≡ fold S.write state.old (key_writes (present columns.now row.now)) }
{
    for column in columns {
        if let Some(value) = row.get(*column) {
            value.feed(state);
        }
    }
}
