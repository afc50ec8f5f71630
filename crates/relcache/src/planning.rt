// The change that a row message asks for.

ghost use Rattle.std.specs.Prelude.{◌≡◌, ok_or, List, IfOk, IfErr};
ghost use Rattle.std.specs.Borrow.{Bor};
ghost use Rattle.std.specs.Result.{result_map_both};
ghost use Rattle.relcache.specs.declared.mapping.Field.{Field};
ghost use Rattle.relcache.specs.Answer.{Answers, IsFaultOf};
ghost use Rattle.relcache.specs.Fits.{FitsMapping};
ghost use Rattle.relcache.specs.Planning as spec;
ghost use Rattle.relcache.specs.declared.fault.RelFault.TheVariants.{KeyNotSent};

use crate::fault::RelFault;
use crate::mapping::{Field, Mapping};
use crate::tuples::{lookup_key, patch_of, row_of};
use messages::{OldTuple, RowMessage, Tuple};
use model::Change;
use std::alloc::Global;

/// The change that a row message of the mapping's relation asks for.
///
/// An insert puts a row: the published columns from the tuple, the others from their defaults. An
/// update and a delete look a row up by the primary key, in the old tuple if one was sent and
/// otherwise in the new one; an update sets the columns of the new tuple, and keeps those that were
/// not published or whose long value was not sent again. (PostgreSQL manual: Logical Replication
/// Message Formats, Insert, Update, Delete.)
///
/// The first of these faults is answered: KeyNotSent, where an update or a delete finds a column of
/// the primary key that the relation doesn't flag as key; ColumnCount, where a tuple has another
/// number of columns than the relation; BadValue, where a text is no value of its column's type, or a
/// column of an insert or of the looked-up key is sent as unchanged; NullKey, where the looked-up key
/// holds a null. OutOfMemory may stand in place of any answer. Texts are shared, not copied.
pub fn plan(alloc: Global, m: &Mapping, row: &RowMessage) -> Result<Change, RelFault>
    ensures change { IfOk result (λ change. spec.planned m.now row.now ≡ Ok change) }
    ensures fault { IfErr result (IsFaultOf (spec.planned m.now row.now)) }
    ensures fits { IfOk result (FitsMapping m.now) }
{
    plan_row(alloc, m, row)
}

fn plan_row(alloc: Global, m: &Mapping, row: &RowMessage) -> Result<Change, RelFault>
    ensures { Answers result (spec.planned m.now row.now) }
{
    match row {
        RowMessage::Insert { new } => plan_insert(alloc, m, new),
        RowMessage::Update {
            old: Some(old),
            new,
        } => plan_update(alloc, m, old_tuple(old), new),
        RowMessage::Update { old: None, new } => plan_update(alloc, m, new, new),
        RowMessage::Delete { old } => plan_delete(alloc, m, old_tuple(old)),
    }
}

/// The old key, or the old row.
fn old_tuple(old: &OldTuple) -> &Tuple
    ensures { result.now ≡ spec.old_columns old.now }
{
    match old {
        OldTuple::Key(tuple) => tuple,
        OldTuple::Full(tuple) => tuple,
    }
}

fn plan_insert(alloc: Global, m: &Mapping, new: &Tuple) -> Result<Change, RelFault>
    ensures { Answers result (spec.planned_insert m.now new.now) }
{
    count_columns(m, new)?;
    let row = row_of(alloc, m, new)?;
    Ok(Change::Put {
        table: m.table(),
        row,
    })
}

fn plan_update(alloc: Global, m: &Mapping, lookup: &Tuple, new: &Tuple) -> Result<Change, RelFault>
    ensures { Answers result (spec.planned_update m.now lookup.now new.now) }
{
    let fields = key_fields(m)?;
    count_columns(m, lookup)?;
    count_columns(m, new)?;
    let patch = patch_of(alloc, m, new)?;
    let key = lookup_key(alloc, fields, lookup.columns())?;
    Ok(Change::Set {
        table: m.table(),
        key,
        patch,
    })
}

fn plan_delete(alloc: Global, m: &Mapping, old: &Tuple) -> Result<Change, RelFault>
    ensures { Answers result (spec.planned_delete m.now old.now) }
{
    let fields = key_fields(m)?;
    count_columns(m, old)?;
    let key = lookup_key(alloc, fields, old.columns())?;
    Ok(Change::Remove {
        table: m.table(),
        key,
    })
}

/// The fields of the primary key, if the relation flags all of its columns as key.
fn key_fields(m: &Mapping) -> Result<&[Field], RelFault>
    ensures { result_map_both (λ (fields : Bor (List Field)). fields.now) (λ fault. fault) result
        ≡ ok_or m.now.key KeyNotSent }
{
    m.key().ok_or(RelFault::KeyNotSent)
}

/// Refuses a tuple of another number of columns than the relation's.
fn count_columns(m: &Mapping, tuple: &Tuple) -> Result<(), RelFault>
    ensures { result ≡ spec.counted m.now tuple.now }
{
    if tuple.columns().len() == m.published() {
        Ok(())
    } else {
        Err(RelFault::ColumnCount)
    }
}
