// What a tuple's column tells: the value of its text form.

ghost use Rattle.std.specs.Prelude.{◌≡◌, ok_or};
ghost use Rattle.relcache.specs.Answer.{AnswersPatch, AnswersRead};
ghost use Rattle.relcache.specs.Planning as planning;
ghost use Rattle.relcache.specs.declared.fault.RelFault.TheVariants.{BadValue};

use crate::fault::RelFault;
use messages::Column;
use model::types::read_value;
use model::{ColumnPatchRef, ColumnType, ValueRef};

/// The value of a column that must be sent; `None` is null. A text is lent.
pub(crate) fn sent_value(
    kind: ColumnType,
    column: &Column,
) -> Result<Option<ValueRef<'_>>, RelFault>
    ensures { AnswersRead result (ok_or (planning.sent_value kind column.now) BadValue) }
{
    match column {
        Column::Null => Ok(None),
        Column::Unchanged => Err(RelFault::BadValue),
        Column::Text(text) => match read_value(kind, text.as_str()) {
            Some(value) => Ok(Some(value)),
            None => Err(RelFault::BadValue),
        },
    }
}

/// What an update does to a column. A text is lent.
pub(crate) fn sent_patch(kind: ColumnType, column: &Column) -> Result<ColumnPatchRef<'_>, RelFault>
    ensures { AnswersPatch result (ok_or (planning.sent_patch kind column.now) BadValue) }
{
    match column {
        Column::Null => Ok(ColumnPatchRef::Null),
        Column::Unchanged => Ok(ColumnPatchRef::Keep),
        Column::Text(text) => match read_value(kind, text.as_str()) {
            Some(value) => Ok(ColumnPatchRef::Value(value)),
            None => Err(RelFault::BadValue),
        },
    }
}
