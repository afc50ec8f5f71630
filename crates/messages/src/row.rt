//! The messages that change one row, and the row that they carry.

ghost use Rattle.std.specs.Prelude.{◌≡◌};
ghost use Rattle.messages.specs.declared.row.RowMessage.TheVariants as rows;

use crate::message::{Oid, Xid};
use crate::tuple::{OldTuple, Tuple};

/// 'I': a row is inserted.
#[derive(Debug, Drop)]
pub struct Insert {
    pub xid: Option<Xid>,
    pub oid: Oid,
    pub new: Tuple,
}

/// 'U': a row is updated. The old tuple is sent where its replica identity changed, or under
/// `REPLICA IDENTITY FULL`.
#[derive(Debug, Drop)]
pub struct Update {
    pub xid: Option<Xid>,
    pub oid: Oid,
    pub old: Option<OldTuple>,
    pub new: Tuple,
}

/// 'D': a row is deleted.
#[derive(Debug, Drop)]
pub struct Delete {
    pub xid: Option<Xid>,
    pub oid: Oid,
    pub old: OldTuple,
}

/// What a change says of its row, without the transaction and the relation.
#[derive(Debug, Drop)]
pub enum RowMessage {
    Insert { new: Tuple },
    Update { old: Option<OldTuple>, new: Tuple },
    Delete { old: OldTuple },
}

impl Insert {
    /// The row. It is moved, so nothing of it is copied.
    pub fn into_row(self) -> RowMessage
        ensures { result ≡ rows.Insert self.new }
    {
        RowMessage::Insert { new: self.new }
    }
}

impl Update {
    /// The row. It is moved, so nothing of it is copied.
    pub fn into_row(self) -> RowMessage
        ensures { result ≡ rows.Update self.old self.new }
    {
        RowMessage::Update {
            old: self.old,
            new: self.new,
        }
    }
}

impl Delete {
    /// The row. It is moved, so nothing of it is copied.
    pub fn into_row(self) -> RowMessage
        ensures { result ≡ rows.Delete self.old }
    {
        RowMessage::Delete { old: self.old }
    }
}
