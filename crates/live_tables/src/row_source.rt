// Where the row at a place is read that is to lie beside it.
ghost use Rattle.std.specs.Prelude.{◌≡◌};
ghost use Rattle.live_tables.specs.RowSource.{row_read, CanRead};

use change::Inverse;
use indexes::Tables;
use model::{Key, TableId};
use rows::RowView;

/// Where the row at a place is read: in the live tables, or in the inverse that comes next in a log, if
/// one does.
#[derive(Clone, Copy)]
pub(crate) enum RowSource<'a> {
    Live(&'a Tables),
    Next(Option<&'a Inverse>),
}

impl<'a> RowSource<'a> {
    /// The row at a place. It takes no memory.
    pub(crate) fn row(self, table: TableId, key: &Key) -> Option<RowView<'a>>
        requires { CanRead self table }
        ensures { result ≡ row_read self.entry (table, key.now) }
    {
        match self {
            RowSource::Live(tables) => tables.get(table, key),
            RowSource::Next(next) => next?.row_at(table, key),
        }
    }
}
