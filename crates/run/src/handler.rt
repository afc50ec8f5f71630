// What takes the items of a stream, as a run's loop knows it.
ghost use Rattle.std.specs.Prelude.{◌≡◌, max, List};
ghost use Rattle.model.specs.Rows.{Rows};
ghost use Rattle.frames.specs.declared.item.CopyItem.{CopyItem as Item};
ghost use Rattle.session.specs.State.{Setting};
ghost use Rattle.run.specs.declared.end.End.{End as RunEnd};
ghost use Rattle.run.specs.Progress.{Progress, Leads, start_progress, seen_with};
ghost use Rattle.run.specs.Handler.{IsUnderWay, HandlesItem};

use crate::end::End;
use frames::{CopyItem, Lsn};

/// What takes the items of a stream, one after another.
pub trait Handler {
    /// It stands at a progress of a run in this setting, from these rows.
    ghost at: { Setting → Rows → Self → Progress → Type 0 };

    /// It ended a run: these items were handled, which led to this progress, and those are left.
    ghost ended: { Setting → Rows → Self → List Item → Progress → List Item → RunEnd → Type 0 };

    /// Handles one item. It answers whether a status update is due.
    fn handle(&mut self, item: CopyItem) -> Result<bool, End>
        requires { IsUnderWay at self.old }
        ensures { (g : Setting) (rows : Rows) (handled : List Item) (p : Progress) → Leads g start_progress handled p → at g rows self.old p
            → HandlesItem g (at g rows) (ended g rows) self.new handled p item result };

    /// The greatest position of the publisher's log so far.
    fn written(&self) -> Lsn
        ensures { (g : Setting) (rows : Rows) (p : Progress) → at g rows self.now p → result ≡ max p.seen p.state.position };

    /// The end of the last commit; 0 before the first.
    fn position(&self) -> Lsn
        ensures { (g : Setting) (rows : Rows) (p : Progress) → at g rows self.now p → result ≡ p.state.position };
}

/// The greatest position of the publisher's log, where `written` was it before this item.
pub fn written_with(written: Lsn, item: &CopyItem) -> Lsn
    ensures { result ≡ seen_with written item.now }
{
    match item {
        CopyItem::Wal { start, end, .. } => written.max(*start).max(*end),
        CopyItem::Keepalive { end, .. } => written.max(*end),
        CopyItem::Done => written,
    }
}
