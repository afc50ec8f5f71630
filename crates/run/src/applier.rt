// What the items of a stream do, one after another.
ghost use Rattle.std.specs.Prelude.{◌≡◌, ◌<◌, max, [], map, IfOk, IfErr, OnOk, OnErr};
ghost use Rattle.model.specs.Rows.{Rows, keys_of};
ghost use Rattle.engine.specs.Engine.{entry_in, IsOtherwiseSame};
ghost use Rattle.engine.specs.Serial.{committed_by};
ghost use Rattle.world.specs.World.{journal as journal_of, ends_of};
ghost use Rattle.session.specs.State.{Setting};
ghost use Rattle.run.specs.Settings.{setting_of};
ghost use Rattle.run.specs.Progress.{Progress, start_progress};
ghost use Rattle.model.specs.Beginning.{last_end};

use crate::end::End;
use crate::handler::{Handler, written_with};
use crate::outcome::{Config, Outcome};
use bytes::Bytes;
use catalog::Catalog;
use engine::SerialStore;
use frames::{CopyItem, Lsn};
use indexes::Tables;
use model::OutOfMemory;
use savepoint::{CommitInfo, Xid};
use session::{Session, Step};
use std::alloc::Global;

/// What the items of a stream have done so far: a store whose transactions come one at a time has it.
#[derive(Drop)]
pub struct Applier<'a> {
    alloc: Global,
    catalog: &'a Catalog,
    session: Session,
    work: SerialStore,
    position: Lsn,
    /// The greatest position of the publisher's log so far.
    written: Lsn,
}

impl<'a> Applier<'a> {
    ghost use Rattle.run.specs.Applier.{RepresentsSome, Represents, TakesMessage};

    /// Before the first item: these tables, which are those of the catalog. The spools keep as many bytes,
    /// and the transaction is skipped, that `config` says.
    /// Refused for memory, the tables are handed back.
    pub fn new(
        alloc: Global,
        catalog: &'a Catalog,
        start: Tables,
        config: &Config,
    ) -> Result<Applier<'a>, Tables>
        requires { start.schema ≡ map keys_of catalog.now }
        ensures at { IfOk result (λ applier. Represents (setting_of 0 config.now catalog.now) start.rows applier start_progress) }
        ensures err { IfErr result (λ tables. tables ≡ start) }
    {
        Ok(Applier {
            alloc,
            catalog,
            session: Session::new(alloc, 0, config.spool, config.skip),
            work: SerialStore::new(alloc, start)?,
            position: 0,
            written: 0,
        })
    }

    /// Undoes open work, and answers what is left.
    pub fn leave(self, end: End) -> Outcome
        ensures tables { result.tables.rows ≡ self.entry.work.store.world.committed }
        ensures schema { result.tables.schema ≡ self.entry.work.store.schema }
        ensures journal { map entry_in result.journal.items ≡ journal_of self.entry.work.store.world }
        ensures position { result.position ≡ self.entry.position }
        ensures end { result.end ≡ end }
    {
        let position = self.position;
        let (tables, journal) = self.work.shut();
        Outcome {
            tables,
            journal,
            position,
            end,
        }
    }

    /// Takes the next message. It answers whether a transaction committed.
    fn take_message(&mut self, payload: &Bytes) -> Result<bool, End>
        requires { RepresentsSome self.old }
        ensures { (g : Setting) (rows : Rows) (p : Progress) → Represents g rows self.old p → TakesMessage g rows self.new p payload.now result }
    {
        match self.session.admit(self.alloc, self.catalog, payload)? {
            Step::Item(_, item) => {
                self.work.take(self.alloc, item)?;
                Ok(false)
            }
            Step::Commit(xid, info, items) => {
                self.work.take_all(self.alloc, items)?;
                self.commit(xid, info)?;
                Ok(true)
            }
            Step::Nothing | Step::Begin(_) | Step::Open(_) | Step::Abort(_) => Ok(false),
        }
    }

    /// The open work is committed, and the position with it. A refusal leaves both as they were.
    fn commit(&mut self, xid: Xid, info: CommitInfo) -> Result<(), OutOfMemory>
        requires { last_end (ends_of self.old.work.store.world) < info.end }
        ensures commits { OnOk result (self.new.work.store.world ≡ committed_by self.old.work.store.schema self.old.work.store.world xid self.old.work.changes info) }
        ensures none { OnOk result (self.new.work.changes ≡ []) }
        ensures same { IsOtherwiseSame self.old.work.store self.new.work.store }
        ensures position { OnOk result (self.new.position ≡ info.end) }
        ensures written { OnOk result (self.new.written ≡ max self.old.written info.end) }
        ensures session { self.new.session ≡ self.old.session }
        ensures catalog { self.new.catalog ≡ self.old.catalog }
        ensures err { OnErr result ((self.new.work ≡ self.old.work) × (self.new.position ≡ self.old.position)) }
    {
        self.work.commit(self.alloc, xid, info)?;
        self.position = info.end;
        self.written = self.written.max(info.end);
        Ok(())
    }
}

impl<'a> Handler for Applier<'a> {
    ghost use Rattle.run.specs.Applier.{Represents, HasEnded};

    ghost at = { Represents };

    ghost ended = { HasEnded };

    fn handle(&mut self, item: CopyItem) -> Result<bool, End> {
        self.written = written_with(self.written, &item);
        match item {
            CopyItem::Wal { payload, .. } => self.take_message(&payload),
            CopyItem::Keepalive { reply, .. } => Ok(reply),
            CopyItem::Done => Ok(false),
        }
    }

    fn written(&self) -> Lsn {
        self.written
    }

    fn position(&self) -> Lsn {
        self.position
    }
}
