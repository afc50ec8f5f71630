// What each item of a stream does, where streamed transactions have workers.
ghost use Rattle.std.specs.Prelude.{◌≡◌, ◌<◌, ◌⊎◌, [], None, length, All, OnOk, OnErr, IfErr, map, option_map};
ghost use Rattle.model.specs.Beginning.{last_end};
ghost use Rattle.model.specs.Rows.{Rows};
ghost use Rattle.engine.specs.Events.{ends_in};
ghost use Rattle.origin.specs.Commits.{commits_of};
ghost use Rattle.session.specs.Answers.{IsOfTables};
ghost use Rattle.session.specs.State.{Setting};
ghost use Rattle.run.specs.Settings.{setting_of};
ghost use Rattle.run.specs.Progress.{Progress, start_progress, seen_with};

use bytes::Bytes;
use catalog::Catalog;
use dispatch::{Left, RunNames, Transactions};
use frames::{CopyItem, Lsn};
use model::{CommitInfo, Item, Xid};
use run::{Config, End, Handler, written_with};
use session::{Session, Step};
use std::alloc::Global;
use std::sync::Wait;
use table_locks::StoreNames;
use worker::Gate;

/// How far a leader is in its stream.
#[derive(Drop)]
pub struct Stream<'a> {
    alloc: Global,
    catalog: &'a Catalog,
    session: Session,
    position: Lsn,
    /// The greatest position of the publisher's log so far.
    written: Lsn,
}

impl Stream<'_> {
    // The log was seen as far as this item says.
    fn see(&mut self, item: &CopyItem)
        ensures { self.new ≡ record self.old { written = seen_with self.old.written item.now } }
    {
        self.written = written_with(self.written, item);
    }
}

/// What the items of a stream have done so far, where streamed transactions have workers.
#[derive(Drop)]
pub struct Lead<'a, N: StoreNames, L: RunNames, R: Wait, G: Gate + Drop> {
    stream: Stream<'a>,
    transactions: Transactions<'a, N, L, R, G>,
}

impl<'a, N: StoreNames, L: RunNames, R: Wait, G: Gate + Drop> Lead<'a, N, L, R, G> {
    ghost use Rattle.dispatch.specs.Handle.{IsHome, AreCounted};
    ghost use Rattle.dispatch.specs.Standing.{own_by, goes_by, IsOurs, IsCommitted, HasTried, IsStoreEnd};
    ghost use Rattle.leader.specs.Threads.{led, after_commit, Represents, RepresentsSome, LeadTakes};

    /// Before the first item: no transaction is open, and so many may have a worker each. The spools
    /// keep as many bytes, and the transaction is skipped, that `config` says.
    pub fn new(
        alloc: Global,
        catalog: &'a Catalog,
        workers: usize,
        config: Config,
        transactions: Transactions<'a, N, L, R, G>,
    ) -> Lead<'a, N, L, R, G>
        requires tables { transactions.tables ≡ length catalog.now }
        requires line { transactions.line ≡ [] }
        requires workers { length transactions.workers ≡ workers }
        requires free { All (λ goes. goes ≡ None) transactions.workers }
        requires begun { transactions.begun ≡ None }
        ensures { (rows : Rows) → Represents (setting_of workers config catalog.now) rows (led result.stream result.transactions) start_progress }
    {
        let stream = Stream {
            alloc,
            catalog,
            session: Session::new(alloc, workers, config.spool, config.skip),
            position: 0,
            written: 0,
        };
        Lead {
            stream,
            transactions,
        }
    }

    /// What it leaves of its open transactions, and the position that the commits reach. It tells all
    /// workers to give up and waits until they have; that they do, they must still be working.
    pub fn into_left(self) -> (Left<'a, N, L, G>, Lsn)
        ensures name { result.0.line.name ≡ N.line }
        ensures list { result.0.line.list ≡ self.entry.transactions.line }
        ensures begun { option_map own_by result.0.begun ≡ self.entry.transactions.begun }
        ensures workers { map goes_by result.0.workers.items ≡ self.entry.transactions.workers }
        ensures home { All IsHome result.0.workers.items }
        ensures given { AreCounted self.entry.transactions.workers result.0.given.items }
        ensures published { result.0.publisher ≡ commits_of L.origin (ends_in self.entry.transactions.line) }
        ensures position { result.1 ≡ self.entry.stream.position }
    {
        let Lead {
            stream,
            transactions,
        } = self;
        (transactions.into_left(), stream.position)
    }

    // Takes the next message. It answers whether a transaction committed.
    fn take_message(&mut self, payload: &Bytes) -> Result<bool, End>
        requires { RepresentsSome (led self.old.stream self.old.transactions) }
        ensures { (g : Setting) (rows : Rows) (p : Progress) → Represents g rows (led self.old.stream self.old.transactions) p
            → LeadTakes g rows (led self.new.stream self.new.transactions) p payload.now result }
    {
        let stream = &mut self.stream;
        match stream.session.admit(stream.alloc, stream.catalog, payload)? {
            Step::Nothing => {}
            Step::Begin(xid) => self.transactions.begin(xid)?,
            Step::Open(xid) => self.transactions.hand_out(xid)?,
            Step::Item(xid, item) => self.transactions.take(xid, item)?,
            Step::Commit(xid, info, items) => {
                self.commit(xid, info, items)?;
                return Ok(true);
            }
            Step::Abort(xid) => self.transactions.abort(xid)?,
        }
        Ok(false)
    }

    // A transaction commits, and the position with it.
    fn commit(&mut self, xid: Xid, info: CommitInfo, items: Vec<Item>) -> Result<(), End>
        requires named { All (IsOfTables self.old.transactions.tables) items.items }
        requires ready { IsOurs self.old.transactions xid ⊎ (self.old.transactions.begun ≡ None) }
        requires rising { last_end (ends_in self.old.transactions.line) < info.end }
        ensures commits { OnOk result (IsCommitted self.old.transactions xid info items.items self.new.transactions) }
        ensures ok { OnOk result (led self.new.stream self.new.transactions ≡ after_commit (led self.old.stream self.old.transactions) self.new.transactions info) }
        ensures session { self.new.stream.session ≡ self.old.stream.session }
        ensures stream { OnErr result (self.new.stream ≡ self.old.stream) }
        ensures err { OnErr result ((self.new.transactions ≡ self.old.transactions) ⊎ HasTried self.old.transactions xid items.items self.new.transactions) }
        ensures end { IfErr result (IsStoreEnd (Some xid)) }
    {
        self.transactions.commit(xid, info, items)?;
        self.stream.position = info.end;
        self.stream.written = self.stream.written.max(info.end);
        Ok(())
    }
}

impl<'a, N: StoreNames, L: RunNames, R: Wait, G: Gate + Drop> Handler for Lead<'a, N, L, R, G> {
    ghost use Rattle.leader.specs.Threads.{led, Represents, HasLedTo};

    ghost at = { λ g rows l p. Represents g rows (led l.stream l.transactions) p };

    ghost ended = { λ g rows l handled p rest end. HasLedTo g rows (led l.stream l.transactions) handled p rest end };

    fn handle(&mut self, item: CopyItem) -> Result<bool, End> {
        self.stream.see(&item);
        match item {
            CopyItem::Wal { payload, .. } => self.take_message(&payload),
            CopyItem::Keepalive { reply, .. } => Ok(reply),
            CopyItem::Done => Ok(false),
        }
    }

    fn written(&self) -> Lsn {
        self.stream.written
    }

    fn position(&self) -> Lsn {
        self.stream.position
    }
}
