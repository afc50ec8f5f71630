// The session, one function a message.
ghost use Rattle.std.specs.Prelude.{◌≡◌, ◌≢◌, ◌^◌, ◌<◌, true, ℕ, length};
ghost use Rattle.session.specs.Kept.{items_left};

use crate::fault::{Refused, SessionFault};
use crate::phase::Phase;
use crate::relations::KnownRelations;
use crate::step::Step;
use crate::transactions::{OpenTransaction, Transactions};
use bytes::Bytes;
use catalog::Catalog;
use messages::{
    Begin, Commit, Message, Oid, Relation, RowMessage, StreamAbort, StreamCommit, StreamStart,
    Truncate, decode,
};
use savepoint::{CommitInfo, Item, Lsn, Xid};
use std::alloc::Global;

/// What the messages of a stream have left open, learnt and committed.
#[derive(Debug, Drop)]
pub struct Session {
    alloc: Global,
    phase: Phase,
    transactions: Transactions,
    relations: KnownRelations,
    /// The end of the last commit; 0 before the first.
    position: Lsn,
    /// The commit LSN of the transaction to skip, until one commits.
    skip: Option<Lsn>,
}

impl Session {
    ghost use Rattle.std.specs.FinMap as map;
    ghost use Rattle.session.specs.State.{Setting, State, Open, start, begun_at};
    ghost use Rattle.session.specs.State.{Direct};
    ghost use Rattle.session.specs.StreamEvents.{IsChange};
    ghost use Rattle.session.specs.Table as table;
    ghost use Rattle.session.specs.KeptTransactions.{Survives};
    ghost use Rattle.session.specs.Represents.{Represents};
    ghost use Rattle.session.specs.Answers.{AnswersMessage, AdmitsMessage, IsChangeOf, IsOfTables, AnswersPayload};
    ghost use Rattle.session.specs.declared.fault.SessionFault.TheVariants as faults;
    ghost use Rattle.session.specs.declared.phase.Phase.TheVariants as phases;
    ghost use Rattle.messages.specs.declared.message.Message.TheVariants as messages;

    /// The session at the start of a stream, with so many workers, whose spools may keep so many
    /// bytes of payloads. If the first transaction to commit does so at the LSN `skip`, its changes are
    /// left out; 0 skips none. It takes no memory. (PostgreSQL manual: ALTER SUBSCRIPTION, SKIP.)
    pub fn new(alloc: Global, workers: usize, spool: u64, skip: Lsn) -> Session
        ensures { (g : Setting) → g.workers ≡ workers → g.spool ≡ spool → g.skip ≡ skip → Represents g result start }
    {
        Session {
            alloc,
            phase: Phase::Outside,
            transactions: Transactions::new(alloc, workers, spool),
            relations: KnownRelations::new(alloc),
            position: 0,
            skip: if skip == 0 { None } else { Some(skip) },
        }
    }

    /// Takes the next message, and answers what it asks for.
    ///
    /// A payload that is no message is refused first, then a message that may not come here or that
    /// the spools have no room for, then one that does not fit its relation. A refusal changes
    /// nothing. The catalog is the same at each call. (PostgreSQL manual: Logical Replication Message
    /// Formats; Logical Streaming Replication Protocol.)
    pub fn admit(
        &mut self,
        alloc: Global,
        catalog: &Catalog,
        payload: &Bytes,
    ) -> Result<Step, Refused>
        ensures { (g : Setting) (h : State) → g.catalog ≡ catalog.now → Represents g self.old h
            → AnswersPayload g self.new h payload.now result }
    {
        let in_block = matches!(self.phase, Phase::Block(_));
        let message = decode(alloc, payload, in_block)?;
        self.message(catalog, message, payload.len() as u64)
    }

    /// Takes a message whose payload has so many bytes.
    fn message(&mut self, catalog: &Catalog, message: Message, size: u64) -> Result<Step, Refused>
        ensures { (g : Setting) (h : State) → g.catalog ≡ catalog.now → Represents g self.old h
            → AnswersMessage g self.new h (table.step g h size message) result }
    {
        match message {
            Message::Begin(m) => self.begin(&m),
            Message::Commit(m) => self.commit(&m),
            Message::Origin(_) => self.origin(),
            Message::Message(_) => Ok(Step::Nothing),
            Message::Relation { xid, relation } => self.relation(xid, &relation, size),
            Message::TypeName(m) => self.type_name(m.xid, size),
            Message::Insert(m) => {
                let (xid, oid) = (m.xid, m.oid);
                self.row(catalog, xid, oid, &m.into_row(), size)
            }
            Message::Update(m) => {
                let (xid, oid) = (m.xid, m.oid);
                self.row(catalog, xid, oid, &m.into_row(), size)
            }
            Message::Delete(m) => {
                let (xid, oid) = (m.xid, m.oid);
                self.row(catalog, xid, oid, &m.into_row(), size)
            }
            Message::Truncate(m) => self.truncate(catalog, &m, size),
            Message::StreamStart(m) => self.stream_start(&m),
            Message::StreamStop => self.stream_stop(),
            Message::StreamCommit(m) => self.stream_commit(&m),
            Message::StreamAbort(m) => self.stream_abort(&m),
        }
    }

    // ---- transactions between Begin and Commit

    fn begin(&mut self, m: &Begin) -> Result<Step, Refused>
        ensures { (g : Setting) (h : State) → Represents g self.old h
            → AnswersMessage g self.new h (table.at h.phase (table.begins h m.now) (λ _ _. table.refuse faults.NestedBegin) (λ _. table.refuse faults.BlockOpen)) result }
    {
        match self.phase {
            Phase::Outside => {
                self.transactions.begin(m.xid)?;
                self.phase = Phase::Begun {
                    xid: m.xid,
                    final_lsn: m.final_lsn,
                };
                Ok(Step::Begin(m.xid))
            }
            Phase::Begun { .. } => Err(SessionFault::NestedBegin.into()),
            Phase::Block(_) => Err(SessionFault::BlockOpen.into()),
        }
    }

    fn commit(&mut self, m: &Commit) -> Result<Step, Refused>
        ensures { (g : Setting) (h : State) → Represents g self.old h
            → AnswersMessage g self.new h (table.at h.phase (table.refuse faults.NotInTransaction) (λ xid final. table.commits_begun g h xid final m.now) (λ _. table.refuse faults.BlockOpen)) result }
    {
        match self.phase {
            Phase::Outside => Err(SessionFault::NotInTransaction.into()),
            Phase::Begun { xid, final_lsn } => {
                if m.commit_lsn != final_lsn {
                    return Err(SessionFault::CommitMismatch.into());
                }
                self.close(xid, m.commit_lsn, m.end_lsn)
            }
            Phase::Block(_) => Err(SessionFault::BlockOpen.into()),
        }
    }

    // ---- streamed transactions

    fn stream_start(&mut self, m: &StreamStart) -> Result<Step, Refused>
        ensures { (g : Setting) (h : State) → Represents g self.old h
            → AnswersMessage g self.new h (table.at h.phase (table.streams g h m.now) (λ _ _. table.refuse faults.NestedBegin) (λ _. table.refuse faults.BlockOpen)) result }
    {
        match self.phase {
            Phase::Outside => {
                if m.is_first {
                    self.open(m.xid)
                } else {
                    self.go_on(m.xid)
                }
            }
            Phase::Begun { .. } => Err(SessionFault::NestedBegin.into()),
            Phase::Block(_) => Err(SessionFault::BlockOpen.into()),
        }
    }

    fn stream_stop(&mut self) -> Result<Step, Refused>
        ensures { (g : Setting) (h : State) → Represents g self.old h
            → AnswersMessage g self.new h (table.at h.phase (table.refuse faults.NoBlock) (λ _ _. table.refuse faults.NoBlock) (λ _. Ok (table.leaves_block h))) result }
    {
        match self.phase {
            Phase::Outside | Phase::Begun { .. } => Err(SessionFault::NoBlock.into()),
            Phase::Block(_) => {
                self.phase = Phase::Outside;
                Ok(Step::Nothing)
            }
        }
    }

    fn stream_commit(&mut self, m: &StreamCommit) -> Result<Step, Refused>
        ensures { (g : Setting) (h : State) → Represents g self.old h
            → AnswersMessage g self.new h (table.at h.phase (table.commits g h m.now.xid m.now.commit_lsn m.now.end_lsn) (λ _ _. table.refuse faults.NestedBegin) (λ _. table.refuse faults.BlockOpen)) result }
    {
        match self.phase {
            Phase::Outside => self.close(m.xid, m.commit_lsn, m.end_lsn),
            Phase::Begun { .. } => Err(SessionFault::NestedBegin.into()),
            Phase::Block(_) => Err(SessionFault::BlockOpen.into()),
        }
    }

    fn stream_abort(&mut self, m: &StreamAbort) -> Result<Step, Refused>
        ensures { (g : Setting) (h : State) → Represents g self.old h
            → AnswersMessage g self.new h (table.at h.phase (Ok (table.aborts h m.now)) (λ _ _. table.refuse faults.NestedBegin) (λ _. table.refuse faults.BlockOpen)) result }
    {
        match self.phase {
            Phase::Outside => Ok(self.abort(m)),
            Phase::Begun { .. } => Err(SessionFault::NestedBegin.into()),
            Phase::Block(_) => Err(SessionFault::BlockOpen.into()),
        }
    }

    // ---- messages inside of transactions

    fn origin(&self) -> Result<Step, Refused>
        ensures { (g : Setting) (h : State) → Represents g self.now h
            → AnswersMessage g self.now h (table.at h.phase (table.refuse faults.NotInTransaction) (λ _ _. Ok h) (λ _. Ok h)) result }
    {
        match self.phase {
            Phase::Outside => Err(SessionFault::NotInTransaction.into()),
            Phase::Begun { .. } => Ok(Step::Nothing),
            Phase::Block(_) => Ok(Step::Nothing),
        }
    }

    fn relation(
        &mut self,
        sub: Option<Xid>,
        relation: &Relation,
        size: u64,
    ) -> Result<Step, Refused>
        ensures { (g : Setting) (h : State) → Represents g self.old h
            → AnswersMessage g self.new h (table.step g h size (messages.Relation sub relation.now)) result }
    {
        match self.phase {
            Phase::Outside | Phase::Begun { .. } => {
                self.relations.learn(relation)?;
                Ok(Step::Nothing)
            }
            Phase::Block(xid) => {
                let step = self.touch(xid, sub.unwrap_or(xid), size)?;
                if let Err(fault) = self.relations.learn(relation) {
                    self.transactions.drop_last(xid);
                    return Err(fault.into());
                }
                Ok(step)
            }
        }
    }

    fn type_name(&mut self, sub: Option<Xid>, size: u64) -> Result<Step, Refused>
        ensures { (g : Setting) (h : State) → Represents g self.old h
            → AnswersMessage g self.new h (table.at h.phase (Ok h) (λ _ _. Ok h) (λ xid. table.touches g h xid (table.subtransaction_named sub xid) size)) result }
    {
        match self.phase {
            Phase::Outside | Phase::Begun { .. } => Ok(Step::Nothing),
            Phase::Block(xid) => self.touch(xid, sub.unwrap_or(xid), size),
        }
    }

    /// Takes an item that changes no row, in a block of its transaction.
    fn touch(&mut self, xid: Xid, sub: Xid, size: u64) -> Result<Step, Refused>
        ensures { (g : Setting) (h : State) → Represents g self.old h → h.phase ≡ phases.Block xid
            → AnswersMessage g self.new h (table.touches g h xid sub size) result }
    {
        self.transactions.check_spool(xid, size)?;
        self.add_item(xid, Item::Touch(sub), size)
    }

    fn row(
        &mut self,
        catalog: &Catalog,
        sub: Option<Xid>,
        oid: Oid,
        row: &RowMessage,
        size: u64,
    ) -> Result<Step, Refused>
        ensures { (g : Setting) (h : State) → g.catalog ≡ catalog.now → Represents g self.old h
            → AnswersMessage g self.new h (table.change_line g h size sub (table.row_change g h oid row.now)) result }
    {
        let Some((xid, sub)) = self.change_of(sub, size)? else {
            return Ok(Step::Nothing);
        };
        let change = self.relations.plan(catalog, oid, row)?;
        self.add_item(xid, Item::Change { sub, change }, size)
    }

    fn truncate(&mut self, catalog: &Catalog, m: &Truncate, size: u64) -> Result<Step, Refused>
        ensures { (g : Setting) (h : State) → g.catalog ≡ catalog.now → Represents g self.old h
            → AnswersMessage g self.new h (table.change_line g h size m.now.xid (table.truncate_change g h m.now.relations)) result }
    {
        let Some((xid, sub)) = self.change_of(m.xid, size)? else {
            return Ok(Step::Nothing);
        };
        let change = self.relations.wipe(catalog, m.relations.as_slice())?;
        self.add_item(xid, Item::Change { sub, change }, size)
    }

    /// The transaction that a change belongs to and the subtransaction that it names, if it may be
    /// taken. Between Begin and Commit it names the transaction; of one that is skipped it is none.
    fn change_of(&self, sub: Option<Xid>, size: u64) -> Result<Option<(Xid, Xid)>, SessionFault>
        ensures { (g : Setting) (h : State) → Represents g self.now h → IsChangeOf g h size sub result }
    {
        match self.phase {
            Phase::Outside => Err(SessionFault::NotInTransaction),
            Phase::Begun { final_lsn, .. } if self.skips(final_lsn) => Ok(None),
            Phase::Begun { xid, .. } => Ok(Some((xid, xid))),
            Phase::Block(xid) => {
                self.transactions.check_spool(xid, size)?;
                Ok(Some((xid, sub.unwrap_or(xid))))
            }
        }
    }

    /// Takes an item of an open transaction.
    fn add_item(&mut self, xid: Xid, item: Item, size: u64) -> Result<Step, Refused>
        ensures { (g : Setting) (h : State) (o : Open) → Represents g self.old h → map.get h.transactions xid ≡ Some o
            → table.has_room g h.transactions size o.way ≡ true → Survives item → IsOfTables (length g.catalog) item → (o.way ≡ Direct → IsChange item)
            → AnswersMessage g self.new h (Ok (table.gives h xid item size o)) result }
    {
        match self.transactions.add_item(xid, item, size)? {
            Some(item) => Ok(Step::Item(xid, item)),
            None => Ok(Step::Nothing),
        }
    }

    /// Whether the transaction of this commit LSN is skipped.
    fn skips(&self, commit: Lsn) -> bool
        ensures { result ≡ table.names commit self.now.skip }
    {
        self.skip == Some(commit)
    }

    // ---- opening and closing

    /// Opens a streamed transaction and its first block. While a skip is set it gets no worker, since
    /// its commit LSN isn't known before it commits.
    fn open(&mut self, xid: Xid) -> Result<Step, Refused>
        ensures { (g : Setting) (h : State) → Represents g self.old h → h.phase ≡ phases.Outside
            → AnswersMessage g self.new h (table.opens h xid (table.next_way g h) (phases.Block xid)) result }
    {
        let has_worker = self.transactions.stream(xid, self.skip.is_none())?;
        self.phase = Phase::Block(xid);
        if has_worker {
            Ok(Step::Open(xid))
        } else {
            Ok(Step::Nothing)
        }
    }

    /// Opens a further block of a streamed transaction.
    fn go_on(&mut self, xid: Xid) -> Result<Step, Refused>
        ensures { (g : Setting) (h : State) → Represents g self.old h → h.phase ≡ phases.Outside
            → AnswersMessage g self.new h (table.goes_on h xid) result }
    {
        if !self.transactions.contains(xid) {
            return Err(SessionFault::UnknownTransaction.into());
        }
        self.phase = Phase::Block(xid);
        Ok(Step::Nothing)
    }

    /// Commits a transaction. Nothing is begun afterwards.
    fn close(&mut self, xid: Xid, commit: Lsn, end: Lsn) -> Result<Step, Refused>
        ensures { (g : Setting) (h : State) → Represents g self.old h
            → ((begun : ℕ) → begun_at h.phase ≡ Some begun → begun ≡ xid)
            → AnswersMessage g self.new h (table.commits g h xid commit end) result }
    {
        if self.transactions.contains(xid) && end <= self.position {
            return Err(SessionFault::OldCommit.into());
        }
        match self.transactions.close(xid) {
            Some(way) => {
                self.phase = Phase::Outside;
                self.position = end;
                let is_skipped = self.skips(commit);
                self.skip = None;
                let items = handed_out(self.alloc, way, is_skipped);
                Ok(Step::Commit(xid, CommitInfo { commit, end }, items))
            }
            None => Err(SessionFault::UnknownTransaction.into()),
        }
    }

    /// Rolls back a subtransaction, or the whole transaction if that is the one named.
    fn abort(&mut self, m: &StreamAbort) -> Step
        ensures { (g : Setting) (h : State) → Represents g self.old h → h.phase ≡ phases.Outside
            → AdmitsMessage g self.new h (Ok (table.aborts h m.now)) result }
    {
        if m.subtransaction == m.xid {
            let Some(way) = self.transactions.close(m.xid) else {
                return Step::Nothing;
            };
            if way.is_spooled() {
                Step::Nothing
            } else {
                Step::Abort(m.xid)
            }
        } else if !self.transactions.contains(m.xid) {
            Step::Nothing
        } else if self.transactions.roll_back(m.xid, m.subtransaction) {
            Step::Nothing
        } else {
            Step::Item(m.xid, Item::BackTo(m.subtransaction))
        }
    }
}

/// The items that a commit hands out: those of a spooled transaction that survived, if it isn't skipped.
fn handed_out(alloc: Global, way: OpenTransaction, is_skipped: bool) -> Vec<Item>
    ensures { result.items ≡ items_left is_skipped way }
{
    match way {
        OpenTransaction::Spooled(spool) if !is_skipped => spool.into_items(),
        _ => Vec::new(alloc),
    }
}
