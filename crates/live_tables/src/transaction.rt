// What a store keeps of an open transaction.
ghost use Rattle.std.specs.Prelude.{◌≡◌, ◌≢◌, ◌<◌, [], ◌∷◌, ◌++◌, None, IfOk, OnOk, OnErr, IfErr, length, option_to_list};
ghost use Rattle.model.specs.declared.item.Item.TheVariants.{Change as ChangeItem};
ghost use Rattle.model.specs.Named.{NamesTables};
ghost use Rattle.undo.specs.Undo.{CanUndo};
ghost use Rattle.savepoint.specs.Adopted.{EndsAlone};
ghost use Rattle.savepoint.specs.Savepoints.{mark_at};
ghost use Rattle.savepoint.specs.Record.{HasMark, OthersAreNamed, AllAreNamed, inverses_since};
ghost use Rattle.live_tables.specs.Answers.{verdict_of};
ghost use Rattle.live_tables.specs.CallResults.{IsRolledBack, IsFresh};
ghost use Rattle.live_tables.specs.Transactions.{WaitsNoMore, IsAsBefore, HasMadeRoom, HasApplied, HasRefused, HasTouched, IsAdopted};

use crate::answers::{EngineFault, Verdict};
use change::{Applied, Clash, Inverse, apply};
use indexes::Tables;
use model::{Change, OutOfMemory, Xid};
use savepoint::{Mark, TxRecord};
use std::alloc::Global;

/// An open transaction: what it has done and how that is taken back, the change that it waits with or
/// that clashed, with the subtransaction that made it, and how many items it has done, rollbacks
/// among them. The count stays at the greatest number once it is there.
#[derive(Debug, Drop)]
pub struct OpenTransaction {
    pub record: TxRecord,
    pub wants: Option<(Xid, Change)>,
    pub done: u64,
}

/// Why a change was not done, and the change.
#[derive(Drop)]
pub(crate) struct Refused {
    clash: Clash,
    change: Change,
}

impl Refused {
    /// What it comes to: memory was refused, or the change clashes.
    pub(crate) fn verdict(self) -> Result<Verdict, EngineFault>
        ensures { result ≡ verdict_of self.clash }
    {
        let Refused { clash, change: _ } = self;
        match clash {
            Clash::OutOfMemory => Err(EngineFault::OutOfMemory),
            Clash::Unique { .. } | Clash::NullKey { .. } => Ok(Verdict::Clashes(clash)),
        }
    }
}

impl OpenTransaction {
    /// One that has done nothing yet. It takes no memory.
    pub(crate) fn new(alloc: Global, xid: Xid) -> OpenTransaction
        ensures fresh { IsFresh xid result.record }
        ensures wants { result.wants ≡ None }
        ensures done { result.done ≡ 0 }
    {
        OpenTransaction {
            record: TxRecord::new(alloc, xid),
            wants: None,
            done: 0,
        }
    }

    /// Applies a change, and keeps it as an item with what takes it back. It says whether it was done,
    /// or skipped. A refusal leaves the tables, and of the record all but room. `held` is how many
    /// cells were held before it.
    pub(crate) fn apply(
        &mut self,
        alloc: Global,
        tables: &mut Tables,
        sub: Xid,
        change: Change,
        held: usize,
    ) -> Result<bool, Refused>
        requires names { NamesTables (length tables.old.schema) change }
        requires named { AllAreNamed self.old.record }
        ensures ok { IfOk result (λ done. HasApplied done sub change held tables.old tables.new self.old self.new) }
        ensures err { IfErr result (λ refused. HasRefused refused change tables.old tables.new self.old self.new) }
    {
        let is_first = self.record.mark_of(sub).is_none();
        if self.make_room(sub, held).is_err() {
            return Err(Refused {
                clash: Clash::OutOfMemory,
                change,
            });
        }
        match apply(alloc, tables, &change) {
            Ok(Applied::Done(inverse)) => {
                self.keep(sub, change, Some(inverse));
                Ok(true)
            }
            Ok(Applied::Skipped) => {
                self.keep(sub, change, None);
                Ok(false)
            }
            Err(clash) => {
                if is_first {
                    self.record.cut(sub);
                }
                Err(Refused { clash, change })
            }
        }
    }

    // Makes room for an item and its inverse, and sets the savepoint of a subtransaction that has none.
    fn make_room(&mut self, sub: Xid, held: usize) -> Result<(), OutOfMemory>
        requires named { AllAreNamed self.old.record }
        ensures ok { OnOk result (HasMadeRoom sub held self.old self.new) }
        ensures err { OnErr result (IsAsBefore self.old self.new) }
    {
        self.record.reserve()?;
        self.record.note(sub, held)
    }

    // Keeps a change as an item, in room that was made.
    fn keep(&mut self, sub: Xid, change: Change, inverse: Option<Inverse>)
        requires room { (0 < self.old.record.room) × (0 < self.old.record.log.room) }
        requires noted { HasMark self.old.record sub }
        requires named { OthersAreNamed self.old.record sub }
        ensures more { WaitsNoMore self.old self.new }
        ensures survivors { self.new.record.survivors ≡ self.old.record.survivors ++ ChangeItem sub change ∷ [] }
        ensures inverses { self.new.record.log.inverses ≡ self.old.record.log.inverses ++ option_to_list inverse }
        ensures marks { self.new.record.marks ≡ self.old.record.marks }
        ensures named { AllAreNamed self.new.record }
        ensures top { self.new.record.top ≡ self.old.record.top }
    {
        self.record.keep_change(sub, change, inverse);
        self.wants = None;
        self.done = self.done.saturating_add(1);
    }

    /// A subtransaction is named by an item that changes no row. A refusal leaves all but room.
    pub(crate) fn touch(&mut self, sub: Xid, held: usize) -> Result<(), OutOfMemory>
        requires named { AllAreNamed self.old.record }
        ensures ok { OnOk result (HasTouched sub held self.old self.new) }
        ensures err { OnErr result (IsAsBefore self.old self.new) }
    {
        self.make_room(sub, held)?;
        self.record.keep_touch(sub);
        self.wants = None;
        self.done = self.done.saturating_add(1);
        Ok(())
    }

    /// A subtransaction is rolled back: its changes and all later ones are undone. The answer is its
    /// savepoint's mark, if it had one. It takes no memory.
    pub(crate) fn go_back(&mut self, tables: &mut Tables, sub: Xid) -> Option<Mark>
        requires can_undo { CanUndo tables.old (inverses_since sub self.old.record) }
        requires named { AllAreNamed self.old.record }
        ensures more { WaitsNoMore self.old self.new }
        ensures mark { result ≡ mark_at sub self.old.record.marks }
        ensures back { IsRolledBack tables.old.schema tables.old tables.new sub self.old.record self.new.record }
    {
        self.wants = None;
        self.done = self.done.saturating_add(1);
        self.record.roll_back(tables, sub)
    }

    /// The last change, the only item of its subtransaction, becomes one of another. It takes no memory.
    pub(crate) fn adopt(&mut self, own: Xid, sub: Xid)
        requires last { EndsAlone own self.old.record.survivors }
        requires below { own ≢ self.old.record.top }
        requires apart { own ≢ sub }
        requires noted { HasMark self.old.record sub }
        requires named { AllAreNamed self.old.record }
        ensures { IsAdopted own sub self.old self.new }
    {
        self.record.adopt(own, sub);
        self.wants = None;
    }
}
