// What the part of a table is asked where a change is one of several tables.
ghost use Rattle.std.specs.Prelude.{◌≡◌, ◌≢◌, ◌<◌, ◌++◌, ◌∷◌, [], ℕ, Some, None, IfOk, IfErr, IfSome, OnErr, length};
ghost use Rattle.std.specs.FinMap as finite;
ghost use Rattle.std.specs.List.{list_any};
ghost use Rattle.model.specs.declared.change.Change.{Change as AnyChange};
ghost use Rattle.model.specs.Named.{NamesTables};
ghost use Rattle.model.specs.Survivors.{is_of, survivors};
ghost use Rattle.savepoint.specs.Adopted.{CanAdopt};
ghost use Rattle.world.specs.Steps.{wanting};
ghost use Rattle.live_tables.specs.declared.answers.EngineFault.TheVariants.{OutOfMemory as NoMemory};
ghost use Rattle.live_tables.specs.Adopting.{adopted_with};
ghost use Rattle.engine.specs.declared.events.Event.TheVariants.{Wants, Adopted};
ghost use Rattle.engine.specs.Engine.{IsOtherwiseSame};
ghost use Rattle.engine.specs.Events.{opened_by};
ghost use Rattle.table_parts.specs.Part.{Part as AnyPart, last_commit_end};
ghost use Rattle.table_parts.specs.Several.{Share, FitsOwn, IsSameAs, IsAttempted, IsKept, IsLeft, IsRefused, ComesTo};

use crate::part::Part;
use engine::{Acted, EngineFault, Ticket, Verdict};
use model::{Change, OutOfMemory, Xid};
use std::alloc::Global;
use world_parts::cutting::truncate_of;

/// A change that was done under a mark of its own, and what its transaction waited with before.
#[derive(Debug, Drop)]
pub struct Attempt {
    pub(crate) own: Xid,
    pub(crate) waited: Option<(Xid, Change)>,
}

/// What came of a truncate that a part attempts.
#[derive(Debug, Drop)]
pub enum Attempted {
    /// It is done, and to be kept or taken back.
    Done(Attempt),
    /// This transaction is in its way.
    Held(Xid),
}

impl Part {
    /// An open transaction truncates the table, as one of several: under a mark of its own, so that it can be
    /// taken back where another table is held or memory is refused. A refusal leaves what the transaction
    /// has done and waits with.
    pub fn attempt(
        &mut self,
        alloc: Global,
        t: &mut Ticket,
        mark: Xid,
    ) -> Result<Attempted, EngineFault>
        requires belongs { t.old.name ≡ self.old.store.tickets }
        requires known { self.old.number < length self.old.store.schema }
        ensures ok { IfOk result (λ came. ComesTo self.old t.old mark came self.new t.new) }
        ensures err { OnErr result (IsRefused self.old t.old self.new t.new) }
        ensures fault { IfErr result (λ fault. fault ≡ NoMemory) }
    {
        let waited = self.wanted(t)?;
        let Some(own) = self.own_mark(t, mark) else {
            return Err(EngineFault::OutOfMemory);
        };
        let cut = truncate_of(alloc, self.number())?;
        match self.try_change(alloc, t, own, &cut) {
            Ok(Verdict::Acted(Acted::Done)) => Ok(Attempted::Done(Attempt { own, waited })),
            Ok(Verdict::Acted(Acted::Held(holder))) => Ok(Attempted::Held(holder)),
            Ok(Verdict::Acted(Acted::Skipped)) | Ok(Verdict::Clashes(_)) => unreachable!(),
            Err(fault) => Err(fault),
        }
    }

    // A mark under which the table can be truncated so that a rollback to it takes just that back: the ticket's
    // where nothing came under it yet, or else any other.
    fn own_mark(&mut self, t: &mut Ticket, mark: Xid) -> Option<Xid>
        requires { t.old.name ≡ self.old.store.tickets }
        ensures fits { IfSome result (FitsOwn t.old mark) }
        ensures ticket { t.new ≡ t.old }
        ensures same { self.new ≡ self.old }
    {
        let xid = t.xid();
        if mark != xid && !self.knows(t, mark) {
            return Some(mark);
        }
        for own in 0..Xid::MAX {
            if own != xid && own != mark && !self.knows(t, own) {
                return Some(own);
            }
        }
        None
    }

    /// What was attempted comes under the ticket's mark. It takes no memory.
    pub fn keep(&mut self, t: &mut Ticket, attempt: Attempt, mark: Xid)
        requires belongs { t.old.name ≡ self.old.store.tickets }
        requires attempted { (p : AnyPart) × (share : Share) × (c : AnyChange) × IsAttempted p share mark c attempt self.old t.old }
        ensures kept { (p : AnyPart) (share : Share) (c : AnyChange) → IsAttempted p share mark c attempt self.old t.old → IsKept p share mark c self.new t.new }
        ensures same { IsSameAs self.old self.new }
    {
        if attempt.own != mark {
            self.adopt(t, attempt.own, mark);
        }
    }

    /// What was attempted is undone, and the transaction waits again with what it waited with before. It takes
    /// no memory.
    pub fn take_back(&mut self, t: &mut Ticket, attempt: Attempt)
        requires belongs { t.old.name ≡ self.old.store.tickets }
        requires attempted { (p : AnyPart) × (share : Share) × (mark : ℕ) × (c : AnyChange) × IsAttempted p share mark c attempt self.old t.old }
        ensures left { (p : AnyPart) (share : Share) (mark : ℕ) (c : AnyChange) → IsAttempted p share mark c attempt self.old t.old → IsLeft p share self.new t.new }
        ensures same { IsSameAs self.old self.new }
    {
        let Attempt { own, waited } = attempt;
        self.back_to(t, own);
        match waited {
            Some((mark, change)) => self.wait_with(t, mark, change),
            None => {}
        }
    }

    /// The last item of an open transaction, a change and the only one of its mark, comes under another
    /// mark of the table, or the top transaction. It takes no memory.
    pub fn adopt(&mut self, t: &mut Ticket, own: Xid, mark: Xid)
        requires belongs { t.old.name ≡ self.old.store.tickets }
        requires can { CanAdopt t.old.number own mark (opened_by t.old.list).items }
        ensures stood { finite.get self.old.store.world.opened t.old.number ≡ Some (opened_by t.old.list) }
        ensures in_part { self.new.store.world ≡ adopted_with self.old.store.world t.old.number (opened_by t.old.list) mark }
        ensures ticket { t.new ≡ record t.old { list = t.old.list ++ Adopted mark ∷ [] } }
        ensures same { IsOtherwiseSame self.old.store self.new.store }
        ensures number { self.new.number ≡ self.old.number }
        ensures end { last_commit_end self.new ≡ last_commit_end self.old }
    {
        self.store.adopt(t, own, mark);
    }

    /// An open transaction waits with a change. It takes no memory.
    pub fn wait_with(&mut self, t: &mut Ticket, mark: Xid, change: Change)
        requires belongs { t.old.name ≡ self.old.store.tickets }
        requires names { NamesTables (length self.old.store.schema) change }
        ensures stood { finite.get self.old.store.world.opened t.old.number ≡ Some (opened_by t.old.list) }
        ensures in_part { self.new.store.world ≡ wanting self.old.store.world t.old.number (opened_by t.old.list) mark change }
        ensures ticket { t.new ≡ record t.old { list = t.old.list ++ Wants mark change ∷ [] } }
        ensures same { IsOtherwiseSame self.old.store self.new.store }
        ensures number { self.new.number ≡ self.old.number }
        ensures end { last_commit_end self.new ≡ last_commit_end self.old }
    {
        self.store.wait_with(t, mark, change);
    }

    /// The change that an open transaction waits with in the table, or that clashed, and its mark, as
    /// copies. Nothing changes.
    pub fn wanted(&mut self, t: &mut Ticket) -> Result<Option<(Xid, Change)>, OutOfMemory>
        requires { t.old.name ≡ self.old.store.tickets }
        ensures stood { finite.get self.old.store.world.opened t.old.number ≡ Some (opened_by t.old.list) }
        ensures wanted { IfOk result (λ wants. wants ≡ (opened_by t.old.list).wants) }
        ensures named { IfOk result (λ wants. IfSome wants (λ (p : ℕ × AnyChange). NamesTables (length self.old.store.schema) p.1)) }
        ensures ticket { t.new ≡ t.old }
        ensures same { self.new ≡ self.old }
    {
        self.store.wanted(t)
    }

    /// Whether a change of an open transaction that no rollback has dropped came under this mark. Nothing
    /// changes, and it takes no memory.
    pub fn knows(&mut self, t: &mut Ticket, mark: Xid) -> bool
        requires { t.old.name ≡ self.old.store.tickets }
        ensures stood { finite.get self.old.store.world.opened t.old.number ≡ Some (opened_by t.old.list) }
        ensures knows { mark ≢ t.old.number → result ≡ list_any (is_of mark) (survivors t.old.number (opened_by t.old.list).items) }
        ensures ticket { t.new ≡ t.old }
        ensures same { self.new ≡ self.old }
    {
        self.store.knows(t, mark)
    }
}
