// A subtransaction is rolled back, or named.
ghost use Rattle.std.specs.Prelude.{◌≡◌, ◌≤◌, ◌++◌, ◌∷◌, [], IfErr, length};
ghost use Rattle.model.specs.declared.item.Item.TheVariants.{BackTo};
ghost use Rattle.live_tables.specs.Answers.{told_call};
ghost use Rattle.engine.specs.declared.events.Event.TheVariants.{Done};
ghost use Rattle.engine.specs.Events.{touch_events};
ghost use Rattle.parted_store.specs.Touching.{IsRefusal};
ghost use Rattle.table_locks.specs.Tickets.{waits_after as after};

use crate::locks::{lend_its, no_guards, no_guards_of_few, put_each};
use crate::names::StoreNames;
use crate::stopping::count_in;
use crate::store::Store;
use crate::table_part::TablePart;
use crate::ticket::{Ticket, Waits, count_one, count_touched};
use engine::EngineFault;
use model::Xid;
use parted_store::{back_to_in, touch_in};
use std::sync::{MutexGuard, Wait};

impl<N: StoreNames> Store<N> {
    /// A subtransaction of an open transaction is rolled back, also in a store that is stopped. It
    /// takes the locks of the tables in which the transaction did something, and the journal's. It
    /// takes no memory.
    pub fn back_to<R: Wait>(&self, rt: &R, ticket: &mut Ticket<N>, sub: Xid)
        ensures events { ticket.new.events ≡ ticket.old.events ++ Done (BackTo sub) ∷ [] }
        ensures xid { ticket.new.number ≡ ticket.old.number }
    {
        if self.has_few_tables() {
            let mut guards = no_guards_of_few(self);
            self.back_with(rt, &mut guards, ticket, sub);
        } else {
            let mut guards = no_guards(self);
            self.back_with(rt, &mut guards, ticket, sub);
        }
    }

    // With the places in which its guards are to lie.
    fn back_with<'a, R: Wait>(
        &'a self,
        rt: &R,
        guards: &mut [Option<MutexGuard<'a, TablePart<N>>>],
        ticket: &mut Ticket<N>,
        sub: Xid,
    )
        requires { length N.schema ≤ length guards.old }
        ensures events { ticket.new.events ≡ ticket.old.events ++ Done (BackTo sub) ∷ [] }
        ensures xid { ticket.new.number ≡ ticket.old.number }
    {
        lend_its(rt, self, &mut ticket.ticket, guards, &mut ticket.lent);
        let xid = ticket.ticket.xid();
        let before = count_in(&ticket.lent, xid);
        back_to_in(ticket.lent.as_mut_slice(), &mut ticket.ticket, sub);
        self.tell_back(rt, xid, count_in(&ticket.lent, xid).wrapping_sub(before));
        put_each(guards, &mut ticket.lent);
        ticket.waits = Waits::Nowhere;
        ticket.done = count_one(ticket.done);
    }

    // A rollback is counted, of which the parts that are lent count so many more, and a move is.
    fn tell_back<R: Wait>(&self, rt: &R, xid: Xid, counted: u64) {
        let mut journal = self.journal.lock(rt);
        journal.count_items(xid, 1, counted);
        journal.count_move();
        self.moved.notify_all();
    }

    /// A subtransaction of an open transaction is named by an item that changes no row. It takes
    /// the journal's lock, and where the transaction may wait those of the tables in which it did
    /// something. A refusal is listed, and changes nothing else.
    pub fn touch<R: Wait>(
        &self,
        rt: &R,
        ticket: &mut Ticket<N>,
        sub: Xid,
    ) -> Result<(), EngineFault>
        ensures fault { IfErr result IsRefusal }
        ensures events { ticket.new.events ≡ ticket.old.events ++ touch_events sub (told_call result) }
        ensures xid { ticket.new.number ≡ ticket.old.number }
    {
        if let Waits::Nowhere = ticket.waits {
            let mut journal = self.journal.lock(rt);
            let touched = touch_in(&mut [], &journal.part, &mut ticket.ticket, sub);
            journal.count_touched(ticket.ticket.xid(), &touched, 0);
            ticket.done = count_touched(ticket.done, &touched);
            return touched;
        }
        let mut guards = no_guards(self);
        self.touch_with(rt, &mut guards, ticket, sub)
    }

    // With the places in which its guards are to lie.
    fn touch_with<'a, R: Wait>(
        &'a self,
        rt: &R,
        guards: &mut [Option<MutexGuard<'a, TablePart<N>>>],
        ticket: &mut Ticket<N>,
        sub: Xid,
    ) -> Result<(), EngineFault>
        requires { length N.schema ≤ length guards.old }
        ensures fault { IfErr result IsRefusal }
        ensures events { ticket.new.events ≡ ticket.old.events ++ touch_events sub (told_call result) }
        ensures xid { ticket.new.number ≡ ticket.old.number }
    {
        lend_its(rt, self, &mut ticket.ticket, guards, &mut ticket.lent);
        ticket.ticket.recall_invariant();
        let xid = ticket.ticket.xid();
        let before = count_in(&ticket.lent, xid);
        let mut journal = self.journal.lock(rt);
        let touched = touch_in(
            ticket.lent.as_mut_slice(),
            &journal.part,
            &mut ticket.ticket,
            sub,
        );
        let counted = count_in(&ticket.lent, xid).wrapping_sub(before);
        journal.count_touched(xid, &touched, counted);
        drop(journal);
        put_each(guards, &mut ticket.lent);
        ticket.waits = waits_after(ticket.waits, &touched);
        ticket.done = count_touched(ticket.done, &touched);
        touched
    }
}

// In which tables a transaction waits once a subtransaction was named, if it was.
fn waits_after(waits: Waits, touched: &Result<(), EngineFault>) -> Waits
    ensures { result ≡ after waits (told_call touched.now) }
{
    match touched {
        Ok(()) => Waits::Nowhere,
        Err(_) => waits,
    }
}
