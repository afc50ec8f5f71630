// What a store is asked beside that is a part of another. A change of several parts is tried in each as the one
// item of a subtransaction of its own, so that a rollback takes just it back; once it is done in all, the
// subtransaction that made it adopts it.
ghost use Rattle.std.specs.Prelude.{◌≡◌, ◌≢◌, ◌++◌, ◌∷◌, [], ℕ, Some, None, IfOk, IfSome, length};
ghost use Rattle.std.specs.FinMap as finite;
ghost use Rattle.std.specs.List.{list_any};
ghost use Rattle.model.specs.declared.change.Change.{Change as AnyChange};
ghost use Rattle.model.specs.Named.{NamesTables};
ghost use Rattle.model.specs.Survivors.{is_of, survivors};
ghost use Rattle.savepoint.specs.Adopted.{CanAdopt};
ghost use Rattle.tokens.specs.Lists.{with_list};
ghost use Rattle.world.specs.Steps.{wanting};
ghost use Rattle.live_tables.specs.Adopting.{adopted_with};
ghost use Rattle.live_tables.specs.Answers.{TellsVerdict};
ghost use Rattle.live_tables.specs.Tried.{Tries, after_try};
ghost use Rattle.engine.specs.declared.events.Event.TheVariants.{Wants, Adopted};
ghost use Rattle.engine.specs.Events.{opened_by, tried_events};
ghost use Rattle.engine.specs.Engine.{IsOtherwiseSame};

use crate::events::Event;
use crate::store::{Store, record_act};
use crate::tickets::Ticket;
use live_tables::{Acted, EngineFault, Verdict};
use model::{Change, OutOfMemory, Xid};
use std::alloc::Global;
use std::marker::Brand;
use tokens::{Book, Items, Slip};

impl Store {
    /// A subtransaction of an open transaction tries a change, as by `act`. But a change that clashes alters
    /// nothing: it is told alone.
    #[tactic(auto, using(crate::proofs::StoreTickets::met_open))]
    pub fn try_change(
        &mut self,
        alloc: Global,
        t: &mut Ticket,
        sub: Xid,
        c: &Change,
    ) -> Result<Verdict, EngineFault>
        requires belongs { t.old.name ≡ self.old.tickets }
        requires names { NamesTables (length self.old.schema) c.now }
        ensures stood { finite.get self.old.world.opened t.old.number ≡ Some (opened_by t.old.list) }
        ensures tries { Tries self.old.schema self.old.world t.old.number (opened_by t.old.list) sub c.now result self.new.world }
        ensures world { self.new.world ≡ after_try self.old.world t.old.number (opened_by t.old.list) sub c.now result }
        ensures cause { TellsVerdict result }
        ensures ticket { t.new ≡ record t.old { list = t.old.list ++ tried_events sub c.now result } }
        ensures same { IsOtherwiseSame self.old self.new }
        ensures line { self.new.line ≡ self.old.line }
    {
        let xid = t.slip.number();
        self.book.meet(&mut t.slip);
        let answer = self.live.try_change(alloc, xid, sub, c);
        record_try(&mut self.book, &mut t.slip, sub, c, &answer);
        answer
    }

    /// The last item of an open transaction, a change and the only one of its subtransaction, becomes one
    /// of another, which has a savepoint or is the top transaction. It takes no memory.
    #[tactic(auto, using(crate::proofs::StoreTickets::met_open))]
    pub fn adopt(&mut self, t: &mut Ticket, own: Xid, sub: Xid)
        requires belongs { t.old.name ≡ self.old.tickets }
        requires can { CanAdopt t.old.number own sub (opened_by t.old.list).items }
        ensures stood { finite.get self.old.world.opened t.old.number ≡ Some (opened_by t.old.list) }
        ensures world { self.new.world ≡ adopted_with self.old.world t.old.number (opened_by t.old.list) sub }
        ensures ticket { t.new ≡ record t.old { list = t.old.list ++ Adopted sub ∷ [] } }
        ensures same { IsOtherwiseSame self.old self.new }
        ensures line { self.new.line ≡ self.old.line }
    {
        let xid = t.slip.number();
        self.book.meet(&mut t.slip);
        self.live.adopt(xid, own, sub);
        self.book.grow(&mut t.slip, &Event::Adopted(sub));
    }

    /// An open transaction of a store that isn't stopped waits with a change. It takes no memory.
    #[tactic(auto, using(crate::proofs::StoreTickets::met_open))]
    pub fn wait_with(&mut self, t: &mut Ticket, sub: Xid, change: Change)
        requires belongs { t.old.name ≡ self.old.tickets }
        requires names { NamesTables (length self.old.schema) change }
        requires running { self.old.world.stopped ≡ None }
        ensures stood { finite.get self.old.world.opened t.old.number ≡ Some (opened_by t.old.list) }
        ensures world { self.new.world ≡ wanting self.old.world t.old.number (opened_by t.old.list) sub change }
        ensures ticket { t.new ≡ record t.old { list = t.old.list ++ Wants sub change ∷ [] } }
        ensures same { IsOtherwiseSame self.old self.new }
        ensures line { self.new.line ≡ self.old.line }
    {
        let xid = t.slip.number();
        self.book.meet(&mut t.slip);
        record_act(
            &mut self.book,
            &mut t.slip,
            sub,
            &change,
            &Ok(Acted::Held(xid)),
        );
        self.live.wait_with(xid, sub, change);
    }

    /// Whether an item of an open transaction that no rollback has dropped names a subtransaction. Nothing
    /// changes, and it takes no memory.
    #[tactic(auto, using(crate::proofs::StoreTickets::met_open))]
    pub fn knows(&mut self, t: &mut Ticket, sub: Xid) -> bool
        requires { t.old.name ≡ self.old.tickets }
        ensures stood { finite.get self.old.world.opened t.old.number ≡ Some (opened_by t.old.list) }
        ensures knows { sub ≢ t.old.number → result ≡ list_any (is_of sub) (survivors t.old.number (opened_by t.old.list).items) }
        ensures ticket { t.new ≡ t.old }
        ensures same { self.new ≡ self.old }
    {
        let xid = t.slip.number();
        self.book.meet(&mut t.slip);
        self.live.knows(xid, sub)
    }

    /// The change that an open transaction waits with, or that clashed, and its subtransaction, as copies.
    /// Nothing changes.
    #[tactic(auto, using(crate::proofs::StoreTickets::met_open))]
    pub fn wanted(&mut self, t: &mut Ticket) -> Result<Option<(Xid, Change)>, OutOfMemory>
        requires { t.old.name ≡ self.old.tickets }
        ensures stood { finite.get self.old.world.opened t.old.number ≡ Some (opened_by t.old.list) }
        ensures wanted { IfOk result (λ wants. wants ≡ (opened_by t.old.list).wants) }
        ensures named { IfOk result (λ wants. IfSome wants (λ (p : ℕ × AnyChange). NamesTables (length self.old.schema) p.1)) }
        ensures ticket { t.new ≡ t.old }
        ensures same { self.new ≡ self.old }
    {
        let xid = t.slip.number();
        self.book.meet(&mut t.slip);
        self.live.wanted(xid)
    }
}

// Appends what a call that tried a change tells of its transaction, where a clash is told alone.
fn record_try(
    book: &mut Book<Event>,
    slip: &mut Slip<Event>,
    sub: Xid,
    c: &Change,
    answer: &Result<Verdict, EngineFault>,
)
    requires { slip.old.name ≡ book.old.name }
    ensures listed { finite.get book.old.lists slip.old.number ≡ Some slip.old.list }
    ensures book { book.new ≡ with_list book.old slip.old.number (slip.old.list ++ tried_events sub c.now answer.now) }
    ensures slip { slip.new ≡ record slip.old { list = slip.old.list ++ tried_events sub c.now answer.now } }
{
    grow_try::<Brand>(book, slip, sub, c, answer);
}

fn grow_try<N: Items<Event>>(
    book: &mut Book<Event>,
    slip: &mut Slip<Event>,
    sub: Xid,
    c: &Change,
    answer: &Result<Verdict, EngineFault>,
)
    requires name { slip.old.name ≡ book.old.name }
    requires items { N.items ≡ tried_events sub c.now answer.now }
    ensures listed { finite.get book.old.lists slip.old.number ≡ Some slip.old.list }
    ensures book { book.new ≡ with_list book.old slip.old.number (slip.old.list ++ tried_events sub c.now answer.now) }
    ensures slip { slip.new ≡ record slip.old { list = slip.old.list ++ tried_events sub c.now answer.now } }
{
    let _ = sub;
    let _ = c;
    let _ = answer;
    book.grow_by::<N>(slip);
}
