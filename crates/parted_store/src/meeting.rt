// What a part and a ticket tell of one another, and whom a transaction waits for in a part.
ghost use Rattle.std.specs.Prelude.{◌≡◌, ℕ, false, Some, None, IfSome, MatchOption, is_some, slice_get};
ghost use Rattle.engine.specs.Events.{opened_by};
ghost use Rattle.table_parts.specs.Part.{Part as AnyPart};
ghost use Rattle.parted_store.specs.EachPart.{BelongEach};
ghost use Rattle.parted_store.specs.Lent.{Belongs, Stands, WaitsIn};
ghost use Rattle.parted_store.specs.Shares.{share_of};

use crate::boxed::BoxedPart;
use crate::shares::{put_share, take_share};
use crate::ticket::Ticket;
use model::Xid;
use table_parts::Part;

/// Learns that in the part the ticket's transaction has done just what its share tells, if it has one. Nothing
/// changes, and it takes no memory.
pub fn meet_in(part: &mut Part, ticket: &mut Ticket)
    requires { Belongs part.old ticket.old.shares }
    ensures stands { Stands part.old ticket.old.shares }
    ensures part { part.new ≡ part.old }
    ensures ticket { ticket.new ≡ ticket.old }
    ensures xid { ticket.new.number ≡ ticket.old.number }
    ensures events { ticket.new.events ≡ ticket.old.events }
    ensures shares { (table : ℕ) → share_of ticket.new.shares table ≡ share_of ticket.old.shares table }
{
    let table = part.number();
    if let Some(mut share) = take_share(&mut ticket.shares, table) {
        part.meet(&mut share);
        put_share(&mut ticket.shares, table, share);
    }
}

/// Whom the ticket's transaction waits for in the part: another, which holds there a cell of the
/// change that it wants there. Nothing changes, and it takes no memory.
pub fn holder_in(part: &mut Part, ticket: &mut Ticket) -> Option<Xid>
    requires { Belongs part.old ticket.old.shares }
    ensures stands { Stands part.old ticket.old.shares }
    ensures held { IfSome result (WaitsIn part.old ticket.old.shares) }
    ensures free { result ≡ None → (holder : ℕ) → ¬ (WaitsIn part.old ticket.old.shares holder) }
    ensures part { part.new ≡ part.old }
    ensures ticket { ticket.new ≡ ticket.old }
{
    let table = part.number();
    let Some(mut share) = take_share(&mut ticket.shares, table) else {
        return None;
    };
    let holder = part.holder_of(&mut share);
    put_share(&mut ticket.shares, table, share);
    holder
}

/// Learns so in each of the parts that are lent. Nothing changes, and it takes no memory.
pub fn meet_each(parts: &mut [BoxedPart], ticket: &mut Ticket)
    requires { BelongEach parts.old ticket.old.shares }
    ensures stands { (i : ℕ) (p : AnyPart) → slice_get parts.old i ≡ Some p → Stands p ticket.old.shares }
    ensures parts { parts.new ≡ parts.old }
    ensures xid { ticket.new.number ≡ ticket.old.number }
    ensures events { ticket.new.events ≡ ticket.old.events }
    ensures shares { (table : ℕ) → share_of ticket.new.shares table ≡ share_of ticket.old.shares table }
{
    for i in 0..parts.len() {
        meet_boxed(&mut parts[i], ticket);
    }
}

// The same as `meet_in` of a part in its box.
fn meet_boxed(part: &mut BoxedPart, ticket: &mut Ticket)
    requires { Belongs part.old ticket.old.shares }
    ensures stands { Stands part.old ticket.old.shares }
    ensures part { part.new ≡ part.old }
    ensures xid { ticket.new.number ≡ ticket.old.number }
    ensures events { ticket.new.events ≡ ticket.old.events }
    ensures shares { (table : ℕ) → share_of ticket.new.shares table ≡ share_of ticket.old.shares table }
{
    meet_in(part.part(), ticket);
}

/// Whether the ticket's transaction waits in the part with a change, or has one there that clashed:
/// without a share it does neither. Nothing changes, and it takes no memory.
pub fn wants_in(part: &mut Part, ticket: &mut Ticket) -> bool
    requires { Belongs part.old ticket.old.shares }
    ensures wants { MatchOption (share_of ticket.old.shares part.old.number) (result ≡ false) (λ share. result ≡ is_some (opened_by share.list).wants) }
    ensures part { part.new ≡ part.old }
    ensures ticket { ticket.new ≡ ticket.old }
{
    let table = part.number();
    let Some(mut share) = take_share(&mut ticket.shares, table) else {
        return false;
    };
    let wants = part.wants(&mut share);
    put_share(&mut ticket.shares, table, share);
    wants
}
