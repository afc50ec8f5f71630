// An open transaction comes to a table.
ghost use Rattle.std.specs.Prelude.{◌≡◌, ◌≢◌, ℕ, None, IsSome, IfErr, OnOk, OnErr};
ghost use Rattle.std.specs.FinMap.{get};
ghost use Rattle.world.specs.World.{World};
ghost use Rattle.live_tables.specs.Answers.{IsNoClash};
ghost use Rattle.table_parts.specs.Part.{last_commit_end};
ghost use Rattle.parted_store.specs.KeepsSound.{KeepsSoundRunning};
ghost use Rattle.parted_store.specs.Lent.{HasTable, IsSamePart, Belongs, Stands};
ghost use Rattle.parted_store.specs.Shares.{share_of};

use crate::shares::{make_room, put_share, take_share};
use crate::ticket::Ticket;
use engine::EngineFault;
use std::alloc::Global;
use table_parts::Part;

/// An open transaction comes to a table, unless it is there: its ticket gets a share of the table's part.
/// Nothing is new in a world that has the part. A refusal leaves the ticket's shares; the part may refuse
/// what its own world refuses, as one that is stopped, and clashes with nothing.
pub fn come_to(alloc: Global, part: &mut Part, ticket: &mut Ticket) -> Result<(), EngineFault>
    requires { Belongs part.old ticket.old.shares }
    ensures share { OnOk result (IsSome (share_of ticket.new.shares part.new.number)) }
    ensures belongs { Belongs part.new ticket.new.shares }
    ensures part { (w : World) → HasTable w part.old → HasTable w part.new }
    ensures first { OnOk result (share_of ticket.old.shares part.old.number ≡ None → get part.old.store.world.opened ticket.old.number ≡ None) }
    ensures again { OnOk result (IsSome (share_of ticket.old.shares part.old.number)
        → (part.new ≡ part.old) × (share_of ticket.new.shares part.old.number ≡ share_of ticket.old.shares part.old.number)) }
    ensures stands { OnOk result (Stands part.new ticket.new.shares) }
    ensures events { ticket.new.events ≡ ticket.old.events }
    ensures xid { ticket.new.number ≡ ticket.old.number }
    ensures others { (other : ℕ) → other ≢ part.old.number → share_of ticket.new.shares other ≡ share_of ticket.old.shares other }
    ensures fault { IfErr result IsNoClash }
    ensures err { OnErr result ((other : ℕ) → share_of ticket.new.shares other ≡ share_of ticket.old.shares other) }
    ensures same { IsSamePart part.old part.new }
    ensures end { last_commit_end part.new ≡ last_commit_end part.old }
    ensures sound { KeepsSoundRunning part.old part.new }
{
    let table = part.number();
    make_room(&mut ticket.shares, table)?;
    if let Some(mut share) = take_share(&mut ticket.shares, table) {
        part.meet(&mut share);
        put_share(&mut ticket.shares, table, share);
        return Ok(());
    }
    let share = part.open(alloc, ticket.xid)?;
    put_share(&mut ticket.shares, table, share);
    Ok(())
}
