// The shares that an open transaction has in the tables' parts, by table.
ghost use Rattle.std.specs.Prelude.{◌≡◌, ◌≢◌, ◌<◌, ℕ, Some, None, IsSome, OnOk, length};
ghost use Rattle.parted_store.specs.Shares.{share_of};

use engine::Ticket as Share;
use model::{OutOfMemory, TableId};

/// Takes the share of a table out, if there is one. It takes no memory.
pub(crate) fn take_share(shares: &mut Vec<Option<Share>>, table: TableId) -> Option<Share>
    ensures share { result ≡ share_of shares.old.items table }
    ensures taken { share_of shares.new.items table ≡ None }
    ensures room { IsSome result → table < length shares.new.items }
    ensures long { length shares.new.items ≡ length shares.old.items }
    ensures others { (other : ℕ) → other ≢ table → share_of shares.new.items other ≡ share_of shares.old.items other }
{
    if table >= shares.len() {
        return None;
    }
    let share = shares[table].take();
    share
}

/// Puts the share of a table in, for which there is room. It takes no memory.
pub(crate) fn put_share(shares: &mut Vec<Option<Share>>, table: TableId, share: Share)
    requires { table < length shares.old.items }
    ensures share { share_of shares.new.items table ≡ Some share }
    ensures long { length shares.new.items ≡ length shares.old.items }
    ensures others { (other : ℕ) → other ≢ table → share_of shares.new.items other ≡ share_of shares.old.items other }
{
    shares[table] = Some(share);
}

/// Makes room for the share of a table. Refused for memory, no share has changed.
pub(crate) fn make_room(shares: &mut Vec<Option<Share>>, table: TableId) -> Result<(), OutOfMemory>
    ensures room { OnOk result (table < length shares.new.items) }
    ensures same { (other : ℕ) → share_of shares.new.items other ≡ share_of shares.old.items other }
{
    while shares.len() <= table {
        shares.push(None)?;
    }
    Ok(())
}
