// The end of the open transactions, all at once.
ghost use Rattle.std.specs.Prelude.{◌≡◌};
ghost use Rattle.world.specs.World.{World};
ghost use Rattle.live_tables.specs.Shut.{IsShut};
ghost use Rattle.live_tables.specs.Represents.{Represents};

use crate::live_tables::Live;

impl Live {
    /// Each open transaction is gone, its changes undone and its cells let go. It takes no memory.
    pub fn abort_all(&mut self)
        requires { (w : World) × Represents w self.old }
        ensures shut { (w : World) → Represents w self.old → (v : World) × IsShut self.old.tables.schema w v × Represents v self.new }
        ensures schema { self.new.tables.schema ≡ self.old.tables.schema }
    {
        while let Some((xid, _)) = self.transactions.first_key_value() {
            let xid = *xid;
            self.abort(xid);
        }
    }
}
