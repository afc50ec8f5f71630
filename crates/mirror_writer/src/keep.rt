// Where commits are kept.
ghost use Rattle.std.specs.Prelude.{List, [], ◌++◌, OnOk};

use crate::stop::Stop;
use mirror_statements::Commit;
use model::Lsn;

/// Where commits are kept, some at a time.
pub trait Keep {
    ghost use Rattle.std.specs.Prelude.{List};
    ghost use Rattle.world.specs.World.{Entry};

    /// Since it began it has kept these commits, one behind another, and nothing else.
    ghost has_kept: { Self → List Entry → Type 0 };

    /// Begins anew, behind all that it has.
    fn begin(&mut self)
        ensures { has_kept self.new [] };

    /// Keeps commits behind those that it has. The last of them ends at this position. Where it is refused,
    /// nobody keeps anything there any more.
    fn keep(&mut self, commits: &[Commit], end: Lsn) -> Result<(), Stop>
        ensures { (before : List Entry) → has_kept self.old before → OnOk result (has_kept self.new (before ++ commits.now)) };
}
