// What a run is in the words of a world. Each function does nothing: its contract is a law, and the
// check of this crate proves it.
ghost use Rattle.run_laws.specs.Statements.{ThreadedIsSerial, OpenLeavesNothing, WorkersAlterNothing};
ghost use Rattle.run_laws.specs.Statements.{CleanIsWithoutThreads, CleanWhereThereIsRoom};
ghost use Rattle.run_laws.specs.Statements.{OneIsOpenWithoutWorkers};
ghost use Rattle.run_laws.specs.Statements.{RunIsWithoutWorkers, EndsAtFirstCause, FirstCauseIsWithoutThreads};
ghost use Rattle.run_laws.specs.Statements.{EachMomentIsInStep, InStepIsWorld};
ghost use Rattle.run_laws.specs.Statements.{NotedClashIsConflict, HeldIsStuck};

/// Whatever leader and workers did, a run with workers leaves the commits of the items that were
/// handled, applied one after another in their order.
pub fn threaded_is_serial()
    ensures { ThreadedIsSerial }
{}

/// What was open at its end has left nothing.
pub fn open_leaves_nothing()
    ensures { OpenLeavesNothing }
{}

/// The same items lead to the same commits and status updates, however many workers there are.
pub fn workers_alter_nothing()
    ensures { WorkersAlterNothing }
{}

/// So a clean run leaves what a run without workers does that handles all items of the same bytes.
pub fn clean_is_without_threads()
    ensures { CleanIsWithoutThreads }
{}

/// Its journal, position and tables are those of any such run whose spools have room, and which
/// neither memory nor a device fails.
pub fn clean_where_there_is_room()
    ensures { CleanWhereThereIsRoom }
{}

/// Without workers one transaction is open at most, and none waits for another.
pub fn one_is_open_without_workers()
    ensures { OneIsOpenWithoutWorkers }
{}

/// A run without threads is a run with no workers that handled the same items.
pub fn run_is_without_workers()
    ensures { RunIsWithoutWorkers }
{}

/// It ends at its first cause: the stream gives none at what a shorter beginning of the items led to,
/// and where a change of the transaction that was begun has clashed, it ends by that.
pub fn ends_at_first_cause()
    ensures { EndsAtFirstCause }
{}

/// And a run with no workers that ends at its first cause is a run without threads, which handled
/// the same items.
pub fn first_cause_is_without_threads()
    ensures { FirstCauseIsWithoutThreads }
{}

/// Whatever a leader and its workers do, in whatever order: at each moment all transactions are in
/// step with the world.
pub fn each_moment_is_in_step()
    ensures { EachMomentIsInStep }
{}

/// Where a leader's transactions are in step with the world, that is one of its state.
pub fn in_step_is_world()
    ensures { InStepIsWorld }
{}

/// A clash that was noted there is the conflict that the run ends for.
pub fn noted_clash_is_conflict()
    ensures { NotedClashIsConflict }
{}

/// Where the call that stops a world answers a holder, nothing goes on.
pub fn held_is_stuck()
    ensures { HeldIsStuck }
{}
