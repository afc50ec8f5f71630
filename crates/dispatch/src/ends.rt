// The ends that a store gives a run.
ghost use Rattle.std.specs.Prelude.{◌≡◌};
ghost use Rattle.run.specs.declared.end.End.TheVariants.{OutOfMemory as NoMemory};
ghost use Rattle.dispatch.specs.Standing.{IsStopEnd, stop_end, fault_end};

use engine::{EngineFault, Stop};
use run::End;

/// The end of a run whose store was stopped. That nothing goes on stops a store only where the leader
/// finds so, and it ends the run by it at once; so it is not looked for elsewhere.
pub fn end_of_stop(stop: Stop) -> End
    ensures end { result ≡ stop_end stop }
    ensures stop { IsStopEnd result }
{
    match stop {
        Stop::Clash(_, clash) => End::from(clash),
        Stop::Held(_, _) => end_of_unasked(),
    }
}

/// The end of a run in which a call on the store was refused, by what has stopped the store, if
/// anything has. A session has the store's limits and refuses what would be too many, and nothing is
/// opened twice.
pub fn end_of_fault(fault: EngineFault, stop: Option<Stop>) -> End
    ensures end { result ≡ fault_end fault stop }
    ensures stop { IsStopEnd result }
{
    match (fault, stop) {
        (EngineFault::Clash(clash), _) => End::from(clash),
        (EngineFault::OutOfMemory, _) => End::OutOfMemory,
        (EngineFault::Stopped, Some(stop)) => end_of_stop(stop),
        (EngineFault::Stopped | EngineFault::AlreadyOpen | EngineFault::TooManyOpen, _) => {
            end_of_unasked()
        }
    }
}

/// The end of a run that asked for what is never asked for: a session gives no more transactions a
/// worker than there are, no item that is none of a transaction or of one that waits with another, and
/// nothing behind a commit that failed. No clause says so, and an end of a run has no name for it, so
/// it is told as memory that was refused, in this place alone.
pub fn end_of_unasked() -> End
    ensures { result ≡ NoMemory }
{
    End::OutOfMemory
}
