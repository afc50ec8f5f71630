#![tactic(auto)]

// The position that is published after each commit, for any thread to load.
//
// Whoever applies transactions publishes how many were committed and where the last of them ends in
// the publisher's log. Others load both numbers at once, without the lock of the tables.
//
// A list says what is known of them: the end LSNs of the commits that were published, oldest first.
// A `Publisher` has all of it, of which there is one to an origin; a `Loader` has what it has seen.
//
//   - `load` answers the position behind the commits that its loader then has seen: all that it had
//     seen before, and maybe more. So whoever passes a loader on, or splits it for two threads,
//     passes on what it has seen, and nobody loads an older position with it.
//   - `wait_past` does the same once there is more than its caller has, or nothing more will come.
//   - What a loader has seen is a beginning of what was published; `meet` shows it. So what is
//     loaded was published, or is the position at the start: no commit, and LSN 0.
//   - Positions are published one commit after another, and the caller counts them. So a position
//     that is loaded has as many commits as LSNs were published up to its own.
//
// Callers owe that tokens belong to the origin. That a load sees what was published just before is
// tested, and that whoever waits is woken, and no clause says it. Only `Origin::new` can be refused;
// `publish`, `load` and `meet` may wait for each other, and `split` does not.
//
// Inside, an origin is a cell of two words. Each call on it takes effect at one step, a store by
// the publisher or a load, and `specs/Rule` is the rule that holds between any two of them.
// `specs/Commits` is what callers see, `specs/CommitLemmas` what follows of lists that grow.
//
//   position   `Position`
//   origin     `Origin`, `Publisher`, `Loader`
//   protocol   the cell's rule and its steps
//
// It stands on `crossbeam_utils` for the cell, on `atomic_table` for splitting and joining what
// tokens know, and on `model` for `Lsn` and `OutOfMemory`.
mod origin;
mod position;
mod protocol;

pub use origin::{Loader, Origin, Publisher};
pub use position::Position;
