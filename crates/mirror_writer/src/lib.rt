#![tactic(auto)]

// Who hands a run's commits to where they are kept, while the run goes on.
//
// A `CommitWriter` watches a run. In its turns it takes the commits that were not kept yet, as copies, and
// hands them on, so many at once; then it tells how far that has come to whoever holds status updates back.
// Where nothing is committed it waits until a commit wakes it. A commit that was kept already is not kept
// again: it stops. Where it stops, what was kept stays at its position, and whoever waits for it hears that
// it goes no further.
//
// What is promised. Unless it stopped, all commits that its reader has seen were kept, in order and each
// once (`IsUpTo`, by `Watch::knows`); once the run has ended, all commits of the run (`finish`). What kept
// means whoever keeps them says (`Keep::has_kept`): of a SQLite file it is that some of them at a time were
// written in one transaction (`HasFollowed`).
//
//   commit_writer  `CommitWriter`, the watcher
//   keep           `Keep`, where commits are kept
//   file_keep      `FileKeep`, in a SQLite file
//   line_keep      `LineKeep`, as lines of JSON
//   keeping        `Keeping`, in two places, or in one of them
//   taken          `Taken`, commits that were taken from a run
//   stop           `Stop`, why commits are kept no further
//   between        `Between`, what is done between two transactions of a file
//
//   specs/Kept   what of a run's commits was kept
//
// It stands on `snapshot` for watching, `mirror_file` for the file, and `mirror_devices` for who waits.
mod between;
mod commit_writer;
mod file_keep;
mod keep;
mod keeping;
mod line_keep;
mod stop;
mod taken;

pub use between::{Between, Nothing};
pub use commit_writer::CommitWriter;
pub use file_keep::FileKeep;
pub use keep::Keep;
pub use keeping::Keeping;
pub use line_keep::LineKeep;
pub use stop::Stop;
pub use taken::Taken;
