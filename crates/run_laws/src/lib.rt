#![tactic(auto)]

// What a run is in the words of a world.
//
// A run without threads is a world that calls reach: each of its transactions opens, does what
// survived of it and commits, one after another, and where a conflict ended the run, the call of the
// one that is open clashes for the same cause, which stops the world. That is shown by what each
// message tells, and what then becomes of the transaction that was begun (`proofs/Begun`,
// `proofs/WorldAt`).
//
// In a run with workers several transactions are open at once, each with a beginning of its work
// done. So what such a run may do is said by a world alone: any of which each part is reached by
// parts of calls, with the commits of the state, and a cause of the end at it. Its promise
// (`IsThreadedRun`) shares items, what they lead to and status updates with the run without threads,
// and its laws say what they have in common. The run without threads is just one with no workers
// that ends at its first cause: the stream gives none at a shorter beginning of the items, and where
// a change of the transaction that was begun has clashed, the run ends by that. What a leader keeps
// of its transactions, so that it can show all this at its end, stands here too, with a lemma for
// each thing that it or a worker does (`proofs/Steps`, `proofs/Books`).
//
//   specs/Runs          a run in the words of a world
//   specs/Threads       the world of a state with workers
//   specs/ThreadedRun   why a run with workers ends, and what it leaves
//   specs/FirstCause    what a stream gives a run without threads to end by
//   specs/Leading       what a leader keeps of its transactions
//   specs/Turns         each thing that a leader or a worker does
//   specs/Statements    the laws as statements, which `laws` promises
//
// It has no code but the laws, and stands on `session` for the table, on `run` for items and
// what they lead to, on `world` for calls, and on `world_parts` for worlds by their parts.
pub mod laws;
