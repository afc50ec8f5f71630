#![tactic(auto)]

// Several open transactions over one committed state: what each call of an engine does to it.
//
// A world has the committed rows, the commits so far with the items done behind each, and for each
// open transaction the items that it has done and the change that it waits or clashed with. There
// are no live rows in it: each transaction works alone on the committed rows with its own changes,
// and an abort forgets a part of a list. `specs/Steps` says of each call, by its answer, which
// world comes after which; whoever keeps tables with undo logs and holds shows that its calls are
// these.
//
// The live rows are said of a world: the committed rows and then the work of one open transaction
// after the other, in any order (`specs/Live`). The laws say that this is one state, in every
// world that calls reach from valid rows: no two open transactions hold a cell in common, so that
// no change depends on another's. They say too how each call moves it: a change has its effect on
// it, the inverses of what a rollback drops take these changes back past all that others did, a
// commit leaves it. With no transaction open it is the commits' changes, one after another.
//
//   specs/World         the world; what a transaction sees, and what it holds
//   specs/Steps         a relation for each call; worlds that calls reach
//   specs/Live          the live rows
//   specs/Settled       when all wait for one another
//   specs/Statements          the laws as statements, which `laws` promises
//   specs/CallLemmas      the same as lemmas, for the layers above
//   specs/FineLemmas      what every world keeps that calls reach
//   specs/WorldLemmas     the live rows through each call, of a world that keeps it
//   specs/BackLemmas      the way back of one transaction past the others
//
// It has no code but the laws, and stands on `model` for rows, changes, footprints and survivors.
pub mod laws;
