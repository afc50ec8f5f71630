#![tactic(auto)]

// Admits the messages of a stream, one after another, and says what each asks for.
//
// A publisher sends the messages of whole transactions between Begin and Commit, and those of large
// ones in blocks between Stream Start and Stream Stop, while they still run (PostgreSQL manual:
// Streaming Replication Protocol, Logical Streaming Replication; CREATE SUBSCRIPTION, `streaming`).
// The session knows which messages may come next, and refuses the others by name. It learns
// relations, plans each row message as it comes, and answers one `Step` a message. What may come in
// which state is one table with a line a message and a column a state, `specs/Table`; a stream is
// lawful if each of its messages has a step there.
//
// The first streamed transactions get a worker each, as long as there are workers. The items of any
// other are kept here, in its spool, cut where a subtransaction is rolled back, and handed out at its
// commit. To find a transaction takes a look-up among the open ones, to keep an item the work of
// one, and a cut the work of the items that it drops.
//
// `specs/Represents` says when what is kept represents a state of the table. By its contract `admit` takes
// the session from one state of the table to the next: an answer tells exactly what the message that
// the payload spells does there, and a change that it gives names tables of the catalog alone. A
// refusal is the fault that stands in the payload, or the table's own, or says that memory was refused,
// and the session then represents what it did before. An item that the spools have no room for is
// refused, and the commit of a spooled transaction hands out the items that survive its rollbacks.
// `laws` has what follows of whole streams: payloads lead to one state at most, and what is admitted is
// not refused, but for memory.
//
// It stands on `messages`, which reads payloads, `relcache`, which learns relations and plans rows,
// and `savepoint`, which has the items of transactions and cuts them at savepoints.
mod fault;
pub mod laws;
mod phase;
mod relations;
mod session;
mod spool;
mod step;
mod transactions;

pub use fault::{Refused, SessionFault};
pub use session::Session;
pub use step::Step;
