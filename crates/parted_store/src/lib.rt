#![tactic(auto)]

// The calls of a store whose tables lie apart, each over the parts that it needs.
//
// Such a store has a part for each table (`table_parts`), and a journal's part for what is no table's: the
// commits, who is open, and what stopped it. Who opens a transaction gets its `Ticket`, with a share in the
// part of each table that it came to. A call is lent the parts that it needs, several of them as a slice
// of boxes, and its contract says: in every world that has these parts it is the step of `world`, the world
// behind it has what the parts are then, and the parts of other tables stay. So whoever has the parts can
// make the call, whatever others do meanwhile in other tables. Behind it the ticket tells of each part that
// was lent what its transaction did there, and the part's own world is sound where it was.
//
// A ticket alone knows what happened to its transaction, and keeps the items that it has done, of which a
// commit makes the journal's entry. Where a ticket has no share its transaction has nothing, so a commit or
// an abort needs the parts of the shares and the journal's, known at run time alone.
//
//   journal       `Journal`, the part that is no table's, and its `Line`
//   ticket        `Ticket`; shares: its shares of the tables' parts; marks: its subtransactions' marks; told: a
//                 list of which one hand has all
//   boxed         the part of a table in a box, as it is lent
//   coming        an open transaction comes to a table
//   acting        a change that is tried in the part of its table
//   clashing      one that clashes, and stops the store
//   touching      an item that changes no row
//   meeting       what a part and a ticket tell of one another
//   truncating    a truncate of several tables, tried in the part of each
//   back          a rollback of a subtransaction, part by part
//   ends          a commit and an abort, part by part
//
//   specs/Lent                    what a call is lent of a world
//   specs/Acting, Touching, Back, Ends    what the calls do
//   specs/KeepsSound      that a call keeps the parts' own worlds sound
//   specs/Journal, Ticket, Shares    what the types keep
//   specs/..Lemmas                what follows, from one call to the next
//
// It stands on `table_parts` for the part of a table, on `world_parts` for the laws of parts, on `tokens`,
// and on `engine` for events.
mod acting;
mod back;
mod boxed;
mod clashing;
mod coming;
mod ends;
mod journal;
mod marks;
mod meeting;
mod shares;
mod ticket;
mod told;
mod touching;
mod truncating;

pub use acting::act_in;
pub use back::back_to_in;
pub use boxed::BoxedPart;
pub use clashing::clash_in;
pub use coming::come_to;
pub use ends::{abort_in, commit_in};
pub use journal::{Journal, Line, Seen};
pub use meeting::{holder_in, meet_each, meet_in, wants_in};
pub use ticket::Ticket;
pub use touching::touch_in;
pub use truncating::truncate_in;
