#![tactic(auto)]

// The live tables, with the work of all open transactions in them.
//
// `Live` has the tables, a record of what each open transaction has done and how that is taken back,
// what each holds, and what stopped them; it knows no ticket and no journal. Its calls are said for
// every world that it stands for (`specs/Represents`): the tables are the world's live rows, each record
// tells its transaction's surviving items, its inverses take back just these, those up to each
// savepoint the ones before it, and all of them can be put back now, whatever the others did since;
// each open transaction holds just the cells of its work; and beside each of these lies what stood
// there.
//
// The laws say that each call keeps this. What they ask of tables and records is what `change`,
// `undo` and `savepoint` promise of their calls (`specs/CallResults`); what they give is that the world
// makes the step that `world` allows. A change asks the live tables alone: where no other
// transaction holds the cell of the row that it looks up, nor then any cell of its footprint there,
// what it does there is what it would do on its transaction's own view.
//
// A transaction that is alone holds nothing (`alone`): nobody is there who could meet it. It stands for
// its world by the holds that there would be, which no code knows. They are made (`made`) once a second
// opens, or at its first savepoint, and kept until none is open (`by_holds`).
//
// What is committed at a place is read by the holds (`before_image`): nobody else can alter it while it is
// held. So the committed rows of a table are the live ones, but at the places that are held what is
// committed there: two lists in key order, merged (`committed_rows`, `merging`). Who waits for whom is
// read by the live tables and the holds (`waits`), in place.
//
//   live_tables         `Live`: each call by the number of its transaction
//   alone, by_holds     the calls of one that is alone; those where holds are made
//   transaction         what it keeps of an open transaction
//   answers             what calls answer
//   shut                all open transactions end at once
//   let_go              cells are let go, and given up where no row fills them
//   cells, waits        who is in the way of a change; who waits for whom
//   before_image        what stood at a cell, which `row_source` reads
//   made                what a transaction that was alone holds, made from its items and its log
//   committed_rows      the committed rows of a table; `merging` them from two lists
//   laws, read_laws the laws
//
//   specs/Represents, Transactions      what ties the live part to a world; what a call does to a transaction
//   specs/ByHolds, ByHoldsLemmas   a store that represents its world by its holds, or by some
//   specs/LoneLemmas, WouldHoldLemmas   one whose transaction is alone
//   specs/BasicLemmas, MadeRoomLemmas    what the calls of one transaction have in common
//   specs/ActLemmas, EndedLemmas      a change; an opening, a touch, a rollback and both ends
//   specs/Tried                   what a change that is tried comes to
//   specs/ReadingLemmas               what is read of committed rows
//   specs/Shut, ShutLemmas          all open transactions are aborted
//   specs/Answers                 what the answers tell of a world
//   specs/Cells                   who is in the way, by the holds
//   specs/KeptRecords          what is kept of a world
//   specs/Held          what is held in it
//   specs/CallResults          what the layers below tell
//   specs/Statements          the laws as statements, which `laws` promises
//   specs/CallLemmas      the same as lemmas, for the calls
//   specs/KeptLemmas      a transaction opens, does, wants or is refused something
//   specs/BackToLemmas    a rollback
//   specs/EndLemmas       an abort and a commit
//   specs/ReleasedLemmas       what is given up when cells are let go
//   specs/RecordLemmas    the savepoints of a record and the logs up to them
//   specs/HoldsLemmas     the holds through each call
//   specs/MarksLemmas     what was held at each savepoint
//   specs/MarkedHoldsLemmas   a rollback of holds
//   specs/BeforeImages         what lies beside the cells that are held
//   specs/RowSource     where the row is read that is to lie beside a cell
//   specs/MadeHolds, MadeHoldsLemmas   holds that are made from changes and their inverses
//   specs/Merged        two lists of rows in the order of their keys, merged
//   specs/Waits         who waits for whom, by the live tables and the holds
//   specs/Journal       the rows after entries of a journal
//   specs/ReadStatements   the laws of these as statements, which `read_laws` promises
//   specs/BeforeImageCallLemmas    what lies beside the cells, through each call
//   specs/BeforeImageLemmas     the same for the cells of one transaction
//   specs/UnheldLemmas    rows that nobody holds
//   specs/ReadLemmas      the committed row at a place
//   specs/CellLemmas      the cells of what is held, and of changes
//   specs/WaitLemmas      who waits for whom
//   specs/StopLemmas      the call that stops a world in which all wait
//   specs/JournalLemmas   entries of a journal, one after another
//   specs/NamedLemmas     the tables that changes name
//
// It stands on `world` for the definitions, on `savepoint`, `undo`, `change` and `indexes` for tables
// and records, and on `keyholds` for the cells that are held.
mod alone;
mod answers;
pub mod before_image;
mod by_holds;
mod cells;
mod committed_rows;
pub mod laws;
mod let_go;
mod live_tables;
mod made;
mod merging;
pub mod read_laws;
mod row_source;
mod shut;
mod transaction;
mod waits;

pub use answers::{Acted, EngineFault, NotSettled, Stop, Verdict};
pub use live_tables::{Live, Stopped};
pub use transaction::OpenTransaction;
