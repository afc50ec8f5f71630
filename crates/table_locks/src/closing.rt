// The end of a store.
ghost use Rattle.std.specs.Prelude.{◌≡◌, ◌<◌, List, length, map};
ghost use Rattle.model.specs.Effect.{serial};
ghost use Rattle.world.specs.World.{Past, changes_in, entry_of};
ghost use Rattle.engine.specs.Engine.{entry_in};
ghost use Rattle.engine.specs.Events.{commits_in};
ghost use Rattle.world_parts.specs.ByTable.{rows_at};
ghost use Rattle.table_locks.specs.Closing.{AreLists, rows_after};
ghost use Rattle.table_locks.specs.Moving.{SameBeside};
ghost use Rattle.table_locks.specs.Starts.{AreKnown};

use crate::commits::TableCommit;
use crate::hidden::wait_for_ever;
use crate::journal::Journal;
use crate::moving::put_in;
use crate::names::StoreNames;
use crate::store::Store;
use crate::table_part::TablePart;
use engine::Entry;
use indexes::Tables;
use model::TableId;
use parted_store::Line;
use std::sync::{Mutex, Wait};
use tokens::Book;

impl<N: StoreNames> Store<N> {
    /// The tables and the journal, once all transactions that are still open were aborted: what
    /// they did is undone. No row is copied, and it takes no memory. What finds no part waits for
    /// ever.
    pub fn close<R: Wait>(self, rt: &R, line: Line) -> (Tables, Vec<Entry>)
        requires { line.name ≡ N.line }
        ensures rows { result.0.rows ≡ serial N.schema N.start (changes_in (commits_in line.list)) }
        ensures schema { result.0.schema ≡ N.schema }
        ensures entries { map entry_in result.1.items ≡ map entry_of (commits_in line.list) }
    {
        let Store {
            tables,
            journal,
            blank,
            ..
        } = self;
        let (book, entries) = journal.into_inner().end(line);
        (gather(rt, tables, book, blank), entries)
    }
}

impl<N: StoreNames> Journal<N> {
    // The halves of the lists of the tables' commits, and the entries.
    fn end(mut self, mut line: Line) -> (Book<TableCommit>, Vec<Entry>)
        requires { line.name ≡ N.line }
        ensures name { result.0.name ≡ N.tables }
        ensures lists { AreLists N.schema result.0 (commits_in line.list) }
        ensures entries { map entry_in result.1.items ≡ map entry_of (commits_in line.list) }
    {
        self.recall_invariant();
        self.meet(&mut line);
        let Journal { part, tables, .. } = self;
        (tables, part.into_entries())
    }
}

// The rows of all tables, each moved out of its part into these.
fn gather<N: StoreNames, R: Wait>(
    rt: &R,
    mut locks: Vec<Mutex<TablePart<N>>>,
    mut book: Book<TableCommit>,
    mut all: Tables,
) -> Tables
    requires locks { length locks.items ≡ length N.schema }
    requires name { book.name ≡ N.tables }
    requires keys { all.schema ≡ N.schema }
    requires known { AreKnown N.schema N.start }
    ensures rows { (commits : List Past) → AreLists N.schema book commits → result.rows ≡ rows_after N.schema N.start commits }
    ensures schema { result.schema ≡ N.schema }
{
    all.recall_invariant();
    while let Some(lock) = locks.pop() {
        move_rows(rt, lock.into_inner(), locks.len(), &mut book, &mut all);
    }
    all
}

// The rows of one of them.
fn move_rows<N: StoreNames, R: Wait>(
    rt: &R,
    mut table: TablePart<N>,
    number: TableId,
    book: &mut Book<TableCommit>,
    all: &mut Tables,
)
    requires known { number < length N.schema }
    requires name { book.old.name ≡ N.tables }
    requires keys { all.old.schema ≡ N.schema }
    ensures rows { (commits : List Past) → AreLists N.schema book.old commits
        → rows_at number all.new.rows ≡ rows_at number (rows_after N.schema N.start commits) }
    ensures beside { SameBeside number all.old.rows all.new.rows }
    ensures keys { all.new.schema ≡ N.schema }
    ensures book { book.new ≡ book.old }
{
    table.meet(book);
    if table.number() != number {
        wait_for_ever(rt)
    }
    put_in(all, number, table.take(rt).into_part().into_tables());
}
