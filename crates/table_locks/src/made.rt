// What a store is made of before its names are chosen.
ghost use Rattle.std.specs.Prelude.{◌≡◌, ◌<◌, ◌≤◌, ℕ, [], Some, None, IfOk, IfErr, OnOk, OnErr, length, slice_get};
ghost use Rattle.std.specs.FinMap as finite;
ghost use Rattle.model.specs.Rows.{Rows};
ghost use Rattle.tokens.specs.Lists.{with_list};
ghost use Rattle.world_parts.specs.ByTable.{rows_at};
ghost use Rattle.table_locks.specs.Moving.{SameBeside};
ghost use Rattle.table_locks.specs.Starts.{MadeTable, IsBegun, IsMade, AreOver, AreUnused, AreKnown};

use crate::commits::TableCommit;
use crate::moving::{put_in, take_out};
use indexes::Tables;
use model::{OutOfMemory, TableId};
use parted_store::{BoxedPart, Journal, Line};
use std::alloc::Global;
use std::marker::Model;
use table_parts::Part;
use tokens::{Book, Slip};

/// What a store is made of: the part of each table, in the catalog's order, with its half of the
/// list of the table's commits; the journal's part; the other halves; and tables with the same
/// keys, which have no rows. Nothing has happened in it. The names of its tickets, line and lists
/// come with it, so those of the store are chosen when it is made of this.
#[derive(Debug, Drop)]
pub struct Made {
    pub(crate) tables: Vec<(BoxedPart, Slip<TableCommit>)>,
    pub(crate) journal: Journal,
    pub(crate) book: Book<TableCommit>,
    pub(crate) blank: Tables,
}

impl Model for Made {
    ghost use Rattle.table_locks.specs.Starts.{MadeStore, IsMade, made_code};

    ghost Value = { MadeStore };

    ghost coded = { made_code };

    ghost view = { λ m. record { tables = m.tables.items; journal = record { part = m.journal; tables = m.book }; blank = m.blank } };

    ghost invariant = { λ m. IsMade (record { tables = m.tables.items; journal = record { part = m.journal; tables = m.book }; blank = m.blank }) };
}

impl Made {
    /// For a store of so many empty tables with the same keys as these, and its line.
    pub fn new(alloc: Global, empty: &Tables) -> Result<(Made, Line), OutOfMemory>
        requires few { length empty.now.schema ≤ 1024 }
        requires empty { empty.now.rows ≡ finite.empty }
        ensures over { IfOk result (λ made. AreOver empty.now.schema (λ _. finite.empty) made.0.tables) }
        ensures long { IfOk result (λ made. length made.0.tables ≡ length empty.now.schema) }
        ensures blank { IfOk result (λ made. made.0.blank.schema ≡ empty.now.schema) }
        ensures line { IfOk result (λ made. made.1 ≡ made.0.journal.part.line) }
        ensures none { IfOk result (λ made. made.1.list ≡ []) }
    {
        match Made::of_tables(alloc, empty.copy()?) {
            Ok(made) => Ok(made),
            Err(_) => Err(OutOfMemory),
        }
    }

    /// For a store that begins with the rows of these tables, and its line. No row is copied.
    /// Refused for memory, the tables are handed back with all of their rows.
    pub fn of_tables(alloc: Global, mut start: Tables) -> Result<(Made, Line), Tables>
        requires few { length start.schema ≤ 1024 }
        ensures over { IfOk result (λ made. AreOver start.schema (λ number. rows_at number start.rows) made.0.tables) }
        ensures long { IfOk result (λ made. length made.0.tables ≡ length start.schema) }
        ensures blank { IfOk result (λ made. made.0.blank.schema ≡ start.schema) }
        ensures known { AreKnown start.schema start.rows }
        ensures line { IfOk result (λ made. made.1 ≡ made.0.journal.part.line) }
        ensures none { IfOk result (λ made. made.1.list ≡ []) }
        ensures schema { IfErr result (λ tables. tables.schema ≡ start.schema) }
        ensures rows { IfErr result (λ tables. tables.rows ≡ start.rows) }
    {
        start.recall_invariant();
        let Ok((journal, line)) = Journal::new(alloc) else {
            return Err(start);
        };
        let Ok(mut book) = Book::new(alloc) else {
            return Err(start);
        };
        let Ok(mut tables) = Vec::with_capacity(alloc, start.len()) else {
            return Err(start);
        };
        for number in 0..start.len() {
            let Ok(table) = cut(alloc, &mut book, number, &mut start) else {
                give_back(&mut start, tables);
                return Err(start);
            };
            tables.push_reserved(table);
        }
        let made = Made {
            tables,
            journal,
            book,
            blank: start,
        };
        Ok((made, line))
    }

    /// The tables with all of their rows, where no store is made of it. It takes no memory.
    pub fn into_tables(self) -> Tables
        requires over { (starts : ℕ → Rows) × AreOver self.blank.schema starts self.tables }
        requires long { length self.tables ≡ length self.blank.schema }
        ensures schema { result.schema ≡ self.blank.schema }
        ensures rows { (start : Rows) → AreOver self.blank.schema (λ number. rows_at number start) self.tables
            → AreKnown self.blank.schema start → result.rows ≡ start }
    {
        let Made {
            tables,
            mut blank,
            ..
        } = self;
        blank.recall_invariant();
        give_back(&mut blank, tables);
        blank
    }

    /// Tells a proof what its type keeps. It does nothing.
    pub fn recall_invariant(&self)
        ensures { IsMade self.now }
    {
        let _count = self.tables.len();
    }
}

// The part of a table, whose rows are taken out of these tables, and its half of the list of its
// commits, which is opened. A refusal takes no row.
fn cut(
    alloc: Global,
    book: &mut Book<TableCommit>,
    number: TableId,
    start: &mut Tables,
) -> Result<(BoxedPart, Slip<TableCommit>), OutOfMemory>
    requires few { length start.old.schema ≤ 1024 }
    requires known { number < length start.old.schema }
    requires closed { finite.get book.old.lists number ≡ None }
    ensures begun { IfOk result (λ t. IsBegun book.old.name number t) }
    ensures over { IfOk result (λ t. (t.0.store.schema ≡ start.old.schema) × (t.0.store.world.start ≡ rows_at number start.old.rows)) }
    ensures book { OnOk result (book.new ≡ with_list book.old number []) }
    ensures schema { start.new.schema ≡ start.old.schema }
    ensures taken { OnOk result (rows_at number start.new.rows ≡ finite.empty) }
    ensures beside { SameBeside number start.old.rows start.new.rows }
    ensures err { OnErr result (rows_at number start.new.rows ≡ rows_at number start.old.rows) }
{
    let own = take_out(start, number)?;
    match begin(alloc, book, number, own) {
        Ok(table) => Ok(table),
        Err(own) => {
            put_in(start, number, own);
            Err(OutOfMemory)
        }
    }
}

// The part of a table in which nothing has happened, over its rows alone, and its half of the list
// of its commits, which is opened. Refused for memory, the rows are handed back.
fn begin(
    alloc: Global,
    book: &mut Book<TableCommit>,
    number: TableId,
    start: Tables,
) -> Result<(BoxedPart, Slip<TableCommit>), Tables>
    requires few { number < 1024 }
    requires closed { finite.get book.old.lists number ≡ None }
    requires own { rows_at number start.rows ≡ start.rows }
    ensures begun { IfOk result (λ t. IsBegun book.old.name number t) }
    ensures over { IfOk result (λ t. (t.0.store.schema ≡ start.schema) × (t.0.store.world.start ≡ start.rows)) }
    ensures book { OnOk result (book.new ≡ with_list book.old number []) }
    ensures schema { IfErr result (λ tables. tables.schema ≡ start.schema) }
    ensures rows { IfErr result (λ tables. tables.rows ≡ start.rows) }
{
    start.recall_invariant();
    let part = Part::new(alloc, number, start)?;
    match BoxedPart::new(alloc, part) {
        Ok(part) => Ok((part, book.open(number as u32))),
        Err(part) => Err(part.into_tables()),
    }
}

// The rows of parts in which nothing has happened go back into the tables that they were taken out
// of. It takes no memory.
fn give_back(start: &mut Tables, mut tables: Vec<(BoxedPart, Slip<TableCommit>)>)
    requires known { length tables.items ≤ length start.old.schema }
    requires unused { AreUnused start.old.schema tables.items }
    ensures schema { start.new.schema ≡ start.old.schema }
    ensures back { (number : ℕ) (t : MadeTable) → slice_get tables.items number ≡ Some t → rows_at number start.new.rows ≡ rows_at number t.0.store.world.start }
    ensures beyond { (number : ℕ) → length tables.items ≤ number → rows_at number start.new.rows ≡ rows_at number start.old.rows }
{
    while let Some((part, _)) = tables.pop() {
        put_in(start, tables.len(), part.into_part().into_tables());
    }
}
