// What a run leaves, looked at without memory: its rows in key order, what each look-up of an email finds,
// the journal change by change, the position and the end.
use leader::{
    Change, Changes, End, Entry, Key, KeyValues, Lsn, OutOfMemory, Outcome, RowView, Tables, Value,
    ValueRef, Xid,
};
use model::{ColumnPatchRef, KeptText, Patch, TableId};
use std::alloc::Global;
use std::fmt::Display;
use std::test::Fail;
use streams::{Column, Message, Tuple};
use testing::asserts::{assert_holds, assert_same};

/// The one table of these tests. Its emails are unique.
const ACCOUNTS: TableId = 0;

const EMAILS: usize = 1;

/// A commit: its changes by the messages that ask for them, and the rows that it leaves.
#[derive(Clone, Copy)]
pub struct Commit<'a> {
    /// Whose, where it stands, and where it ends.
    pub stamp: (Xid, Lsn, Lsn),
    pub changes: &'a [Message],
    pub rows: &'a [Tuple],
}

/// An email, and the key by which it is looked up.
#[derive(Drop)]
pub struct Email {
    text: &'static str,
    key: Key,
}

/// The emails that rows of these tests have, and some that none has.
pub fn emails(alloc: Global) -> Result<Vec<Email>, OutOfMemory> {
    let mut emails = Vec::new(alloc);
    for text in ["a", "b", "c", "d", "g", "z"] {
        let value = Value::Text(KeptText::from_str(alloc, text)?);
        let key = Key::from_value(alloc, value)?;
        emails.push(Email { text, key })?;
    }
    Ok(emails)
}

/// What a run leaves after so many commits: the rows and the position.
pub fn left<'a>(commits: &[Commit<'a>], start: &'a [Tuple], made: usize) -> (&'a [Tuple], Lsn) {
    match made.checked_sub(1).and_then(|last| commits.get(last)) {
        Some(commit) => (commit.rows, commit.stamp.2),
        None => (start, 0),
    }
}

/// The tables have these rows alone, the run stands at this position, and it ended so.
pub fn assert_left<C: Copy + Display>(
    outcome: &Outcome,
    (rows, position): (&[Tuple], Lsn),
    end: End,
    case: C,
) -> Result<(), Fail> {
    assert_holds(has_rows(&outcome.tables, rows), case)?;
    assert_same(outcome.position, position, case)?;
    assert_same(outcome.end, end, case)
}

/// The journal is a beginning of these commits, and the tables show the last of them: its rows alone, and
/// by each email the row that has it.
pub fn assert_made<C: Copy + Display>(
    outcome: &Outcome,
    commits: &[Commit<'_>],
    start: &[Tuple],
    emails: &[Email],
    case: C,
) -> Result<(), Fail> {
    let journal = outcome.journal.as_slice();
    let (rows, position) = left(commits, start, journal.len());
    assert_holds(are_first(journal, commits), case)?;
    assert_holds(has_rows(&outcome.tables, rows), case)?;
    assert_holds(finds(&outcome.tables, emails, rows), case)?;
    assert_same(outcome.position, position, case)
}

// Whether the accounts are these, in key order.
fn has_rows(tables: &Tables, rows: &[Tuple]) -> bool {
    if ACCOUNTS >= tables.len() {
        return false;
    }
    let mut count = 0usize;
    for row in tables.walk(ACCOUNTS) {
        if !rows.get(count).is_some_and(|tuple| is_row(tuple, &row)) {
            return false;
        }
        count = count.saturating_add(1);
    }
    count == rows.len()
}

// Whether each look-up of an email finds the one of these rows that has it.
fn finds(tables: &Tables, emails: &[Email], rows: &[Tuple]) -> bool {
    for email in emails {
        if !finds_email(tables, email, rows) {
            return false;
        }
    }
    true
}

fn finds_email(tables: &Tables, email: &Email, rows: &[Tuple]) -> bool {
    if ACCOUNTS >= tables.len() || tables.unique_count(ACCOUNTS) < EMAILS {
        return false;
    }
    match (
        tables.find_unique(ACCOUNTS, EMAILS, &email.key),
        with_email(rows, email.text),
    ) {
        (None, None) => true,
        (Some(key), Some(row)) => is_key(row.0, key),
        _ => false,
    }
}

fn with_email<'a>(rows: &'a [Tuple], email: &str) -> Option<&'a Tuple> {
    for row in rows {
        if matches!(row.1, Column::Text(text) if text == email) {
            return Some(row);
        }
    }
    None
}

fn is_row(tuple: &Tuple, row: &RowView<'_>) -> bool {
    row.len() == 3
        && is_value(tuple.0, row.column(0))
        && is_value(tuple.1, row.column(1))
        && is_value(tuple.2, row.column(2))
}

fn is_value(column: Column, found: Option<ValueRef<'_>>) -> bool {
    match (column, found) {
        (Column::Null, None) => true,
        (Column::Number(number), Some(ValueRef::Int(other))) => i64::from(number) == other,
        (Column::Text(text), Some(ValueRef::Text(other))) => text == other,
        _ => false,
    }
}

fn is_key(column: Column, key: &Key) -> bool {
    match (column, key.values()) {
        (Column::Number(number), KeyValues::Int(other)) => i64::from(number) == other,
        _ => false,
    }
}

// Whether the journal is a beginning of these commits.
fn are_first(journal: &[Entry], commits: &[Commit<'_>]) -> bool {
    if journal.len() > commits.len() {
        return false;
    }
    for (entry, commit) in journal.iter().zip(commits) {
        if !is_entry(entry, commit) {
            return false;
        }
    }
    true
}

fn is_entry(entry: &Entry, commit: &Commit<'_>) -> bool {
    let (xid, at, end) = commit.stamp;
    entry.xid == xid
        && entry.commit == at
        && entry.end == end
        && are_changes(&entry.changes, commit.changes)
}

fn are_changes(changes: &Changes, messages: &[Message]) -> bool {
    let mut count = 0usize;
    for change in changes.iter() {
        if !messages
            .get(count)
            .is_some_and(|message| is_change(change, message))
        {
            return false;
        }
        count = count.saturating_add(1);
    }
    count == messages.len()
}

// Whether a change is the one that a message asks for.
fn is_change(change: &Change, message: &Message) -> bool {
    match (change, *message) {
        (
            Change::Put {
                table: ACCOUNTS,
                row,
            },
            Message::Insert(_, new),
        ) => { is_row(&new, &RowView::of_row(row)) }
        (
            Change::Set {
                table: ACCOUNTS,
                key,
                patch,
            },
            Message::Update(_, new),
        ) => { is_key(new.0, key) && is_patch(new, patch) }
        (
            Change::Set {
                table: ACCOUNTS,
                key,
                patch,
            },
            Message::UpdateAt(_, _, old, new),
        ) => { is_key(old.0, key) && is_patch(new, patch) }
        (
            Change::Remove {
                table: ACCOUNTS,
                key,
            },
            Message::DeleteAt(_, _, old),
        ) => { is_key(old.0, key) }
        (Change::Wipe { tables }, Message::Other(b'T', _, _)) => matches!(tables.ids(), [ACCOUNTS]),
        _ => false,
    }
}

fn is_patch(tuple: Tuple, patch: &Patch) -> bool {
    patch.len() == 3
        && is_patched(tuple.0, patch.column(0))
        && is_patched(tuple.1, patch.column(1))
        && is_patched(tuple.2, patch.column(2))
}

fn is_patched(column: Column, patch: ColumnPatchRef<'_>) -> bool {
    match patch {
        ColumnPatchRef::Keep => matches!(column, Column::Kept),
        ColumnPatchRef::Null => matches!(column, Column::Null),
        ColumnPatchRef::Value(value) => is_value(column, Some(value)),
    }
}
