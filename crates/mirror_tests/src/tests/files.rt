// SQLite files in memory, and what they show.
use leader::Lsn;
use sqlite::types::ValueRef;
use sqlite::{Alter, Connection, Error, FileStore, Files, Options, Row};
use sqlite_disk::{Disk, Fuse, Memory};
use std::alloc::{AllocError, Global};
use std::fmt::Write;
use std::test::Fail;

/// Where a file in memory stands.
pub type Store = FileStore<Fuse<Memory>>;

/// Opens these files, if they can be used.
fn open_files<D: Disk + Drop>(
    alloc: Global,
    files: Files<D>,
    seed: u64,
) -> Option<Connection<FileStore<D>>> {
    if !files.may_be_used() {
        return None;
    }
    match Connection::open_files(alloc, files, Options::new(seed)) {
        Ok(conn) => Some(conn),
        Err(_) => None,
    }
}

/// A new file, whose log fails behind so many calls. None where it fails before the file is open.
pub fn open_new(alloc: Global, calls: u64) -> Option<Connection<Store>> {
    let files = Files {
        log: Fuse::new(Memory::new(alloc), calls),
        db: Fuse::new(Memory::new(alloc), u64::MAX),
    };
    open_files(alloc, files, 7)
}

/// The file as it was left, opened again; nothing of it fails.
pub fn open_again(alloc: Global, conn: Connection<Store>) -> Result<Connection<Store>, Fail> {
    let left = conn.into_store().close();
    let files = Files {
        log: copy_of(alloc, left.log.inner())?,
        db: copy_of(alloc, left.db.inner())?,
    };
    Ok(open_files(alloc, files, 8).ok_or("a file in memory that can't be opened again")?)
}

/// A disk of the same bytes.
fn copy_of(alloc: Global, from: &Memory) -> Result<Fuse<Memory>, Fail> {
    let mut to = Memory::new(alloc);
    to.write_at(0, from.bytes())?;
    to.sync()?;
    Ok(Fuse::new(to, u64::MAX))
}

/// The rows in the order of their keys, as `1|a|n;`.
pub fn rows_of<S: Alter>(alloc: Global, conn: &mut Connection<S>) -> Result<String, Fail> {
    let mut text = String::new(alloc);
    let sql = "SELECT id, email, note FROM accounts ORDER BY id";
    for row in &conn.query_all(sql, &[])? {
        push_row(&mut text, row)?;
    }
    Ok(text)
}

fn push_row(text: &mut String, row: &Row) -> Result<(), Fail> {
    push_value(text, row.get_ref(0)?)?;
    text.push_str("|")?;
    push_value(text, row.get_ref(1)?)?;
    text.push_str("|")?;
    push_value(text, row.get_ref(2)?)?;
    text.push_str(";")?;
    Ok(())
}

fn push_value(text: &mut String, value: ValueRef<'_>) -> Result<(), AllocError> {
    match value {
        ValueRef::Null => text.push_str("NULL"),
        ValueRef::Int(number) => write!(text, "{number}").map_err(|_| AllocError),
        ValueRef::Text(bytes) => text.push_str(std::str::from_utf8(bytes).unwrap_or("?")),
        _ => text.push_str("?"),
    }
}

/// The position that the file says.
pub fn position_of<S: Alter>(conn: &mut Connection<S>) -> Result<Lsn, Error> {
    let row = conn.query_row("SELECT lsn FROM pgapply_position", &[])?;
    let lsn: i64 = row.get(0)?;
    Ok(lsn.cast_unsigned())
}
