// Files behind streams that are cut, and in epochs of each size.
use super::files::{Store, open_again, open_new, position_of, rows_of};
use super::rounds::{Plan, catalog, follow};
use leader::{Catalog, End, Tables};
use mirror_file::{FileFault, note_system, open};
use sqlite::Connection;
use std::alloc::Global;
use std::fmt::Display;
use std::sync::Wait;
use std::test::Fail;
use std::thread::Threads;
use std::time::Clock;
use streams::story::{LEFT, Left, stream_of};
use testing::asserts::{assert_holds, assert_same};

/// A new file that doesn't fail.
pub fn new_file(alloc: Global) -> Result<Connection<Store>, Fail> {
    open_new(alloc, u64::MAX)
        .ok_or("a file in memory")
        .map_err(Fail::new)
}

/// The file has what a commit left.
pub fn assert_file<C: Copy + Display>(
    alloc: Global,
    conn: &mut Connection<Store>,
    left: &Left,
    case: C,
) -> Result<(), Fail> {
    assert_same(position_of(conn)?, left.position, case)?;
    let rows = rows_of(alloc, conn)?;
    assert_same(rows.as_str(), left.rows, case)
}

/// A file that followed the stream up to so many commits, and goes on with all of it.
fn follow_twice<R: Threads + Wait + Sync + Clock>(
    rt: &R,
    alloc: Global,
    (commits, left): (usize, &Left),
    plan: &Plan<'_>,
) -> Result<Connection<Store>, Fail> {
    let cut = stream_of(alloc, commits)?;
    let mut conn = new_file(alloc)?;
    let front = Plan {
        stream: cut.bytes(),
        ..*plan
    };
    let mut sent = Vec::new(alloc);
    follow(rt, alloc, &mut conn, &front, &mut sent)?;
    assert_file(alloc, &mut conn, left, commits)?;
    let mut conn = open_again(alloc, conn)?;
    follow(rt, alloc, &mut conn, plan, &mut sent)?;
    Ok(conn)
}

#[test]
fn a_stream_cut_at_each_commit_and_gone_on_with(rt: HostRuntime) -> Result<(), Fail> {
    let stream = stream_of(rt.alloc(), 7)?;
    let plan = Plan {
        stream: stream.bytes(),
        epoch: 100,
        batch: 2,
    };
    for (commits, left) in LEFT.iter().enumerate() {
        let mut conn = follow_twice(&rt, rt.alloc(), (commits, left), &plan)?;
        assert_file(rt.alloc(), &mut conn, &LEFT[7], commits)?;
    }
    Ok(())
}

#[test]
fn epochs_of_each_size_leave_the_same(rt: HostRuntime) -> Result<(), Fail> {
    let stream = stream_of(rt.alloc(), 7)?;
    for epoch in [1, 2, 7] {
        let plan = Plan {
            stream: stream.bytes(),
            epoch,
            batch: 1,
        };
        let mut conn = new_file(rt.alloc())?;
        let ended = follow(&rt, rt.alloc(), &mut conn, &plan, &mut Vec::new(rt.alloc()))?;
        assert_same(ended.end, End::Clean, epoch)?;
        assert_file(rt.alloc(), &mut conn, &LEFT[7], epoch)?;
    }
    Ok(())
}

/// A row that breaks a key of the table, or none.
static INSERTS: [(&str, bool); 4] = [
    ("INSERT INTO accounts VALUES (1, 'new', 'n')", false),
    ("INSERT INTO accounts VALUES (3, 'b', 'n')", false),
    ("INSERT INTO accounts VALUES (3, NULL, 'n')", true),
    ("INSERT INTO accounts VALUES (4, NULL, NULL)", true),
];

#[test]
fn a_table_of_the_file_has_its_keys(rt: HostRuntime) -> Result<(), Fail> {
    let stream = stream_of(rt.alloc(), 7)?;
    let plan = Plan {
        stream: stream.bytes(),
        epoch: 100,
        batch: 100,
    };
    let mut conn = new_file(rt.alloc())?;
    follow(&rt, rt.alloc(), &mut conn, &plan, &mut Vec::new(rt.alloc()))?;
    for (insert, is_taken) in &INSERTS {
        assert_same(conn.execute(*insert, &[]).is_ok(), *is_taken, insert)?;
    }
    Ok(())
}

/// Another catalog: its email is in no key.
const OTHER: &str = r#"
[[table]]
namespace = "public"
name = "accounts"
primary = ["id"]
[[table.column]]
name = "id"
type = "int"
[[table.column]]
name = "email"
type = "text"
[[table.column]]
name = "note"
type = "text"
"#;

#[test]
fn a_file_of_another_catalog_is_refused(rt: HostRuntime) -> Result<(), Fail> {
    let mut conn = new_file(rt.alloc())?;
    let catalog = catalog(rt.alloc())?;
    let _opened = open(
        rt.alloc(),
        &mut conn,
        &catalog,
        Tables::empty(rt.alloc(), &catalog)?,
    )?;
    let other = Catalog::read(rt.alloc(), OTHER)?;
    match open(
        rt.alloc(),
        &mut conn,
        &other,
        Tables::empty(rt.alloc(), &other)?,
    ) {
        Ok(_) => Err("it was opened".into()),
        Err(fault) => assert_same(fault, FileFault::OtherCatalog, "fault"),
    }
}

#[test]
fn a_file_notes_whose_stream_it_follows(rt: HostRuntime) -> Result<(), Fail> {
    let mut conn = new_file(rt.alloc())?;
    let catalog = catalog(rt.alloc())?;
    let opened = open(
        rt.alloc(),
        &mut conn,
        &catalog,
        Tables::empty(rt.alloc(), &catalog)?,
    )?;
    assert_holds(opened.system.is_none(), "of none")?;
    note_system(&mut conn, "7421")?;
    let opened = open(
        rt.alloc(),
        &mut conn,
        &catalog,
        Tables::empty(rt.alloc(), &catalog)?,
    )?;
    assert_holds(
        opened.system.as_ref().map(|text| text.as_str()) == Some("7421"),
        "of one",
    )
}
