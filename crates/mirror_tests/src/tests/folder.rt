// What a run leaves of a file, as files of the system.
use super::failing::{left_at, most_flushed};
use super::files::{Store, open_new, position_of, rows_of};
use super::rounds::{Plan, follow};
use leader::Lsn;
use sqlite::Connection;
use sqlite_file::{SqliteFile, copy_file};
use std::test::Fail;
use std::{env, fs, process};
use streams::story::stream_of;
use testing::asserts::{assert_holds, assert_same};

/// A file of the system with its log, and where a copy of it is put.
#[derive(Drop)]
struct Place {
    file: String,
    log: String,
    copy: String,
}

impl Place {
    fn new(rt: &HostRuntime) -> Result<Place, Fail> {
        let alloc = rt.alloc();
        let folder = env::temp_dir(rt)?;
        let file = format!(in alloc; "{}/left-{}", folder.as_str(), process::id(rt.process()))?;
        Ok(Place {
            log: format!(in alloc; "{}-wal", file.as_str())?,
            copy: format!(in alloc; "{}-copy", file.as_str())?,
            file,
        })
    }

    /// Writes what a run left of a file in memory.
    fn write(&self, rt: &HostRuntime, conn: Connection<Store>) -> Result<(), Fail> {
        let left = conn.into_store().close();
        fs::write(rt, self.file.as_str(), left.db.inner().bytes())?;
        fs::write(rt, self.log.as_str(), left.log.inner().bytes())?;
        Ok(())
    }

    /// Its position, and that of a copy which is made while it is open: each has the rows of the commit
    /// that ends there.
    fn read(&self, rt: &HostRuntime) -> Result<(Lsn, Lsn), Fail> {
        let mut file = SqliteFile::open(rt, self.file.as_str())?;
        let position = assert_left(rt, &mut file)?;
        copy_file(rt, self.file.as_str(), self.copy.as_str())?;
        file.close()?;
        let mut copy = SqliteFile::open(rt, self.copy.as_str())?;
        let copied = assert_left(rt, &mut copy)?;
        copy.close()?;
        Ok((position, copied))
    }

    fn remove(&self, rt: &HostRuntime) -> Result<(), Fail> {
        let copied_log = format!(in rt.alloc(); "{}-wal", self.copy.as_str())?;
        let _file = fs::remove_file(rt, self.file.as_str());
        let _log = fs::remove_file(rt, self.log.as_str());
        let _copy = fs::remove_file(rt, self.copy.as_str());
        let _copied_log = fs::remove_file(rt, copied_log.as_str());
        Ok(())
    }
}

/// The file has what the commit at its position left. It answers the position.
fn assert_left(rt: &HostRuntime, file: &mut SqliteFile) -> Result<Lsn, Fail> {
    let position = position_of(file.connection())?;
    let rows = rows_of(rt.alloc(), file.connection())?;
    assert_same(rows.as_str(), left_at(position)?.rows, position)?;
    Ok(position)
}

#[test]
fn what_is_left_is_opened_in_a_folder(rt: HostRuntime) -> Result<(), Fail> {
    let stream = stream_of(rt.alloc(), 7)?;
    let plan = Plan {
        stream: stream.bytes(),
        epoch: 3,
        batch: 1,
    };
    let place = Place::new(&rt)?;
    for calls in [45, u64::MAX] {
        let Some(mut conn) = open_new(rt.alloc(), calls) else {
            return Err("a log that fails before its file is open".into());
        };
        let mut sent = Vec::new(rt.alloc());
        let _ended = follow(&rt, rt.alloc(), &mut conn, &plan, &mut sent);
        place.write(&rt, conn)?;
        let (position, copied) = place.read(&rt)?;
        assert_same(copied, position, calls)?;
        assert_holds(most_flushed(sent.as_slice()) <= position, calls)?;
        assert_same(position == 0x720, calls == u64::MAX, calls)?;
    }
    place.remove(&rt)
}
