// Where commits are kept: a file that has the tables, lines, or both.
ghost use Rattle.std.specs.Prelude.{◌≡◌, IfOk, map};
ghost use Rattle.model.specs.Rows.{keys_of};

use crate::lines::Lines;
use catalog::Catalog;
use indexes::Tables;
use leader::Lsn;
use mirror_command::events::{Event, say};
use mirror_command::options::Options;
use mirror_file::{FileFault, Opened, note_system, open};
use mirror_run::LineKeep;
use mirror_statements::FileStatements;
use pgapply_command::execute::empty_tables;
use sqlite_file::SqliteFile;

/// Where a run begins: tables of the catalog, and the end of the last commit before it.
#[derive(Drop)]
pub struct Start<'a> {
    pub catalog: &'a Catalog,
    pub tables: Tables,
    pub position: Lsn,
    ghost of_catalog: { tables.schema ≡ map keys_of catalog.now },
}

/// A file, and the statements by which it follows.
#[derive(Drop)]
pub struct FileTarget {
    pub file: SqliteFile,
    pub statements: FileStatements,
}

/// Where commits are kept.
#[derive(Drop)]
pub struct Target<'a> {
    pub file: Option<FileTarget>,
    pub lines: Option<LineKeep<'a, Lines>>,
    /// The identifier of the system whose stream it follows, once it is known.
    pub system: Option<String>,
}

impl<'a> Target<'a> {
    /// Opens what the options ask for, and reads where the first run begins; or the exit status,
    /// where that can't be.
    pub fn open(
        rt: &HostRuntime,
        options: &Options<'_>,
        catalog: &'a Catalog,
    ) -> Result<(Target<'a>, Start<'a>), u8> {
        match options.into {
            Some(path) => open_file(rt, path, options, catalog),
            None => open_alone(rt, options.json.unwrap_or("-"), catalog),
        }
    }

    /// Closes the file. It answers the exit status of what went before, unless that can't be.
    pub fn close(self, rt: &HostRuntime, options: &Options<'_>, status: u8) -> u8 {
        let Target { file, .. } = self;
        let Some(FileTarget { file, .. }) = file else {
            return status;
        };
        match file.close() {
            Ok(()) => status,
            Err(error) => unfit(rt, name_of(options), &error.into()),
        }
    }

    /// Sees that it follows a stream of this system, and notes that where it is the first; or the
    /// exit status.
    pub fn check_system(&mut self, rt: &HostRuntime, name: &str, found: String) -> Result<(), u8> {
        if let Some(known) = &self.system {
            if known.as_str() == found.as_str() {
                return Ok(());
            }
            say(rt, Event::OtherSystem(name));
            return Err(1);
        }
        if let Some(target) = &mut self.file {
            if let Err(fault) = note_system(target.file.connection(), found.as_str()) {
                return Err(unfit(rt, name, &fault));
            }
        }
        self.system = Some(found);
        Ok(())
    }
}

/// What is said of where commits are kept.
pub fn name_of<'a>(options: &Options<'a>) -> &'a str {
    match (options.into, options.json) {
        (Some(path), _) => path,
        (None, Some("-")) | (None, None) => "standard output",
        (None, Some(path)) => path,
    }
}

/// A file, and lines beside it where these go somewhere.
fn open_file<'a>(
    rt: &HostRuntime,
    path: &str,
    options: &Options<'_>,
    catalog: &'a Catalog,
) -> Result<(Target<'a>, Start<'a>), u8> {
    let mut file = match SqliteFile::open(rt, path) {
        Ok(file) => file,
        Err(error) => return Err(unfit(rt, path, &error.into())),
    };
    let lines = match options.json {
        Some(to) => {
            let Opened {
                tables,
                position,
                ..
            } = read_file(rt, path, catalog, &mut file)?;
            Some(open_lines(rt, to, catalog, tables, position, options.batch)?)
        }
        None => None,
    };
    let Opened {
        statements,
        tables,
        position,
        system,
    } = read_file(rt, path, catalog, &mut file)?;
    let target = Target {
        file: Some(FileTarget { file, statements }),
        lines,
        system,
    };
    let start = Start {
        catalog,
        tables,
        position,
    };
    Ok((target, start))
}

/// Lines alone, from empty tables on.
fn open_alone<'a>(
    rt: &HostRuntime,
    to: &str,
    catalog: &'a Catalog,
) -> Result<(Target<'a>, Start<'a>), u8> {
    let lines = open_lines(rt, to, catalog, no_rows(rt, catalog)?, Lsn::MAX, 0)?;
    let target = Target {
        file: None,
        lines: Some(lines),
        system: None,
    };
    let start = Start {
        catalog,
        tables: no_rows(rt, catalog)?,
        position: 0,
    };
    Ok((target, start))
}

/// Who keeps lines behind these tables, which are at a position. No more than so many commits have
/// lines behind it.
fn open_lines<'a>(
    rt: &HostRuntime,
    to: &str,
    catalog: &'a Catalog,
    tables: Tables,
    position: Lsn,
    batch: usize,
) -> Result<LineKeep<'a, Lines>, u8>
    requires { tables.schema ≡ map keys_of catalog.now }
{
    match Lines::open(rt, to, position, batch) {
        Ok(lines) => Ok(LineKeep::new(rt.alloc(), tables, catalog, lines)),
        Err(error) => {
            say(rt, Event::NotOpened(to, &error));
            Err(1)
        }
    }
}

/// Empty tables.
fn no_rows(rt: &HostRuntime, catalog: &Catalog) -> Result<Tables, u8>
    ensures { IfOk result (λ tables. tables.schema ≡ map keys_of catalog.now) }
{
    match empty_tables(rt, rt.alloc(), catalog) {
        Ok(tables) => Ok(tables),
        Err(_) => Err(no_memory(rt)),
    }
}

/// What the file has; or the exit status, where it can't be used.
fn read_file(
    rt: &HostRuntime,
    path: &str,
    catalog: &Catalog,
    file: &mut SqliteFile,
) -> Result<Opened, u8>
    ensures { IfOk result (λ opened. opened.tables.schema ≡ map keys_of catalog.now) }
{
    let empty = no_rows(rt, catalog)?;
    match open(rt.alloc(), file.connection(), catalog, empty) {
        Ok(opened) => Ok(opened),
        Err(fault) => Err(unfit(rt, path, &fault)),
    }
}

/// Says that a file can't be used. It answers the exit status.
pub fn unfit(rt: &HostRuntime, path: &str, fault: &FileFault) -> u8 {
    say(rt, Event::Unfit(path, fault));
    1
}

/// Says that memory was refused. It answers the exit status.
pub fn no_memory(rt: &HostRuntime) -> u8 {
    say(rt, Event::OutOfMemory);
    4
}
