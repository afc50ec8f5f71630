// Where lines of JSON go.
use leader::Lsn;
use mirror_run::{Keep, LineKeep, Stop};
use mirror_statements::Commit;
use std::fs::{File, OpenOptions};
use std::io;
use std::io::{ErrorKind, Read, Seek, SeekFrom, Stdout, Write};

/// What stands before the end of a commit in each line, behind which the line ends.
const LSN: &[u8] = b"\"lsn\":\"";

/// How each line begins.
const FRONT: &[u8] = b"{\"table\":\"";

/// Where lines go: standard output, or a file to which they are appended.
#[derive(Debug, Drop)]
pub enum Lines {
    Stdout(Stdout),
    /// The file, and how many of its bytes are whole lines.
    File(File, u64),
    /// A pipe or a device, which is opened by a path too.
    Device(File),
}

impl Lines {
    /// Opens the file of this path, or makes it; `-` is standard output. What a kill left of a line
    /// at its end is cut off, and the lines behind a position, which are of so many commits at
    /// most.
    pub fn open(rt: &HostRuntime, path: &str, position: Lsn, batch: usize) -> io::Result<Lines> {
        if path == "-" {
            return Ok(Lines::Stdout(rt.stdout()));
        }
        let mut options = OpenOptions::new();
        options.write(true).create(true);
        let file = options.open(rt, path)?;
        if !file.metadata()?.is_file() {
            return Ok(Lines::Device(file));
        }
        let mut file = options.read(true).open(rt, path)?;
        let end = file.seek(SeekFrom::End(0))?;
        let whole = find_start(&mut file, end)?;
        if !begins_line(&mut file, whole)? {
            return Err(refusal("it ends in no line of these"));
        }
        let whole = find_position(&mut file, whole, position, batch)?;
        file.set_len(whole)?;
        file.seek(SeekFrom::Start(whole))?;
        Ok(Lines::File(file, whole))
    }
}

impl Write for Lines {
    fn write(&mut self, buf: &[u8]) -> io::Result<usize> {
        match self {
            Lines::Stdout(out) => out.write(buf),
            Lines::File(file, _) | Lines::Device(file) => file.write(buf),
        }
    }

    // A file has its lines on the disk then.
    fn flush(&mut self) -> io::Result<()> {
        match self {
            Lines::Stdout(out) => out.flush(),
            Lines::File(file, _) => file.sync_data(),
            Lines::Device(_) => Ok(()),
        }
    }

    // Of lines that can't be written whole none stays in a file.
    fn write_all(&mut self, buf: &[u8]) -> io::Result<()> {
        match self {
            Lines::Stdout(out) => out.write_all(buf),
            Lines::Device(file) => file.write_all(buf),
            Lines::File(file, whole) => match file.write_all(buf) {
                Ok(()) => {
                    *whole = whole.saturating_add(buf.len() as u64);
                    Ok(())
                }
                Err(error) => {
                    let _cut = file.set_len(*whole);
                    Err(error)
                }
            },
        }
    }
}

/// Who keeps lines, lent to runs.
#[derive(Drop)]
pub struct LentLines<'k, 'a> {
    pub keep: &'k mut LineKeep<'a, Lines>,
}

impl<'a> Keep for LentLines<'_, 'a> {
    ghost has_kept = { λ l commits. ⟦<LineKeep<'a, Lines> as Keep>⟧.has_kept l.keep.now commits };

    fn begin(&mut self) {
        self.keep.begin();
    }

    fn keep(&mut self, commits: &[Commit], end: Lsn) -> Result<(), Stop> {
        self.keep.keep(commits, end)
    }
}

// Where a line begins that ends in front of a place: behind the last line feed there.
fn find_start(file: &mut File, place: u64) -> io::Result<u64> {
    let mut buf = [0u8; 4096];
    let mut end = place;
    for _ in 0..u64::MAX {
        let count = end.min(buf.len() as u64) as usize;
        if count == 0 {
            break;
        }
        end = end.saturating_sub(count as u64);
        file.seek(SeekFrom::Start(end))?;
        file.read_exact(&mut buf[..count])?;
        if let Some(found) = buf[..count].iter().rposition(|byte| *byte == b'\n') {
            return Ok(end.saturating_add(found as u64).saturating_add(1));
        }
    }
    Ok(0)
}

// Whether what stands behind a place of a file, if anything does, is the beginning of a line.
fn begins_line(file: &mut File, place: u64) -> io::Result<bool> {
    file.seek(SeekFrom::Start(place))?;
    for byte in FRONT {
        let mut found = [0u8; 1];
        if file.read(&mut found)? == 0 {
            return Ok(true);
        }
        if found[0] != *byte {
            return Ok(false);
        }
    }
    Ok(true)
}

// Where the lines behind a position begin, of whole lines of this length. These are of so many
// commits at most: no more are written before a file has them.
fn find_position(file: &mut File, whole: u64, position: Lsn, batch: usize) -> io::Result<u64> {
    let mut place = whole;
    let mut commits = 0usize;
    let mut last = position;
    for _ in 0..u64::MAX {
        if place == 0 {
            break;
        }
        let lsn = find_lsn(file, place)?;
        if lsn <= position {
            break;
        }
        if lsn != last {
            last = lsn;
            commits = commits.saturating_add(1);
        }
        if commits > batch {
            return Err(refusal(
                "it has more lines than the SQLite file has changes: take another file",
            ));
        }
        place = find_start(file, place.saturating_sub(1))?;
    }
    Ok(place)
}

// The end of the commit of the line that ends in front of a place.
fn find_lsn(file: &mut File, place: u64) -> io::Result<Lsn> {
    let mut buf = [0u8; 32];
    let count = place.min(buf.len() as u64) as usize;
    file.seek(SeekFrom::Start(place.saturating_sub(count as u64)))?;
    file.read_exact(&mut buf[..count])?;
    match lsn_of(&buf[..count]) {
        Some(lsn) => Ok(lsn),
        None => Err(refusal("it ends in no line of these")),
    }
}

// The end of the commit at the end of a line.
fn lsn_of(line: &[u8]) -> Option<Lsn> {
    let found = line.windows(LSN.len()).rposition(|words| words == LSN)?;
    let behind = line.get(found.saturating_add(LSN.len())..)?;
    let text = std::str::from_utf8(behind).ok()?.strip_suffix("\"}\n")?;
    let (high, low) = text.split_once('/')?;
    let high = u32::from_str_radix(high, 16).ok()?;
    let low = u32::from_str_radix(low, 16).ok()?;
    Some((u64::from(high) << 32) | u64::from(low))
}

fn refusal(why: &'static str) -> io::Error {
    io::Error::new(ErrorKind::InvalidData, why)
}
