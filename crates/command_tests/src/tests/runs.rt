// Commands of these tests: their streams, their clock, and what they print.
use leader::{Config, StillClock};
use pgapply_command::execute::{Ended, execute};
use std::alloc::Global;
use std::random::RandomSource;
use std::sync::Wait;
use std::test::Fail;
use std::thread::Threads;
use testing::accounts::CATALOG;
use testing::devices::{Kept, Pieces};

/// Without workers.
pub const CONFIG: Config = Config {
    workers: 0,
    ring: 64,
    spool: 1 << 30,
    skip: 0,
};

/// The payloads, each in an XLogData frame whose positions and clock are 0.
pub fn framed(alloc: Global, payloads: &[&str]) -> Result<Vec<u8>, Fail> {
    let mut stream = Vec::new(alloc);
    for payload in payloads {
        let bytes = hex::decode(alloc, *payload)?;
        push_frame(&mut stream, bytes.as_slice())?;
    }
    Ok(stream)
}

/// The bytes that these digits spell, one after another.
pub fn spelled(alloc: Global, digits: &[&str]) -> Result<Vec<u8>, Fail> {
    let mut bytes = Vec::new(alloc);
    for part in digits {
        let part = hex::decode(alloc, *part)?;
        bytes.extend_from_slice(part.as_slice())?;
    }
    Ok(bytes)
}

/// Appends frames with these payloads.
pub fn push_frames(stream: &mut Vec<u8>, alloc: Global, payloads: &[&str]) -> Result<(), Fail> {
    let frames = framed(alloc, payloads)?;
    stream.extend_from_slice(frames.as_slice())?;
    Ok(())
}

/// Appends an XLogData frame with the payload.
pub fn push_frame(stream: &mut Vec<u8>, payload: &[u8]) -> Result<(), Fail> {
    let length = u32::try_from(payload.len().saturating_add(29))
        .ok()
        .ok_or("a payload's length")?;
    stream.push(b'd')?;
    stream.extend_from_slice(&length.to_be_bytes())?;
    stream.push(b'w')?;
    stream.extend_from_slice(&[0; 24])?;
    stream.extend_from_slice(payload)?;
    Ok(())
}

/// What is printed of a stream that comes in pieces of this length, and what is written back. Without
/// workers each streamed transaction is spooled.
pub fn printed<R: Threads + Wait + RandomSource + Sync>(
    rt: &R,
    alloc: Global,
    stream: &[u8],
    size: usize,
    config: &Config,
) -> (Ended, Vec<u8>, Vec<u8>) {
    let reader = Pieces::new(stream, size);
    printed_from(rt, alloc, CATALOG.as_bytes(), reader, config)
}

/// The same of this catalog and this source.
pub fn printed_from<R: Threads + Wait + RandomSource + Sync>(
    rt: &R,
    alloc: Global,
    catalog: &[u8],
    reader: Pieces<'_>,
    config: &Config,
) -> (Ended, Vec<u8>, Vec<u8>) {
    let mut out = Vec::new(alloc);
    let mut written = Vec::new(alloc);
    let ended = execute(
        rt,
        alloc,
        config.workers == 0,
        config,
        catalog,
        reader,
        Kept::new(&mut written),
        StillClock(5),
        &mut out,
    );
    (ended, out, written)
}
