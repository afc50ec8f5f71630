// Two streamed transactions of 500 items each: by one worker the second is spooled, and commits first.
use super::runs::{reports, same_by_all};
use super::worked::NOTE;
use leader::{OutOfMemory, Xid};
use std::alloc::Global;
use std::test::Fail;
use streams::{Column, Message, Stream};
use testing::accounts::{RELATION, thousand_rows};

// A block of rows, each with a null and a note: their keys begin at one number and end before another.
fn push_block(stream: &mut Stream, xid: Xid, first: u32, behind: u32) -> Result<(), OutOfMemory> {
    stream.push(&Message::Start(xid, true))?;
    stream.push(&Message::Other(b'R', xid, RELATION))?;
    for key in first..behind {
        stream.push(&Message::Insert(xid, (Column::Number(key), Column::Null, NOTE)))?;
    }
    stream.push(&Message::Stop)
}

// The whole stream.
fn two_large(alloc: Global) -> Result<Stream, OutOfMemory> {
    let mut stream = Stream::new(alloc);
    push_block(&mut stream, 700, 1, 501)?;
    push_block(&mut stream, 701, 501, 1001)?;
    stream.push(&Message::StreamCommit(701, 0x200, 0x220))?;
    stream.push(&Message::StreamCommit(700, 0x300, 0x320))?;
    Ok(stream)
}

#[test]
fn a_thousand_items_through_rings_of_few_slots(rt: HostRuntime) -> Result<(), Fail> {
    let stream = two_large(rt.alloc())?;
    let want = thousand_rows(rt.alloc())?;
    let ran = same_by_all(&rt, rt.alloc(), stream.bytes(), 1, "a thousand")?;
    reports(&rt, &ran, want.as_bytes(), "a thousand");
    Ok(())
}
