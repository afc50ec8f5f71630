// A stream of seven commits, what each leaves, and its lines.
use crate::{Column, Message, Stream, WHOLE};
use model::{Lsn, OutOfMemory};
use std::alloc::Global;
use testing::accounts::RELATION;

/// The relation of the table, outside of a block.
pub const TOLD: Message = Message::Other(b'R', 0, RELATION);

/// What ends with each commit, and the end of the log behind them. Of 700 one block comes before
/// the second commit, so no epoch ends there.
pub static PARTS: [&[Message]; 8] = [
    &[
        Message::Begin(500, 0x100),
        TOLD,
        Message::Insert(0, (Column::Number(1), Column::Text("a"), Column::Text("n"))),
        Message::Insert(
            0,
            (Column::Number(2), Column::Text("it's"), Column::Text("n")),
        ),
        Message::Commit(0x100, 0x140),
    ],
    &[
        Message::Keepalive(0x140, true),
        Message::Start(700, true),
        Message::Other(b'R', 700, RELATION),
        Message::Insert(
            700,
            (Column::Number(4), Column::Text("d"), Column::Text("x")),
        ),
        Message::Insert(711, (Column::Number(5), Column::Text("e"), Column::Null)),
        Message::Stop,
        Message::Begin(600, 0x200),
        Message::Update(0, (Column::Number(2), Column::Kept, Column::Null)),
        Message::Insert(0, (Column::Number(3), Column::Null, Column::Text(""))),
        Message::Commit(0x200, 0x220),
    ],
    &[
        Message::Keepalive(0x220, true),
        Message::Abort(700, 711),
        Message::Start(700, false),
        Message::Insert(
            700,
            (
                Column::Number(6),
                Column::Text("e"),
                Column::Text("\"q\"\\\n\u{1}ü"),
            ),
        ),
        Message::Stop,
        Message::StreamCommit(700, 0x300, 0x320),
    ],
    &[
        Message::Keepalive(0x320, true),
        Message::Begin(800, 0x400),
        Message::UpdateAt(
            0,
            b'K',
            (Column::Number(1), Column::Null, Column::Null),
            (Column::Number(9), Column::Text("a"), Column::Text("moved")),
        ),
        Message::Commit(0x400, 0x420),
    ],
    &[
        Message::Keepalive(0x420, true),
        Message::Begin(900, 0x500),
        Message::DeleteAt(0, b'K', (Column::Number(77), Column::Null, Column::Null)),
        Message::DeleteAt(0, b'K', (Column::Number(9), Column::Null, Column::Null)),
        Message::Insert(0, (Column::Number(8), Column::Text("a"), Column::Null)),
        Message::Commit(0x500, 0x520),
    ],
    &[
        Message::Keepalive(0x520, true),
        Message::Begin(1000, 0x600),
        Message::Other(b'T', 0, WHOLE),
        Message::Insert(0, (Column::Number(1), Column::Text("z"), Column::Text("n"))),
        Message::Commit(0x600, 0x620),
    ],
    &[
        Message::Keepalive(0x620, true),
        Message::Start(1100, true),
        Message::Insert(
            1100,
            (Column::Number(2), Column::Text("b"), Column::Text("n")),
        ),
        Message::Stop,
        Message::StreamCommit(1100, 0x700, 0x720),
    ],
    &[Message::Keepalive(0x800, true)],
];

/// What a commit leaves: where the log goes on behind it, the rows in the order of their keys, and
/// the lines of its changes.
#[derive(Clone, Copy)]
pub struct Left {
    pub position: Lsn,
    pub rows: &'static str,
    pub lines: &'static str,
}

/// What is there before the first commit, and behind each.
pub static LEFT: [Left; 8] = [
    Left {
        position: 0,
        rows: "",
        lines: "",
    },
    Left {
        position: 0x140,
        rows: "1|a|n;2|it's|n;",
        lines: r#"{"table":"public.accounts","kind":"insert","key":{"id":1},"row":{"id":1,"email":"a","note":"n"},"xid":500,"lsn":"0/140"}
{"table":"public.accounts","kind":"insert","key":{"id":2},"row":{"id":2,"email":"it's","note":"n"},"xid":500,"lsn":"0/140"}
"#,
    },
    Left {
        position: 0x220,
        rows: "1|a|n;2|it's|NULL;3|NULL|;",
        lines: r#"{"table":"public.accounts","kind":"update","key":{"id":2},"row":{"id":2,"email":"it's","note":null},"xid":600,"lsn":"0/220"}
{"table":"public.accounts","kind":"insert","key":{"id":3},"row":{"id":3,"email":null,"note":""},"xid":600,"lsn":"0/220"}
"#,
    },
    Left {
        position: 0x320,
        rows: "1|a|n;2|it's|NULL;3|NULL|;4|d|x;6|e|\"q\"\\\n\u{1}ü;",
        lines: r#"{"table":"public.accounts","kind":"insert","key":{"id":4},"row":{"id":4,"email":"d","note":"x"},"xid":700,"lsn":"0/320"}
{"table":"public.accounts","kind":"insert","key":{"id":6},"row":{"id":6,"email":"e","note":"\"q\"\\\n\u0001ü"},"xid":700,"lsn":"0/320"}
"#,
    },
    Left {
        position: 0x420,
        rows: "2|it's|NULL;3|NULL|;4|d|x;6|e|\"q\"\\\n\u{1}ü;9|a|moved;",
        lines: r#"{"table":"public.accounts","kind":"update","key":{"id":1},"row":{"id":9,"email":"a","note":"moved"},"xid":800,"lsn":"0/420"}
"#,
    },
    Left {
        position: 0x520,
        rows: "2|it's|NULL;3|NULL|;4|d|x;6|e|\"q\"\\\n\u{1}ü;8|a|NULL;",
        lines: r#"{"table":"public.accounts","kind":"delete","key":{"id":9},"xid":900,"lsn":"0/520"}
{"table":"public.accounts","kind":"insert","key":{"id":8},"row":{"id":8,"email":"a","note":null},"xid":900,"lsn":"0/520"}
"#,
    },
    Left {
        position: 0x620,
        rows: "1|z|n;",
        lines: r#"{"table":"public.accounts","kind":"truncate","xid":1000,"lsn":"0/620"}
{"table":"public.accounts","kind":"insert","key":{"id":1},"row":{"id":1,"email":"z","note":"n"},"xid":1000,"lsn":"0/620"}
"#,
    },
    Left {
        position: 0x720,
        rows: "1|z|n;2|b|n;",
        lines: r#"{"table":"public.accounts","kind":"insert","key":{"id":2},"row":{"id":2,"email":"b","note":"n"},"xid":1100,"lsn":"0/720"}
"#,
    },
];

/// The stream up to so many commits; behind all of them to its end.
pub fn stream_of(alloc: Global, commits: usize) -> Result<Stream, OutOfMemory> {
    let mut stream = Stream::new(alloc);
    push_parts(&mut stream, 0, if commits < 7 { commits } else { 8 })?;
    Ok(stream)
}

/// Appends the parts from one up to another.
pub fn push_parts(stream: &mut Stream, from: usize, to: usize) -> Result<(), OutOfMemory> {
    for part in PARTS.get(from..to).unwrap_or(&[]) {
        push_all(stream, *part)?;
    }
    Ok(())
}

/// Appends messages.
pub fn push_all(stream: &mut Stream, messages: &[Message]) -> Result<(), OutOfMemory> {
    for message in messages {
        stream.push(message)?;
    }
    Ok(())
}
