#![tactic(auto)]

// Streams of the tests, by their messages, as a publisher sends them: of one table with the columns id,
// email and note. No program stands on it.
//
// Each message stands in a frame of its own. A stream takes memory only as its bytes grow, so that a test
// in which memory is refused asks for little itself.
//
//   story    a stream of seven commits, and what each leaves
//
// It stands on `model` for what a message names, on `testing` for the table, and on `itoa`.
pub mod story;

use itoa::Buffer;
use model::{Lsn, OutOfMemory, Xid};
use std::alloc::Global;

/// A column of a tuple.
#[derive(Clone, Copy)]
pub enum Column {
    Null,
    /// Unchanged, and not sent.
    Kept,
    Text(&'static str),
    Number(u32),
}

/// The columns id, email and note.
pub type Tuple = (Column, Column, Column);

/// A message, or what stands between messages. What names a subtransaction does so inside of a block alone.
#[derive(Clone, Copy)]
pub enum Message {
    /// The number and the final position.
    Begin(Xid, Lsn),
    /// Its own position and the end.
    Commit(Lsn, Lsn),
    /// Whether it is the first block of the transaction.
    Start(Xid, bool),
    Stop,
    StreamCommit(Xid, Lsn, Lsn),
    /// A transaction and a subtransaction of it, or itself.
    Abort(Xid, Xid),
    Insert(Xid, Tuple),
    /// By the key of the new tuple.
    Update(Xid, Tuple),
    /// By an old tuple of this kind, `K` or `O`.
    UpdateAt(Xid, u8, Tuple, Tuple),
    DeleteAt(Xid, u8, Tuple),
    /// Any other message: its tag, and what stands behind the subtransaction.
    Other(u8, Xid, &'static [u8]),
    /// The end of the log, and whether a reply is wanted.
    Keepalive(Lsn, bool),
    /// Bytes in no frame.
    Raw(&'static [u8]),
    /// The positions of the frames from here on.
    At(Lsn),
}

/// What stands in a truncate of the table.
pub const WHOLE: &[u8] = b"\x00\x00\x00\x01\x00\x00\x00\x40\x01";

/// The number of the relation.
const OID: &[u8] = b"\x00\x00\x40\x01";

/// A stream as it is written.
#[derive(Drop)]
pub struct Stream {
    bytes: Vec<u8>,
    in_block: bool,
    position: Lsn,
}

impl Stream {
    pub fn new(alloc: Global) -> Stream {
        Stream {
            bytes: Vec::new(alloc),
            in_block: false,
            position: 0,
        }
    }

    /// The stream of these parts.
    pub fn of(alloc: Global, parts: &[&[Message]]) -> Result<Stream, OutOfMemory> {
        let mut stream = Stream::new(alloc);
        for part in parts {
            for message in *part {
                stream.push(message)?;
            }
        }
        Ok(stream)
    }

    pub fn bytes(&self) -> &[u8] {
        self.bytes.as_slice()
    }

    pub fn push(&mut self, message: &Message) -> Result<(), OutOfMemory> {
        match *message {
            Message::At(position) => {
                self.position = position;
                Ok(())
            }
            Message::Raw(bytes) => append(&mut self.bytes, &[bytes]),
            Message::Keepalive(end, wants_reply) => append(
                &mut self.bytes,
                &[
                    b"d\x00\x00\x00\x16k",
                    &end.to_be_bytes(),
                    &[0; 8],
                    &[u8::from(wants_reply)],
                ],
            ),
            Message::Start(_, _) => {
                self.in_block = true;
                self.push_framed(message)
            }
            Message::Stop => {
                self.in_block = false;
                self.push_framed(message)
            }
            _ => self.push_framed(message),
        }
    }

    // Appends the message in a frame of its own, whose length is known once the message stands.
    fn push_framed(&mut self, message: &Message) -> Result<(), OutOfMemory> {
        let start = self.bytes.len();
        let position = self.position.to_be_bytes();
        append(
            &mut self.bytes,
            &[b"d\x00\x00\x00\x00w", &position, &position, &[0; 8]],
        )?;
        spell(&mut self.bytes, message, self.in_block)?;
        let length = self.bytes.len().saturating_sub(start).saturating_sub(1);
        let length = u32::try_from(length).unwrap_or(u32::MAX).to_be_bytes();
        for (byte, of_length) in self
            .bytes
            .iter_mut()
            .skip(start.saturating_add(1))
            .zip(length)
        {
            *byte = of_length;
        }
        Ok(())
    }
}

/// Appends some bytes after others.
pub fn append(out: &mut Vec<u8>, parts: &[&[u8]]) -> Result<(), OutOfMemory> {
    for part in parts {
        out.extend_from_slice(*part)?;
    }
    Ok(())
}

// Appends the payload of a message.
fn spell(out: &mut Vec<u8>, message: &Message, in_block: bool) -> Result<(), OutOfMemory> {
    match *message {
        Message::Begin(xid, at) => append(
            out,
            &[b"B", &at.to_be_bytes(), &[0; 8], &xid.to_be_bytes()],
        ),
        Message::Commit(at, end) => append(
            out,
            &[b"C\x00", &at.to_be_bytes(), &end.to_be_bytes(), &[0; 8]],
        ),
        Message::Start(xid, is_first) => {
            append(out, &[b"S", &xid.to_be_bytes(), &[u8::from(is_first)]])
        }
        Message::Stop => append(out, &[b"E"]),
        Message::StreamCommit(xid, at, end) => append(
            out,
            &[
                b"c",
                &xid.to_be_bytes(),
                b"\x00",
                &at.to_be_bytes(),
                &end.to_be_bytes(),
                &[0; 8],
            ],
        ),
        Message::Abort(xid, sub) => append(
            out,
            &[b"A", &xid.to_be_bytes(), &sub.to_be_bytes(), &[0; 16]],
        ),
        _ => spell_change(out, message, in_block),
    }
}

// Appends what may stand in a block.
fn spell_change(out: &mut Vec<u8>, message: &Message, in_block: bool) -> Result<(), OutOfMemory> {
    match *message {
        Message::Insert(sub, new) => {
            push_tag(out, b'I', sub, in_block)?;
            push_tuples(out, &[(b'N', new)])
        }
        Message::Update(sub, new) => {
            push_tag(out, b'U', sub, in_block)?;
            push_tuples(out, &[(b'N', new)])
        }
        Message::UpdateAt(sub, kind, old, new) => {
            push_tag(out, b'U', sub, in_block)?;
            push_tuples(out, &[(kind, old), (b'N', new)])
        }
        Message::DeleteAt(sub, kind, old) => {
            push_tag(out, b'D', sub, in_block)?;
            push_tuples(out, &[(kind, old)])
        }
        Message::Other(tag, sub, rest) => {
            push_tag(out, tag, sub, in_block)?;
            append(out, &[rest])
        }
        _ => Ok(()),
    }
}

// A tag, and inside of a block the subtransaction.
fn push_tag(out: &mut Vec<u8>, tag: u8, sub: Xid, in_block: bool) -> Result<(), OutOfMemory> {
    out.push(tag)?;
    if in_block {
        out.extend_from_slice(&sub.to_be_bytes())?;
    }
    Ok(())
}

// The relation, and tuples of some kinds.
fn push_tuples(out: &mut Vec<u8>, tuples: &[(u8, Tuple)]) -> Result<(), OutOfMemory> {
    out.extend_from_slice(OID)?;
    for (kind, (id, email, note)) in tuples {
        append(out, &[&[*kind], b"\x00\x03"])?;
        push_column(out, *id)?;
        push_column(out, *email)?;
        push_column(out, *note)?;
    }
    Ok(())
}

fn push_column(out: &mut Vec<u8>, column: Column) -> Result<(), OutOfMemory> {
    match column {
        Column::Null => append(out, &[b"n"]),
        Column::Kept => append(out, &[b"u"]),
        Column::Text(text) => push_text(out, text),
        Column::Number(number) => push_text(out, Buffer::new().format(number)),
    }
}

fn push_text(out: &mut Vec<u8>, text: &str) -> Result<(), OutOfMemory> {
    let length = u32::try_from(text.len()).unwrap_or(u32::MAX);
    append(out, &[b"t", &length.to_be_bytes(), text.as_bytes()])
}
