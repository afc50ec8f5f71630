// A line in memory: what the server says is written before.
use server::connection::Connection;
use server::fault::Fault;
use server::line::{Line, Unread};
use server::stream::Slot;
use server::wire;
use std::alloc::Global;
use std::test::Fail;
use testing::asserts::assert_same;

/// The slot of these tests.
pub const SLOT: Slot<'static> = Slot {
    name: "s\"1",
    create: false,
    copy: false,
};

/// A message: its tag and its body.
pub type Message<'a> = (u8, &'a [u8]);

/// What comes behind the script.
#[derive(Clone, Copy)]
pub enum Behind {
    /// The server closes.
    Close,
    /// The server is silent: each read takes a second.
    Silence,
    /// Each read takes a second from the beginning on; then the server closes.
    Slow,
}

/// Gives what the server says in pieces of one length, and keeps what the client says.
#[derive(Drop)]
pub struct Script<'a> {
    input: &'a [u8],
    piece: usize,
    behind: Behind,
    sent: &'a mut Vec<u8>,
    clock: u64,
}

/// A connection to a server that says this, whose time limit is five seconds.
pub fn connect<'a>(
    input: &'a [u8],
    piece: usize,
    behind: Behind,
    sent: &'a mut Vec<u8>,
) -> Result<Connection<Script<'a>>, Fail> {
    let alloc: Global = *sent.allocator();
    let line = Script {
        input,
        piece,
        behind,
        sent,
        clock: 0,
    };
    Ok(Connection::new(alloc, line, 5000)?)
}

impl Line for Script<'_> {
    fn read_some(&mut self, buf: &mut [u8]) -> Result<usize, Unread> {
        if let Behind::Slow = self.behind {
            self.clock = self.clock.saturating_add(1000);
        }
        let count = self.piece.min(self.input.len()).min(buf.len());
        if count == 0 {
            return match self.behind {
                Behind::Close | Behind::Slow => Ok(0),
                Behind::Silence => {
                    self.clock = self.clock.saturating_add(1000);
                    Err(Unread::NotYet)
                }
            };
        }
        let (front, rest) = self.input.split_at(count);
        buf[..count].copy_from_slice(front);
        self.input = rest;
        Ok(count)
    }

    fn write_whole(&mut self, bytes: &[u8]) -> Result<(), Fault> {
        self.sent.extend_from_slice(bytes)?;
        Ok(())
    }

    fn millis(&mut self) -> u64 {
        self.clock
    }
}

/// Appends a message of the server.
pub fn say(out: &mut Vec<u8>, tag: u8, body: &[u8]) -> Result<(), Fail> {
    let alloc: Global = *out.allocator();
    let message = wire::frame(alloc, tag, body)?;
    out.extend_from_slice(message.as_slice())?;
    Ok(())
}

/// Appends messages of the server.
pub fn say_all(out: &mut Vec<u8>, messages: &[Message<'_>]) -> Result<(), Fail> {
    for (tag, body) in messages {
        say(out, *tag, *body)?;
    }
    Ok(())
}

/// Appends a value of a row: its length and its text; `\N` is null.
fn push_value(body: &mut Vec<u8>, text: &str) -> Result<(), Fail> {
    if text == "\\N" {
        body.extend_from_slice(&[255; 4])?;
    } else {
        body.extend_from_slice(&[0, 0, 0, text.len().min(255) as u8])?;
        body.extend_from_slice(text.as_bytes())?;
    }
    Ok(())
}

/// Appends a row of an answer, whose values are parted by bars.
pub fn say_row(out: &mut Vec<u8>, row: &str) -> Result<(), Fail> {
    let count = row.split('|').count();
    let mut body = Vec::new(*out.allocator());
    body.extend_from_slice(&[0, count.min(255) as u8])?;
    for text in row.split('|') {
        push_value(&mut body, text)?;
    }
    say(out, b'D', body.as_slice())
}

/// What a server says: one list of messages behind another.
pub fn spell(alloc: Global, lists: &[&[Message<'_>]]) -> Result<Vec<u8>, Fail> {
    let mut out = Vec::new(alloc);
    for messages in lists {
        say_all(&mut out, *messages)?;
    }
    Ok(out)
}

/// Asserts that an answer is the fault of this name, or `none`, in the case of this number.
pub fn assert_fault<T: Drop>(
    alloc: Global,
    answer: Result<T, Fault>,
    want: &str,
    case: usize,
) -> Result<(), Fail> {
    let name = name_of(alloc, answer)?;
    assert_same(name.as_str(), want, case)
}

/// The name of a fault, or of the lack of one.
pub fn name_of<T: Drop>(alloc: Global, answer: Result<T, Fault>) -> Result<String, Fail> {
    match answer {
        Ok(_) => Ok(String::from_str(alloc, "none")?),
        Err(fault) => fault_name(alloc, &fault),
    }
}

/// A fault's name: what stands before the colon.
fn fault_name(alloc: Global, fault: &Fault) -> Result<String, Fail> {
    let text = format!(in alloc; "{fault}")?;
    match text.as_str().split_once(':') {
        Some((name, _)) => Ok(String::from_str(alloc, name)?),
        None => Ok(String::new(alloc)),
    }
}
