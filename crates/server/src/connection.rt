// Messages that come over a line, whole, within a time limit.
ghost use Rattle.std.specs.Prelude.{◌≡◌, ◌+◌, ◌-◌, ◌<◌, ◌≤◌, length, vec_len};

use crate::fault::{Fault, Nonsense};
use crate::line::{Line, Unread};
use crate::report::read_report;
use crate::wire;
use crate::wire::Message;
use std::alloc::Global;
use std::fmt;

/// How many bytes are read at once.
const CHUNK: usize = 256 * 1024;

/// What a read gave.
#[derive(Clone, Copy, Debug, PartialEq, Eq)]
pub enum Came {
    /// More bytes.
    Bytes,
    /// None within a tick.
    Nothing,
    /// The end: the server closed.
    End,
}

/// A line, and the bytes that came and weren't taken.
#[derive(Drop)]
pub struct Connection<L: Line> {
    line: L,
    alloc: Global,
    limit: u64,
    /// When the answer was asked for that is due.
    asked: u64,
    bytes: Vec<u8>,
    start: usize,
    end: usize,
    ghost ordered: { start ≤ end },
    ghost within: { end ≤ vec_len bytes },
}

/// Without the bytes that came.
impl<L: Line> fmt::Debug for Connection<L> {
    fn fmt<W: fmt::Write>(&self, f: &mut fmt::Formatter<W>) -> fmt::Result {
        f.debug_struct("Connection")
            .field("limit", &self.limit)
            .finish_non_exhaustive()
    }
}

impl<L: Line + Drop> Connection<L> {
    /// A connection that has read nothing yet. `limit` is how many milliseconds a whole answer may take.
    pub fn new(alloc: Global, line: L, limit: u64) -> Result<Connection<L>, Fault> {
        let mut line = line;
        let asked = line.millis();
        let mut bytes = Vec::new(alloc);
        bytes.resize(CHUNK, 0)?;
        Ok(Connection {
            line,
            alloc,
            limit,
            asked,
            bytes,
            start: 0,
            end: 0,
        })
    }

    /// The allocator of what it makes.
    pub fn alloc(&self) -> Global {
        self.alloc
    }

    /// How many milliseconds a whole answer may take.
    pub fn limit(&self) -> u64 {
        self.limit
    }

    /// Milliseconds since some start.
    pub fn millis(&mut self) -> u64 {
        self.line.millis()
    }

    /// The bytes that came and weren't taken.
    pub fn unread(&self) -> &[u8]
        ensures { length result.now ≡ self.now.end - self.now.start }
    {
        &self.bytes[self.start..self.end]
    }

    /// Takes bytes off the front of those unread, or all of them.
    pub fn take(&mut self, count: usize) {
        self.start += count.min(self.end - self.start);
    }

    /// Reads once, and waits at most for a tick.
    pub fn fill(&mut self) -> Result<Came, Fault> {
        self.make_room()?;
        let end = self.end;
        match self.line.read_some(&mut self.bytes[end..]) {
            Ok(0) => Ok(Came::End),
            Ok(count) => {
                self.end = end + count;
                Ok(Came::Bytes)
            }
            Err(Unread::NotYet) => Ok(Came::Nothing),
            Err(Unread::Failed(error)) => Err(Fault::Broken(error)),
        }
    }

    /// Makes room behind the unread bytes: moves them to the front, or doubles the buffer.
    fn make_room(&mut self) -> Result<(), Fault> {
        if self.end < self.bytes.len() {
            return Ok(());
        }
        if self.start > 0 {
            let start = self.start;
            let end = self.end;
            self.bytes.as_mut_slice().copy_within(start..end, 0);
            self.start = 0;
            self.end = end - start;
            return Ok(());
        }
        let more = self.bytes.len().saturating_mul(2);
        self.bytes.resize(more.max(CHUNK), 0)?;
        Ok(())
    }

    /// Sends bytes. The answer to them is due from now on.
    pub fn send(&mut self, bytes: &[u8]) -> Result<(), Fault> {
        self.line.write_whole(bytes)?;
        self.go_on();
        Ok(())
    }

    /// Begins the time limit anew, in an answer that may go on as long as the server isn't silent.
    pub fn go_on(&mut self) {
        self.asked = self.line.millis();
    }

    /// The next message, whole. A server that sends less within the time limit, which begins with what
    /// was sent to it, has timed out: so the limit is one of the whole answer.
    pub fn receive(&mut self) -> Result<Message, Fault> {
        for _ in 0..u64::MAX {
            if let Some(message) = self.first_message()? {
                return Ok(message);
            }
            match self.fill()? {
                Came::End => return Err(Fault::Closed),
                Came::Bytes | Came::Nothing => {}
            }
            if self.millis().saturating_sub(self.asked) > self.limit {
                return Err(Fault::TimedOut);
            }
        }
        Err(Fault::TimedOut)
    }

    /// Takes the first message off the unread bytes, if it is whole.
    fn first_message(&mut self) -> Result<Option<Message>, Fault> {
        let alloc = self.alloc;
        let unread = self.unread();
        let Some(length) = wire::first_length(unread)? else {
            return Ok(None);
        };
        let (Some(tag), Some(body)) = (unread.first(), unread.get(5..length)) else {
            return Err(Fault::Nonsense(Nonsense::BadLength));
        };
        let message = Message {
            tag: *tag,
            body: Vec::from_slice(alloc, body)?,
        };
        self.take(length);
        Ok(Some(message))
    }

    /// The next message that isn't a notice, a parameter or a notification. An ErrorResponse is a fault.
    pub fn receive_answer(&mut self) -> Result<Message, Fault> {
        for _ in 0..u64::MAX {
            let message = self.receive()?;
            match message.tag {
                b'N' | b'S' | b'A' => {}
                b'E' => {
                    let report = read_report(self.alloc, message.body.as_slice())?;
                    return Err(Fault::Server(report));
                }
                _ => return Ok(message),
            }
        }
        Err(Fault::TimedOut)
    }
}
