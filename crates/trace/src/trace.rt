// What passed of a stream, and where it stands.
ghost use Rattle.std.specs.Prelude.{◌<◌};

use crate::frame::Frame;
use crate::front::Front;
use crate::place::{Counts, Place, Relation};
use model::Xid;
use std::alloc::{AllocError, Global};

/// What passed of a stream. It goes by the bytes alone, and says nothing of what a run made of them.
#[derive(Debug, Drop)]
pub struct Trace {
    alloc: Global,
    frame: Frame,
    counts: Counts,
    place: Place,
    /// The transaction between Begin and Commit, or that of the block.
    open: Option<Xid>,
    /// Whether a block is open, in which changes name their transaction.
    in_block: bool,
    relations: Vec<Relation>,
}

impl Trace {
    /// Nothing has passed. It takes no memory.
    pub fn new(alloc: Global) -> Trace {
        Trace {
            alloc,
            frame: Frame::new(),
            counts: Counts {
                bytes: 0,
                frames: 0,
                commits: 0,
                changes: 0,
                position: 0,
            },
            place: place_at(0),
            open: None,
            in_block: false,
            relations: Vec::new(alloc),
        }
    }

    pub fn counts(&self) -> Counts {
        self.counts
    }

    /// Where the last frame stands of which a byte came.
    pub fn place(&self) -> Place {
        self.place
    }

    /// The relation of the last frame, if the stream described it.
    pub fn relation(&self) -> Option<&Relation> {
        let oid = self.place.relation?;
        self.relations.iter().find(|relation| relation.oid == oid)
    }

    /// How many bytes come before the frame's edge, or before its length is known.
    pub fn missing(&self) -> u64
        ensures some { 0 < result }
    {
        if self.frame.is_whole() {
            Frame::new().missing()
        } else {
            self.frame.missing()
        }
    }

    /// Takes the next bytes of the stream.
    pub fn pass(&mut self, bytes: &[u8]) {
        let mut rest = bytes;
        for _ in 0..bytes.len() {
            if rest.is_empty() {
                return;
            }
            if self.frame.is_whole() {
                self.frame = Frame::new();
                self.place = place_at(self.counts.bytes);
            }
            let missing = usize::try_from(self.frame.missing()).unwrap_or(usize::MAX);
            let (front, behind) = rest.split_at(missing.min(rest.len()));
            self.frame.push(front);
            self.counts.bytes = self.counts.bytes.saturating_add(front.len() as u64);
            rest = behind;
            if self.frame.is_whole() {
                self.close();
            }
        }
    }

    /// Takes in a frame that is whole. Fields that are missing are not known.
    fn close(&mut self) {
        self.counts.frames = self.counts.frames.saturating_add(1);
        let frame = self.frame;
        let mut front = Front::new(frame.front());
        if front.byte() == Some(b'd') {
            let _length = front.int32();
            if front.byte() == Some(b'w') {
                self.place.start = front.int64();
                let _positions = (front.int64(), front.int64());
                let _known = self.take_message(&mut front);
            }
        }
    }

    /// Takes in the message at the front. None where a field is missing.
    fn take_message(&mut self, front: &mut Front<'_>) -> Option<()> {
        let tag = front.byte()?;
        self.place.message = name_of(tag);
        self.place.xid = self.open;
        match tag {
            b'B' => {
                let _final_and_time = (front.int64()?, front.int64()?);
                self.open = Some(front.int32()?);
                self.place.xid = self.open;
            }
            b'C' => {
                self.open = None;
                self.take_commit(front)?;
            }
            b'S' => {
                self.open = Some(front.int32()?);
                self.in_block = true;
                self.place.xid = self.open;
            }
            b'E' => {
                self.open = None;
                self.in_block = false;
            }
            b'c' => {
                self.place.xid = Some(front.int32()?);
                self.take_commit(front)?;
            }
            b'A' => {
                self.place.xid = Some(front.int32()?);
                self.place.sub = Some(front.int32()?);
            }
            _ => self.take_inner(tag, front)?,
        }
        Some(())
    }

    /// Takes in the end LSN behind the flags and the commit's LSN.
    fn take_commit(&mut self, front: &mut Front<'_>) -> Option<()> {
        let _flags = front.byte()?;
        let _commit = front.int64()?;
        self.counts.position = front.int64()?;
        self.counts.commits = self.counts.commits.saturating_add(1);
        Some(())
    }

    /// Takes in a message that may stand in a block.
    fn take_inner(&mut self, tag: u8, front: &mut Front<'_>) -> Option<()> {
        if self.in_block && matches!(tag, b'R' | b'Y' | b'I' | b'U' | b'D' | b'T' | b'M') {
            self.place.sub = Some(front.int32()?);
        }
        match tag {
            b'R' => {
                let oid = front.int32()?;
                self.place.relation = Some(oid);
                // Without memory the relation has no name here.
                let _learnt = self.learn(oid, front.text()?, front.text()?);
            }
            b'I' | b'U' | b'D' => {
                self.place.relation = Some(front.int32()?);
                self.counts.changes = self.counts.changes.saturating_add(1);
            }
            b'T' => {
                let _count_and_options = (front.int32()?, front.byte()?);
                self.place.relation = Some(front.int32()?);
                self.counts.changes = self.counts.changes.saturating_add(1);
            }
            _ => {}
        }
        Some(())
    }

    /// Keeps the name of a relation, in the place of an older one.
    fn learn(&mut self, oid: u32, namespace: &str, name: &str) -> Result<(), AllocError> {
        let relation = Relation {
            oid,
            namespace: String::from_str(self.alloc, namespace)?,
            name: String::from_str(self.alloc, name)?,
        };
        match self.relations.iter_mut().find(|known| known.oid == oid) {
            Some(known) => *known = relation,
            None => self.relations.push(relation)?,
        }
        Ok(())
    }
}

/// A frame of which nothing is known but where it begins.
fn place_at(offset: u64) -> Place {
    Place {
        offset,
        start: None,
        message: None,
        xid: None,
        sub: None,
        relation: None,
    }
}

/// The name of the message with this tag.
fn name_of(tag: u8) -> Option<&'static str> {
    match tag {
        b'B' => Some("Begin"),
        b'C' => Some("Commit"),
        b'O' => Some("Origin"),
        b'R' => Some("Relation"),
        b'Y' => Some("Type"),
        b'I' => Some("Insert"),
        b'U' => Some("Update"),
        b'D' => Some("Delete"),
        b'T' => Some("Truncate"),
        b'M' => Some("Message"),
        b'S' => Some("Stream Start"),
        b'E' => Some("Stream Stop"),
        b'c' => Some("Stream Commit"),
        b'A' => Some("Stream Abort"),
        _ => None,
    }
}
