// Where a stream may be cut, and what it told until there.
use crate::frame::{int32_at, message_of, push_unstreamed};
use model::Xid;
use std::alloc::{AllocError, Global};

/// The part of the stream that the next message stands in.
#[derive(Clone, Copy, Debug, PartialEq, Eq)]
enum Phase {
    /// Outside of transactions.
    Outside,
    /// Between Begin and Commit.
    Begun,
    /// In a block of a streamed transaction.
    Block,
}

/// A relation that the publisher told, by a frame as it is outside of a block.
#[derive(Debug, Drop)]
struct Relation {
    id: u32,
    frame: Vec<u8>,
}

/// What is open where a stream has come to, and the relations that it told.
#[derive(Debug, Drop)]
pub struct Edges {
    alloc: Global,
    phase: Phase,
    /// The streamed transactions that are open.
    open: Vec<Xid>,
    relations: Vec<Relation>,
    commits: u64,
}

impl Edges {
    /// Nothing was read yet.
    pub fn new(alloc: Global) -> Edges {
        Edges {
            alloc,
            phase: Phase::Outside,
            open: Vec::new(alloc),
            relations: Vec::new(alloc),
            commits: 0,
        }
    }

    /// Whether no transaction is open here.
    pub fn is_closed(&self) -> bool {
        self.phase == Phase::Outside && self.open.is_empty()
    }

    /// How many commits it had.
    pub fn commits(&self) -> u64 {
        self.commits
    }

    /// Notes the next frame.
    pub fn note(&mut self, frame: &[u8]) -> Result<(), AllocError> {
        let message = message_of(frame);
        let xid = int32_at(message, 1);
        match message.first() {
            Some(b'B') => self.phase = Phase::Begun,
            Some(b'S') => {
                self.phase = Phase::Block;
                if !self.open.contains(&xid) {
                    self.open.push(xid)?;
                }
            }
            Some(b'E') => self.phase = Phase::Outside,
            Some(b'C') => {
                self.phase = Phase::Outside;
                self.commits = self.commits.saturating_add(1);
            }
            Some(b'c') => {
                self.close(xid);
                self.commits = self.commits.saturating_add(1);
            }
            Some(b'A') if int32_at(message, 5) == xid => self.close(xid),
            Some(b'R') => self.learn(frame)?,
            _ => {}
        }
        Ok(())
    }

    // A streamed transaction is open no more.
    fn close(&mut self, xid: Xid) {
        if let Some(place) = self.open.iter().position(|open| *open == xid) {
            self.open.swap_remove(place);
        }
    }

    // Keeps a relation, in place of what was told of it before.
    fn learn(&mut self, frame: &[u8]) -> Result<(), AllocError> {
        let mut told = Vec::new(self.alloc);
        match self.phase {
            Phase::Block => push_unstreamed(frame, &mut told)?,
            Phase::Outside | Phase::Begun => told.extend_from_slice(frame)?,
        }
        let id = int32_at(message_of(told.as_slice()), 1);
        for relation in &mut self.relations {
            if relation.id == id {
                relation.frame = told;
                return Ok(());
            }
        }
        self.relations.push(Relation { id, frame: told })?;
        Ok(())
    }

    /// Appends the relations that were told, as they are outside of a block.
    pub fn push_relations(&self, out: &mut Vec<u8>) -> Result<(), AllocError> {
        for relation in &self.relations {
            out.extend_from_slice(relation.frame.as_slice())?;
        }
        Ok(())
    }
}
