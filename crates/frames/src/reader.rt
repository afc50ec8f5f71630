// The reader: bytes go in, in any pieces, and copy items come out.
ghost use Rattle.std.specs.Prelude.{◌≡◌, ◌≢◌, ◌⊎◌, ℕ, ◌<◌, true, false, List, [], ◌∷◌, ◌++◌, Ok, Err, None, IfNone, IfSome, IfErr, OnOk, MatchResult};
ghost use Rattle.std.specs.Io.KnownBytes.{Consumes};
ghost use Rattle.frames.specs.declared.item.CopyItem.{CopyItem};
ghost use Rattle.frames.specs.declared.fault.FrameFault.{FrameFault};
ghost use Rattle.frames.specs.Stream.{Waits, Closed, Broken, ending_of};
ghost use Rattle.frames.specs.Reads.{Reads, HasRead, AnswersFault, fault_of, fault_at_end, HasEnded, AtEndOf, IsStreamFault};
ghost use Rattle.frames.specs.Steps.{ending_after, ending_in, IsStreamState};
ghost use Rattle.frames.specs.Device.{HasFailed};

use crate::wire::{Taken, take_frame};
use crate::{CopyItem, Failed, FrameFault, Source};
use bytes::BytesMut;
use std::alloc::{AllocError, Global};
use std::collections::VecDeque;
use std::marker::Model;

// How much is read from a source at once.
const READ_SIZE: usize = 64 * 1024;

/// Reads the frames of a replication stream, in whatever pieces its bytes come, and keeps their items until they are
/// handed out.
#[derive(Debug, Drop)]
pub struct Frames {
    // The bytes of a frame that isn't whole.
    unread: BytesMut,
    // The items not handed out.
    items: VecDeque<CopyItem>,
    state: State,
}

#[derive(Clone, Copy, Debug)]
enum State {
    Reading,
    Done,
    Failed(FrameFault),
}

impl Model for Frames {
    ghost use Rattle.frames.specs.Stream.{Reading};

    ghost Value = { Reading };

    ghost use Rattle.frames.specs.Kept.{reading_left};

    ghost view = { reading_left };
}

// Takes all whole frames off the unread bytes, and adds their items. It answers whether CopyDone was among them.
fn take_frames(unread: &mut BytesMut, items: &mut VecDeque<CopyItem>) -> Result<bool, FrameFault>
    ensures read { (given : List CopyItem) × (items.new.items ≡ items.old.items ++ given)
        × Reads unread.old.items given (ending_after result unread.new.items) }
    ensures kind { IfErr result IsStreamFault }
{
    loop {
        match take_frame(unread)? {
            Taken::Part => return Ok(false),
            Taken::Skipped => {}
            Taken::Given(item) => items.push_back(item).map_err(AllocError::from)?,
            Taken::Closing => {
                items.push_back(CopyItem::Done).map_err(AllocError::from)?;
                return Ok(true);
            }
        }
    }
}

// Where the reader stands after one more piece.
fn take_piece(unread: &mut BytesMut, items: &mut VecDeque<CopyItem>, piece: &[u8]) -> State
    ensures read { (given : List CopyItem) × (items.new.items ≡ items.old.items ++ given)
        × Reads (unread.old.items ++ piece.now) given (ending_in result unread.new.items) }
    ensures kind { IsStreamState result }
{
    if unread.extend_from_slice(piece).is_err() {
        return State::Failed(FrameFault::OutOfMemory);
    }
    match take_frames(unread, items) {
        Ok(false) => State::Reading,
        Ok(true) => State::Done,
        Err(fault) => State::Failed(fault),
    }
}

impl Frames {
    /// A reader at the start of a stream. It takes no memory.
    pub fn new(alloc: Global) -> Frames
        ensures empty { result ≡ record { items = []; ending = Waits [] } }
        ensures read { HasRead [] [] result }
    {
        Frames {
            unread: BytesMut::new(alloc),
            items: VecDeque::new(alloc),
            state: State::Reading,
        }
    }

    /// Takes the next bytes of the stream, a piece of any length. After CopyDone they are dropped. A fault is that
    /// of the first faulty frame, or `OutOfMemory`; the items before it stand, and every later `feed`, `pull` and
    /// `finish` answers it again.
    pub fn feed(&mut self, piece: &[u8]) -> Result<(), FrameFault>
        ensures fault { AnswersFault result (fault_of self.new.ending) }

        // What was known of all bytes before is known of them with the piece.
        ensures read { (fault_of self.old.ending ≡ None) → (fed : List ℕ) (out : List CopyItem) →
            HasRead fed out self.old → HasRead (fed ++ piece.now) out self.new }

        // A new fault is one of the stream, or want of memory; an old one comes again, and nothing changes.
        ensures kind { IfErr result (λ fault. (self.old.ending ≡ Broken fault) ⊎ IsStreamFault fault) }
        ensures again { (fault : FrameFault) → self.old.ending ≡ Broken fault →
            (result ≡ Err fault) × (self.new ≡ self.old) }
    {
        match self.state {
            State::Reading => {}
            State::Done => return Ok(()),
            State::Failed(fault) => return Err(fault),
        }
        let state = take_piece(&mut self.unread, &mut self.items, piece);
        self.state = state;
        match state {
            State::Failed(fault) => Err(fault),
            State::Reading | State::Done => Ok(()),
        }
    }

    /// Reads once from the source, and takes what it gives as `feed` does. It answers false at the end of the input,
    /// and after CopyDone, where nothing is read; and the fault `Device` where the source failed in this call.
    pub fn pull<R: Source>(&mut self, r: &mut R) -> Result<bool, FrameFault>
        ensures fault { AnswersFault result (fault_of self.new.ending) }

        // The source gave a piece, and the reader took it.
        ensures read { (piece : List ℕ) × Consumes (R.remaining r.old) (R.remaining r.new) piece
            × ((fed : List ℕ) (out : List CopyItem) →
            HasRead fed out self.old → HasRead (fed ++ piece) out self.new) }
        ensures end { MatchResult result
            (λ more. more ≡ false → AtEndOf self.new.ending (R.remaining r.new))
            (λ _. AtEndOf self.new.ending (R.remaining r.new)) }
        ensures unchanged { result ≡ Ok false → self.new ≡ self.old }

        // Device comes where the source failed in this call, or again.
        ensures kind { IfErr result (λ fault. (self.old.ending ≡ Broken fault)
            ⊎ (IsStreamFault fault ⊎ (fault ≡ FrameFault.Device))) }
        ensures falls { result ≡ Ok true → R.reads_left r.new < R.reads_left r.old }
        ensures device { result ≡ Err FrameFault.Device → (self.old.ending ≡ Broken FrameFault.Device)
            ⊎ (HasFailed (R.failures r.old) (R.failures r.new) × (R.failed_last r.new ≡ true)) }
        ensures kept { result ≡ Err FrameFault.Device → self.new.items ≡ self.old.items }
        ensures works { result ≢ Err FrameFault.Device → R.failures r.new ≡ R.failures r.old }

        // A reader that was refused or closed asks for nothing.
        ensures again { (fault : FrameFault) → self.old.ending ≡ Broken fault →
            (result ≡ Err fault) × (self.new ≡ self.old) × (r.new ≡ r.old) }
        ensures closed { self.old.ending ≡ Closed → (result ≡ Ok false) × (r.new ≡ r.old) }
    {
        match self.state {
            State::Reading => {}
            State::Done => return Ok(false),
            State::Failed(fault) => return Err(fault),
        }
        let mut buf = buffer();
        match r.read_some(&mut buf) {
            Ok(0) => Ok(false),
            Ok(n) => {
                self.feed(&buf[..n])?;
                Ok(true)
            }
            Err(Failed) => {
                self.state = State::Failed(FrameFault::Device);
                Err(FrameFault::Device)
            }
        }
    }

    /// Hands out the next item, in the order of the stream. It takes no memory.
    pub fn next(&mut self) -> Option<CopyItem>
        ensures item { IfSome result (λ item. self.old.items ≡ item ∷ self.new.items) }
        ensures none { IfNone result ((self.old.items ≡ []) × (self.new ≡ self.old)) }
        ensures ending { self.new.ending ≡ self.old.ending }
        ensures read { IfSome result (λ item. (fed : List ℕ) (out : List CopyItem) →
            HasRead fed out self.old → HasRead fed (out ++ item ∷ []) self.new) }
    {
        self.items.pop_front()
    }

    /// Says whether the input may end here: at a frame's edge or after CopyDone. Inside a frame the fault is
    /// `Truncated`, and after a refusal the same fault again.
    pub fn finish(&self) -> Result<(), FrameFault>
        ensures fault { AnswersFault result (fault_at_end self.now.ending) }

        // Once nothing is kept, what was handed out is all of the bytes fed.
        ensures read { self.now.items ≡ [] → (fed : List ℕ) (out : List CopyItem) →
            HasRead fed out self.now → HasEnded result fed out }
        ensures stands { OnOk result ((fed : List ℕ) (out : List CopyItem) →
            HasRead fed out self.now → ending_of fed ≡ self.now.ending) }
    {
        match self.state {
            State::Reading if self.unread.is_empty() => Ok(()),
            State::Reading => Err(FrameFault::Truncated),
            State::Done => Ok(()),
            State::Failed(fault) => Err(fault),
        }
    }
}

// Room for one read, made apart: a proof in which the array lies as it is made takes some seconds more.
fn buffer() -> [u8; READ_SIZE] {
    [0; READ_SIZE]
}
