// Laws of the definitions, each the contract of a function that does nothing.
ghost use Rattle.std.specs.Prelude.{◌≡◌, ◌+◌, ◌<◌, ◌≤◌, ◌^◌, ◌⊎◌, ◌==◌, not, ℕ, List, [], ◌∷◌, ◌++◌, length};
ghost use Rattle.frames.specs.declared.fault.FrameFault.{FrameFault};
ghost use Rattle.frames.specs.declared.item.CopyItem.{CopyItem};
ghost use Rattle.frames.specs.Stream.{Waits, Closed, Broken, reading, after_items, reading_after, copy_items, ending_of, IsFrameFault};
ghost use Rattle.frames.specs.Wire.{copy_data, copy_done, error_response, notice_response, parameter_status, spelled_frame, spelled_wal, spelled_keepalive};

/// It doesn't matter where a stream is cut: the second piece is read from where the first one ends.
pub fn any_pieces()
    ensures { (a b : List ℕ) → reading (a ++ b) ≡ after_items (copy_items a) (reading_after (ending_of a) b) }
{}

/// A longer input keeps the items of a shorter one, and a stream that was closed or refused stays so.
pub fn longer_input()
    ensures items { (a b : List ℕ) →
        (more : List CopyItem) × (copy_items (a ++ b) ≡ copy_items a ++ more) }
    ensures closed { (a b : List ℕ) → ending_of a ≡ Closed →
        reading (a ++ b) ≡ reading a }
    ensures refused { (a b : List ℕ) (fault : FrameFault) → ending_of a ≡ Broken fault →
        reading (a ++ b) ≡ reading a }
{}

/// At a frame's edge the rest is read as a stream of its own.
pub fn at_an_edge()
    ensures edge { (a b : List ℕ) → ending_of a ≡ Waits [] →
        reading (a ++ b) ≡ after_items (copy_items a) (reading b) }
    ensures header { (bytes : List ℕ) → length bytes < 5 →
        reading bytes ≡ record { items = []; ending = Waits bytes } }
{}

/// What a stream waits with is less than a frame, and what refuses it is a fault of a frame.
pub fn endings()
    ensures waits { (bytes rest : List ℕ) → ending_of bytes ≡ Waits rest →
        reading rest ≡ record { items = []; ending = Waits rest } }
    ensures refused { (bytes : List ℕ) (fault : FrameFault) → ending_of bytes ≡ Broken fault →
        IsFrameFault fault }
{}

/// A frame that is spelled as the manual says is read, and then what follows it. The numbers are those of 64 bits, and
/// the clocks are left out.
#[tactic(auto, using(crate::proofs::Spelled::frames_read))]
pub fn spelled_frames()
    ensures wal { (start end clock : ℕ) (payload rest : List ℕ) →
        start < 2 ^ 64 → end < 2 ^ 64 → length payload + 29 ≤ 67108864 →
        reading (spelled_frame copy_data (spelled_wal start end clock payload) ++ rest)
        ≡ after_items (CopyItem.Wal start end payload ∷ []) (reading rest) }
    ensures keepalive { (end clock reply : ℕ) (rest : List ℕ) → end < 2 ^ 64 →
        reading (spelled_frame copy_data (spelled_keepalive end clock reply) ++ rest)
        ≡ after_items (CopyItem.Keepalive end (not (reply == 0)) ∷ []) (reading rest) }
    ensures done { (rest : List ℕ) → reading (spelled_frame copy_done [] ++ rest)
        ≡ record { items = CopyItem.Done ∷ []; ending = Closed } }
    ensures notice { (content rest : List ℕ) → length content + 4 ≤ 67108864 →
        reading (spelled_frame notice_response content ++ rest) ≡ reading rest }
    ensures parameter { (content rest : List ℕ) → length content + 4 ≤ 67108864 →
        reading (spelled_frame parameter_status content ++ rest) ≡ reading rest }
    ensures error { (content rest : List ℕ) → length content + 4 ≤ 67108864 →
        reading (spelled_frame error_response content ++ rest)
        ≡ record { items = []; ending = Broken FrameFault.ServerError } }
{}
