//! Laws of the spellings, each the contract of a function that does nothing.

ghost use Rattle.std.specs.Prelude.{◌≡◌, ◌<◌, ℕ, Bool, List, [], ◌++◌, slice_index};
ghost use Rattle.messages.specs.Messages.{Spelled, HasFault};
ghost use Rattle.messages.specs.declared.fault.MsgFault.{MsgFault};
ghost use Rattle.messages.specs.declared.message.Message.{Message};

/// No spelling of a message begins another's, both in a block or both outside of one.
pub fn no_spelling_begins_another()
    ensures { (payload more : List ℕ) (in_block : Bool) (m n : Message) → Spelled payload in_block m
        → Spelled (payload ++ more) in_block n → (more ≡ []) × (m ≡ n) }
{}

/// A payload spells one message at most. So what was encoded is decoded again.
pub fn one_message()
    ensures { (payload : List ℕ) (in_block : Bool) (m n : Message) → Spelled payload in_block m
        → Spelled payload in_block n → m ≡ n }
{}

/// A message has one spelling at most. So what was decoded is encoded again, byte for byte.
pub fn one_spelling()
    ensures { (payload other : List ℕ) (in_block : Bool) (m : Message) → Spelled payload in_block m
        → Spelled other in_block m → payload ≡ other }
{}

/// One fault stands in a payload at most, and none where the payload spells a message.
pub fn one_fault()
    ensures one { (payload : List ℕ) (in_block : Bool) (f g : MsgFault)
        → ((i : ℕ) → slice_index payload i < 256) → HasFault payload in_block f
        → HasFault payload in_block g → f ≡ g }
    ensures none { (payload : List ℕ) (in_block : Bool) (m : Message) (f : MsgFault)
        → ((i : ℕ) → slice_index payload i < 256) → Spelled payload in_block m
        → ¬ (HasFault payload in_block f) }
{}
