// Laws of streams, each the contract of a function that does nothing.
ghost use Rattle.std.specs.Prelude.{◌≡◌, ◌≢◌, ◌<◌, ◌++◌, ◌∷◌, [], ℕ, List, slice_index};
ghost use Rattle.messages.specs.declared.message.Message.{Message};
ghost use Rattle.session.specs.declared.fault.Refused.{Refused as Refusal};
ghost use Rattle.session.specs.declared.fault.Refused.TheVariants.{OutOfMemory};
ghost use Rattle.session.specs.State.{Committed, Setting, State};
ghost use Rattle.session.specs.Lawful.{Admits, Refuses, Leads, IsLawful, IsFinal};

use messages::{one_fault, one_message};

/// Payloads lead from a state to one state at most.
pub fn one_state()
    ensures { (g : Setting) (s : State) (payloads : List (List ℕ)) (t u : State) → Leads g s payloads t → Leads g s payloads u → t ≡ u }
{
    one_message();
}

/// What is admitted is not refused, but for memory.
pub fn refused_or_admitted()
    ensures { (g : Setting) (s : State) (payload : List ℕ) (m : Message) (t : State) (refused : Refusal) → ((i : ℕ) → slice_index payload i < 256)
        → Admits g s payload m t → Refuses g s payload refused → refused ≢ OutOfMemory → ⊥ }
{
    one_message();
    one_fault();
}

/// Of the first transaction that commits nothing is final if its commit LSN is the skip; of any other
/// all that its messages gave it.
pub fn skips_the_first()
    ensures { (g : Setting) (payloads : List (List ℕ)) (s t : State) (payload : List ℕ) (m : Message) (c : Committed) → IsLawful g payloads s
        → Admits g s payload m t → t.past ≡ s.past ++ c ∷ [] → IsFinal g s c }
{}
