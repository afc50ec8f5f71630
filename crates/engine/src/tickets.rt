// What the hands that call a store hold of it: nothing but knowledge.
ghost use Rattle.std.specs.Prelude.{◌≡◌};

use crate::events::{Event, LineEvent};
use model::Xid;
use std::marker::Model;
use tokens::{Seen as SeenList, Slip, Token};

/// The one token of an open transaction. A clause sees the name of its store's tickets, the
/// transaction's number, and the list of what happened to it.
#[derive(Debug, Drop)]
pub struct Ticket {
    pub(crate) slip: Slip<Event>,
}

impl Model for Ticket {
    ghost use Rattle.engine.specs.declared.events.Event.{Event as AnyEvent};
    ghost use Rattle.tokens.specs.Lists.{OpenList};

    ghost Value = { OpenList AnyEvent };

    ghost view = { λ t. t.slip };
}

impl Ticket {
    /// The transaction's number.
    pub fn xid(&self) -> Xid
        ensures { result ≡ self.now.number }
    {
        self.slip.number()
    }
}

/// The one token of a store's commits. A clause sees its name, and the list of what happened to all
/// transactions: which were opened, committed with which items, and aborted.
#[derive(Debug, Drop)]
pub struct Line {
    pub(crate) token: Token<LineEvent>,
}

impl Model for Line {
    ghost use Rattle.engine.specs.declared.events.LineEvent.{LineEvent as AnyEvent};
    ghost use Rattle.tokens.specs.Half.{Half};

    ghost Value = { Half AnyEvent };

    ghost view = { λ l. l.token };
}

/// What was seen of a store's line: a beginning of what it is now. It has no bytes. A clause sees the
/// line's name, and the list of what was seen.
#[derive(Debug, Drop)]
pub struct Seen {
    pub(crate) list: SeenList<LineEvent>,
}

impl Model for Seen {
    ghost use Rattle.engine.specs.declared.events.LineEvent.{LineEvent as AnyEvent};
    ghost use Rattle.tokens.specs.Half.{Half};

    ghost Value = { Half AnyEvent };

    ghost view = { λ s. s.list };
}
