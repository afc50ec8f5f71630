// The rule of a position's cell, and what each step tells the token that makes it.
use crate::position::Published;
use atomic_table::{Join, Split};
use crossbeam_utils::rule::{Outcome, Protocol};
use std::collections::LinkedList;

/// What a token knows, as end LSNs, oldest first: all that were published, if it publishes, and
/// those that it has seen. It is for the proofs alone, and no value of it is made.
pub struct View {
    pub published: Option<LinkedList<u64>>,
    pub seen: LinkedList<u64>,
}

/// Positions are published one commit after another, by one token, and the cell has the last.
pub struct InOrder;

impl Protocol<Published, View> for InOrder {
    ghost use Rattle.origin.specs.Rule.{IsInOrder, first_view};

    ghost holds = { IsInOrder };

    ghost first = { first_view };
}

/// The publisher stores the next position.
pub struct Publish;

impl Outcome<Published, View> for Publish {
    ghost use Rattle.origin.specs.Rule.{Publishes};

    ghost then = { λ before _ stored after. Publishes before stored after };
}

/// A loader loads the last position.
pub struct Load;

impl Outcome<Published, View> for Load {
    ghost use Rattle.origin.specs.Rule.{Loads};

    ghost then = { λ before found _ after. Loads before found after };
}

/// A publisher that has what a loader saw compares it with what it published.
pub struct Compare;

impl Outcome<Published, View> for Compare {
    ghost use Rattle.origin.specs.Rule.{Compares};

    ghost then = { λ before _ _ after. Compares before after };
}

/// What was seen is told to another token.
pub struct Seen;

impl Split<View> for Seen {
    ghost use Rattle.origin.specs.Rule.{seen_part};

    ghost left = { λ v. v };

    ghost right = { seen_part };
}

/// The publisher takes in what a loader saw.
pub struct Met;

impl Join<View> for Met {
    ghost use Rattle.origin.specs.Rule.{met_view, blank_view};

    ghost both = { met_view };

    ghost spent = { blank_view };
}
