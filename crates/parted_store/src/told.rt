// A list of which one hand has both halves. Proofs alone know it.
ghost use Rattle.std.specs.Prelude.{◌≡◌, ◌++◌, [], IfOk};

use model::OutOfMemory;
use std::alloc::Global;
use std::marker::Model;
use tokens::{Items, Kept, Token, grow_by, pair};

/// A list of which one hand has both halves: nobody else has to know of it.
#[derive(Debug, Drop)]
pub struct Told<X> {
    kept: Kept<X>,
    token: Token<X>,
}

impl<X> Model for Told<X> {
    ghost use Rattle.std.specs.Prelude.{◌≡◌, List};

    ghost Value = { List X };

    ghost view = { λ t. t.kept.list };

    ghost invariant = { λ t. t.token ≡ t.kept };
}

impl<X> Told<X> {
    /// An empty one. Only this takes memory.
    pub fn new(alloc: Global) -> Result<Told<X>, OutOfMemory>
        ensures { IfOk result (λ told. told ≡ []) }
    {
        let (kept, token) = pair(alloc)?;
        Ok(Told { kept, token })
    }

    /// Appends items that only proofs know.
    pub fn grow_by<N: Items<X>>(&mut self)
        ensures { self.new ≡ self.old ++ N.items }
    {
        grow_by::<X, N>(&mut self.kept, &mut self.token);
    }
}
