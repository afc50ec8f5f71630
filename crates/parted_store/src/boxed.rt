// The part of a table in a box.
ghost use Rattle.std.specs.Prelude.{◌≡◌, IfOk, IfErr};
ghost use Rattle.std.specs.Borrow.{Lends, sem};
ghost use Rattle.parted_store.specs.contracts.boxed.BoxedPart.{the_row as the_boxed_row};
ghost use Rattle.table_parts.specs.contracts.part.Part.{the_row as the_part_row};

use model::TableId;
use std::alloc::Global;
use std::marker::Model;
use table_parts::Part;

/// The part of a table in a box: whoever has many lends some to a call, and moves none. A clause
/// sees it as the part.
#[derive(Debug, Drop)]
pub struct BoxedPart {
    part: Box<Part>,
}

impl Model for BoxedPart {
    ghost use Rattle.std.specs.Box.{box_value};
    ghost use Rattle.table_parts.specs.Part.{Part as AnyPart};
    ghost use Rattle.table_parts.specs.PartCode.{part_code};

    ghost Value = { AnyPart };

    ghost coded = { part_code };

    ghost view = { λ b. box_value b.part };
}

impl BoxedPart {
    /// Puts a part into a box. Refused for memory, the part is handed back.
    pub fn new(alloc: Global, part: Part) -> Result<BoxedPart, Part>
        ensures ok { IfOk result (λ boxed. boxed ≡ part) }
        ensures err { IfErr result (λ refused. refused ≡ part) }
    {
        match Box::new(alloc, part) {
            Ok(part) => Ok(BoxedPart { part }),
            Err(refused) => Err(refused.value),
        }
    }

    /// The number of its table.
    pub fn number(&self) -> TableId
        ensures { result ≡ self.now.number }
    {
        self.part.number()
    }

    /// The part in the box, to be read.
    pub fn as_part(&self) -> &Part
        ensures { result.now ≡ self.now }
    {
        &*self.part
    }

    /// Takes the part out of its box.
    pub fn into_part(self) -> Part
        ensures { result ≡ self }
    {
        Box::into_inner(self.part)
    }

    /// The part in the box.
    pub fn part(&mut self) -> &mut Part
        ensures* lends { sem 𝓛 (Lends the_boxed_row the_part_row self.entry result (λ p. p)) }
        ensures part { result.now ≡ self.old }
    {
        &mut *self.part
    }
}
