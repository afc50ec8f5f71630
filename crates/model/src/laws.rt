// The laws of orders, edits, effects and inverses. Each function does nothing: its contract is a law,
// over all rows and all changes, and the check of this crate proves it.
ghost use Rattle.model.specs.Types.{TextsAreReadAsSpelled, PrintedIsRead};
ghost use Rattle.model.specs.Statements.{ValuesAreOrdered, KeysAreOrdered, PlacesAreOrdered, OverlayByPlace, SkipLeavesRows, ClashLeavesRows, EffectKeepsValid, InverseRestores, InverseRestoresPast, SerialAppends, UndoneRestores};

/// A text is read as the value of the type that it spells, and as none if it spells none.
pub fn texts_are_read_as_spelled()
    ensures { TextsAreReadAsSpelled }
{}

/// What is printed of a value is read as that value, a text once its escapes are undone; and null is
/// printed as no text is.
pub fn what_is_printed_is_read()
    ensures { PrintedIsRead }
{}

/// The order of values is total, and its Equal means equal.
pub fn values_are_ordered()
    ensures { ValuesAreOrdered }
{}

/// So is that of keys.
pub fn keys_are_ordered()
    ensures { KeysAreOrdered }
{}

/// So is that of places: a table and a key.
pub fn places_are_ordered()
    ensures { PlacesAreOrdered }
{}

/// What stands at a place after edits is the edit there, or else the row.
pub fn overlay_by_place()
    ensures { OverlayByPlace }
{}

/// A change that is skipped leaves the rows.
pub fn skip_leaves_rows()
    ensures { SkipLeavesRows }
{}

/// A change that clashes leaves the rows.
pub fn clash_leaves_rows()
    ensures { ClashLeavesRows }
{}

/// A change keeps valid rows valid.
pub fn effect_keeps_valid()
    ensures { EffectKeepsValid }
{}

/// A change and then its inverse restore the rows, whatever they are.
pub fn inverse_restores()
    ensures { InverseRestores }
{}

/// They do so past edits at other places too, and those stay.
pub fn inverse_restores_past()
    ensures { InverseRestoresPast }
{}

/// One list of changes after another is the two as one.
pub fn serial_appends()
    ensures { SerialAppends }
{}

/// The inverses of changes, put back from the newest, restore the rows before them.
pub fn undone_restores()
    ensures { UndoneRestores }
{}
