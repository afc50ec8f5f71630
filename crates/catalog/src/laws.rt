// The rules of a catalog's document, each the contract of a function that does nothing: the definitions of `specs`
// keep them.
ghost use Rattle.catalog.specs.Statements.{DocumentsAreReadAsDescribed, TextsAreRefusedFirst, CatalogsHaveWhatIsDescribed};

/// A document is read as the tables that it describes, and as none if it describes none.
pub fn documents_are_read_as_described()
    ensures { DocumentsAreReadAsDescribed }
{}

/// A text is refused for the first fault that applies, wherever in it the faults stand, and no other is refused.
pub fn texts_are_refused_first()
    ensures { TextsAreRefusedFirst }
{}

/// A catalog has, table by table and column by column, the names, types, defaults and keys of the document.
pub fn catalogs_have_what_is_described()
    ensures { CatalogsHaveWhatIsDescribed }
{}
