// The rules of relations and rows, each the contract of a function that does nothing: the definitions of
// `specs` keep them.
ghost use Rattle.std.specs.Prelude.{◌≡◌, ◌≢◌, ℕ, List, [], Some, None, Ok, slice_get};
ghost use Rattle.messages.specs.declared.relation.Relation.{Relation};
ghost use Rattle.messages.specs.declared.row.RowMessage.{RowMessage};
ghost use Rattle.model.specs.declared.change.Change.{Change};
ghost use Rattle.model.specs.Definition.{Definition};
ghost use Rattle.catalog.specs.First.{IsRefusedFirst};
ghost use Rattle.catalog.specs.Valid.{IsValid};
ghost use Rattle.relcache.specs.Published.{Published, Relations, published, learnt, relation_of};
ghost use Rattle.relcache.specs.Mapping.{Mapped, resolved};
ghost use Rattle.relcache.specs.Planning.{planned};
ghost use Rattle.relcache.specs.Statements.{order, Says, IsNamedBy, IsTableOf, IsUseFault, Maps, IsRowFault, Asks};

/// What is known of an OID is what the relation said that was last learnt for it: its names, and the name and the flag
/// of each column, in their order.
pub fn the_last_relation_counts()
    ensures none { (oid : ℕ) → relation_of [] oid ≡ None }
    ensures own { (relations : Relations) (r : Relation) →
        relation_of (learnt relations r) r.oid ≡ Some (published r) }
    ensures others { (relations : Relations) (r : Relation) (oid : ℕ) → oid ≢ r.oid →
        relation_of (learnt relations r) oid ≡ relation_of relations oid }
    ensures says { (r : Relation) → Says r (published r) }
{}

/// A relation is mapped to the table that it names, column by column of the same name.
pub fn relations_map_by_name()
    ensures { (tables : List Definition) (relations : Relations) (oid : ℕ) (m : Mapped) →
        resolved tables relations oid ≡ Ok m → (r : Published) × (t : Definition)
        × (relation_of relations oid ≡ Some r) × IsTableOf tables r m.table t × Maps r.columns t m }
{}

/// A valid catalog has one table at most that a relation names.
pub fn relations_name_one_table()
    ensures { (tables : List Definition) (r : Published) (i j : ℕ) (t u : Definition) → IsValid tables
        → slice_get tables i ≡ Some t → slice_get tables j ≡ Some u → IsNamedBy t r → IsNamedBy u r → i ≡ j }
{}

/// A relation that can't be used is refused for the first fault that applies, and no other is refused.
pub fn relations_are_refused_first()
    ensures { (tables : List Definition) (relations : Relations) (oid : ℕ) →
        IsRefusedFirst order (resolved tables relations oid) (IsUseFault tables relations oid) }
{}

/// A row message asks for just this change.
pub fn row_messages_ask()
    ensures { (m : Mapped) (row : RowMessage) (change : Change) → planned m row ≡ Ok change → Asks m row change }
{}

/// A row message that does not fit is refused for the first fault that applies, over the whole message, and no other
/// is refused.
pub fn row_messages_are_refused_first()
    ensures { (m : Mapped) (row : RowMessage) → IsRefusedFirst order (planned m row) (IsRowFault m row) }
{}
