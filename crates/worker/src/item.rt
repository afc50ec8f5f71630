// What goes through a worker's ring.
ghost use Rattle.std.specs.Prelude.{◌≡◌, All, length, [], ◌∷◌};
ghost use Rattle.model.specs.Named.{NamesTables};
ghost use Rattle.model.specs.Survivors.{changes_of};

use model::Item;
use std::marker::{Model, PhantomData};
use table_locks::StoreNames;

/// An item whose change, if it is one, names tables of the store alone. A clause sees the item.
#[derive(Debug, Drop)]
pub struct WorkItem<N: StoreNames> {
    item: Item,
    of: PhantomData<N>,
}

impl<N: StoreNames> Model for WorkItem<N> {
    ghost use Rattle.std.specs.Prelude.{All, length, [], ◌∷◌};
    ghost use Rattle.model.specs.declared.item.Item.{Item as AnyItem};
    ghost use Rattle.model.specs.Named.{NamesTables};
    ghost use Rattle.model.specs.Survivors.{changes_of};

    ghost Value = { AnyItem };

    ghost view = { λ w. w.item };

    ghost invariant = { λ w. All (NamesTables (length N.schema)) (changes_of (w.item ∷ [])) };
}

impl<N: StoreNames> WorkItem<N> {
    /// An item that may go through the ring.
    pub fn new(item: Item) -> WorkItem<N>
        requires { All (NamesTables (length N.schema)) (changes_of (item ∷ [])) }
        ensures { result ≡ item }
    {
        WorkItem {
            item,
            of: PhantomData,
        }
    }

    /// The item.
    pub fn item(&self) -> &Item
        ensures same { result.now ≡ self.now }
        ensures names { All (NamesTables (length N.schema)) (changes_of (result.now ∷ [])) }
    {
        &self.item
    }

    /// The item, by itself.
    pub fn into_item(self) -> Item
        ensures same { result ≡ self }
        ensures names { All (NamesTables (length N.schema)) (changes_of (result ∷ [])) }
    {
        let WorkItem { item, of: _ } = self;
        item
    }
}
