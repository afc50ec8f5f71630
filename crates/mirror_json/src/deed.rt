// What a change did to a table.
use model::Key;

// What a change did to a table, with the keys of the row that it met.
#[derive(Clone, Copy, Debug)]
pub(crate) enum Deed<'a> {
    Insert { key: &'a Key },
    Update { key: &'a Key, new_key: &'a Key },
    Delete { key: &'a Key },
    Truncate,
}

impl<'a> Deed<'a> {
    // Its name in a line.
    pub(crate) fn kind(self) -> &'static str {
        match self {
            Deed::Insert { .. } => "insert",
            Deed::Update { .. } => "update",
            Deed::Delete { .. } => "delete",
            Deed::Truncate => "truncate",
        }
    }

    // The key before the change; that of the row of an insert.
    pub(crate) fn key(self) -> Option<&'a Key> {
        match self {
            Deed::Insert { key } | Deed::Update { key, .. } | Deed::Delete { key } => Some(key),
            Deed::Truncate => None,
        }
    }

    // The key behind the change, where a row stands then.
    pub(crate) fn key_behind(self) -> Option<&'a Key> {
        match self {
            Deed::Insert { key } | Deed::Update { new_key: key, .. } => Some(key),
            Deed::Delete { .. } | Deed::Truncate => None,
        }
    }
}
