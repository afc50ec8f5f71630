//! The first byte of a payload.

/// Which message a payload holds.
#[derive(Clone, Copy)]
pub(crate) enum Tag {
    Begin,
    Commit,
    Origin,
    Relation,
    TypeName,
    Insert,
    Update,
    Delete,
    Truncate,
    Message,
    StreamStart,
    StreamStop,
    StreamCommit,
    StreamAbort,
}
