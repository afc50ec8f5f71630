//! The messages of PostgreSQL 16's logical replication, protocol version 4, with streamed transactions:
//! `decode` reads the payload of an XLogData, and `encode` writes it again.
//!
//! **What it promises.** Each message is a list of fields, written in `specs/Messages.antt` so that a reader
//! can lay it beside the tables of the manual ('Logical Replication Message Formats'). `Spelled payload
//! in_block m` is what these lists give. `decode` answers a message exactly where the payload spells it, and
//! otherwise the one fault that stands there: the first field from the left that is missing or wrong, or the
//! bytes after the last one. `encode` appends the one spelling. No spelling of a message begins another's,
//! so what is written is read again, and what is read is written again byte for byte. Only memory can make
//! either of them answer otherwise, by its name.
//!
//! **How it works.** A format is data: a value, a field, or a format and what follows each of its values.
//! What the bytes spell and which fault stands are recursions over it, and all laws are proved once by
//! induction on it (`proofs/Formats.antt`). The code has one reader and one writer a message; each reader is
//! tied to its format by one clause, so a further message needs no proof for reading.
//!
//! Whether a message names its transaction depends on where it stands: exactly in a block of a streamed
//! transaction (between Stream Start and Stream Stop) it does. The caller says which by `in_block`.
//!
//! **Cost.** Texts and names are cuts of the payload's shared bytes, so no text is copied. The columns of a
//! tuple or a relation, and a truncate's OIDs, are one `Vec`, with room for no more of them than bytes are
//! there, whatever a count says. Names, texts and lists have types of their own that keep them short enough
//! for their length fields; so `encode` asks for nothing but the xid.
//!
//! It stands on `bytes` for the shared bytes, and on `thiserror` for the faults' texts.
#![tactic(auto)]

mod cursor;
mod decoding;
mod encoding;
mod fault;
mod laws;
mod message;
mod relation;
mod row;
mod tag;
mod text;
mod tuple;

pub use decoding::decode;
pub use encoding::encode;
pub use fault::MsgFault;
pub use laws::{no_spelling_begins_another, one_fault, one_message, one_spelling};
pub use message::{
    Begin, Commit, LogicalMessage, Lsn, Message, Oid, Origin, StreamAbort, StreamCommit,
    StreamStart, Xid,
};
pub use relation::{
    Columns, Relation, RelationColumn, Relations, ReplicaIdentity, Truncate, TruncateOptions,
    TypeName,
};
pub use row::{Delete, Insert, RowMessage, Update};
pub use text::{Content, Name, Text};
pub use tuple::{Column, OldTuple, Tuple};
