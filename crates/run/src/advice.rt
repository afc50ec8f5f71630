// What an end means to whoever runs the program, and what to do about it.
use crate::end::End;
use frames::FrameFault;
use messages::MsgFault;
use relcache::RelFault;
use session::SessionFault;
use std::error::Error;
use std::fmt;

impl Error for End {}

impl fmt::Display for End {
    fn fmt<W: fmt::Write>(&self, f: &mut fmt::Formatter<W>) -> fmt::Result {
        match self {
            End::Clean => write!(f, "the stream was applied to its end"),
            End::Frame(fault) => advise(f, fault, frame_advice(*fault)),
            End::Msg(fault) => advise(f, fault, message_advice(*fault)),
            End::Session(fault) => advise(f, fault, session_advice(*fault)),
            End::Rel(fault) => advise(f, fault, relation_advice(*fault)),
            End::Unique { table, key } => write!(
                f,
                "a row would stand twice in key {key} of table {table} (0 is the primary key, and the first table): {DIVERGED}"
            ),
            End::NullKey { table } => write!(
                f,
                "a row of table {table} (0 is the first) has a null in its primary key: let the catalog's primary key be one that the publisher keeps"
            ),
            End::HeldKey { xid, holder } => write!(
                f,
                "transaction {xid} needs a row or a unique value that transaction {holder} holds: {DIVERGED}"
            ),
            End::OutOfMemory => write!(
                f,
                "memory was refused: give the process more, or the spool less"
            ),
        }
    }
}

/// Says a fault, and what to do about it.
fn advise<W: fmt::Write>(
    f: &mut fmt::Formatter<W>,
    fault: &impl fmt::Display,
    advice: &str,
) -> fmt::Result {
    write!(f, "{fault}: {advice}")
}

/// What to do where rows are in the way that the publisher hasn't.
const DIVERGED: &str =
    "the tables are no true copy of the publisher's: compare them at the position, or begin again with empty tables";

/// What to do where messages are missing or come twice.
const BROKEN: &str =
    "messages were lost or came twice: capture the stream again from the slot's start";

/// What to do about bytes that are no replication stream.
const NO_STREAM: &str =
    "see that the input has the stream's CopyData frames alone, whole and in order";

fn frame_advice(fault: FrameFault) -> &'static str {
    match fault {
        FrameFault::UnknownFrame
        | FrameFault::BadLength
        | FrameFault::TooLarge
        | FrameFault::UnknownCopyTag => NO_STREAM,
        FrameFault::Truncated => "the rest of the stream is missing: capture it again",
        FrameFault::ServerError => "the server's log says why it ended the stream",
        FrameFault::Device =>
            "see that the input can be read and the connection stands, and run again",
        FrameFault::OutOfMemory => "give the process more memory",
    }
}

fn message_advice(fault: MsgFault) -> &'static str {
    match fault {
        MsgFault::BinaryColumn => "ask the publisher for binary 'false'",
        MsgFault::TwoPhase => "ask the publisher for two_phase 'false'",
        MsgFault::OutOfMemory => "give the process more memory",
        MsgFault::UnknownTag
        | MsgFault::Short
        | MsgFault::Trailing
        | MsgFault::BadTupleKind
        | MsgFault::BadText
        | MsgFault::BadFlag
        | MsgFault::NegativeCount => {
            "ask the publisher for proto_version '4' and streaming 'parallel', and see that no byte was changed on the way"
        }
    }
}

fn session_advice(fault: SessionFault) -> &'static str {
    match fault {
        SessionFault::OldCommit => {
            "the stream has a transaction twice, or its files are not in their order"
        }
        SessionFault::SpoolFull => {
            "the open streamed transactions take more bytes than the spool has: give it more (--spool)"
        }
        SessionFault::TooManyOpen =>
            "4096 streamed transactions are open at once, and no more may be",
        SessionFault::NotInTransaction
        | SessionFault::NestedBegin
        | SessionFault::BlockOpen
        | SessionFault::NoBlock
        | SessionFault::UnknownTransaction
        | SessionFault::AlreadyOpen
        | SessionFault::CommitMismatch => BROKEN,
    }
}

fn relation_advice(fault: RelFault) -> &'static str {
    match fault {
        RelFault::UnknownRelation => BROKEN,
        RelFault::TableMissing => "add the table to the catalog, or take it from the publication",
        RelFault::ColumnMissing => {
            "add the published column to the catalog's table, or leave it out of the publication"
        }
        RelFault::KeyNotSent => {
            "let the publisher's replica identity have all columns of the catalog's primary key"
        }
        RelFault::ColumnCount => BROKEN,
        RelFault::BadValue => {
            "give the column a type in the catalog that holds what the publisher sends; text holds all"
        }
        RelFault::NullKey => "let the catalog's primary key be one that the publisher keeps",
        RelFault::OutOfMemory => "give the process more memory",
    }
}
