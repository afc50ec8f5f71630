//! Reading a payload: one function a message, named after it.

ghost use Rattle.std.specs.Prelude.{◌≡◌, ◌<◌, ◌⊎◌, ℕ, length, slice_index, IfOk, IfErr};
ghost use Rattle.messages.specs.Field.{four, Unsigned};
ghost use Rattle.messages.specs.Format.{Format, one, times};
ghost use Rattle.messages.specs.Letters.{flag, no_flags, truncate_options, identity, new_tuple_follows, tag};
ghost use Rattle.messages.specs.Messages.{xid_in, text, column, tuple, old_tuple, optional_old_tuple, begin, commit, origin, relation_column, relation_columns, relation, type_name, insert, update, delete, truncate, content, logical_message, stream_start, stream_commit, stream_abort, message, Spelled, HasFault, HasXid};
ghost use Rattle.messages.specs.Reading.{Gives, GivesBy, IsReading, read, read_all};
ghost use Rattle.messages.specs.declared.fault.MsgFault.{MsgFault};
ghost use Rattle.messages.specs.declared.fault.MsgFault.TheVariants.{OutOfMemory};
ghost use Rattle.messages.specs.declared.message.Message.{Message};

use crate::cursor::Cursor;
use crate::fault::MsgFault;
use crate::message::{
    Begin, Commit, LogicalMessage, Message, Oid, Origin, StreamAbort, StreamCommit, StreamStart,
    Xid,
};
use crate::relation::{
    Columns, Relation, RelationColumn, Relations, ReplicaIdentity, Truncate, TruncateOptions,
    TypeName,
};
use crate::row::{Delete, Insert, Update};
use crate::tag::Tag;
use crate::text::Content;
use crate::tuple::{Column, OldTuple, Tuple};
use bytes::Bytes;
use std::alloc::Global;

/// The message that the payload of an XLogData spells, in a block of a streamed transaction or outside of one.
/// Texts and names are cuts of the payload's shared bytes: nothing of them is copied.
///
/// Fields are read from left to right, and the first that is missing or wrong decides; bytes after the last
/// field come last. A refusal changes nothing.
pub fn decode(alloc: Global, payload: &Bytes, in_block: bool) -> Result<Message, MsgFault>
    ensures spelled { IfOk result (λ m. Spelled payload.now in_block m) }
    // A message that names its transaction only in a block names it exactly there.
    ensures xid { IfOk result (λ m. HasXid in_block m) }
    // What is spelled is answered, unless memory is refused.
    ensures only { (m : Message) → Spelled payload.now in_block m
        → (result ≡ Ok m) ⊎ (result ≡ Err OutOfMemory) }
    ensures fault { IfErr result (λ fault. (fault ≡ OutOfMemory) ⊎ HasFault payload.now in_block fault) }
    // The fault that stands is answered, unless memory is refused.
    ensures refused { (fault : MsgFault) → HasFault payload.now in_block fault
        → (result ≡ Err fault) ⊎ (result ≡ Err OutOfMemory) }
{
    are_bytes(payload.as_slice());
    read_payload(alloc, payload, in_block)
}

/// Tells a proof that the bytes are below 256, which it knows of slices alone.
fn are_bytes(bytes: &[u8])
    ensures { (i : ℕ) → slice_index bytes.now i < 256 }
{}

fn read_payload(alloc: Global, payload: &Bytes, in_block: bool) -> Result<Message, MsgFault>
    ensures { IsReading result (read_all (message in_block) payload.now) }
{
    let mut cursor = Cursor::new(payload);
    let message = read_message(alloc, &mut cursor, in_block)?;
    if !cursor.unread().is_empty() {
        return Err(MsgFault::Trailing);
    }
    Ok(message)
}

#[tactic(auto, unfolding(crate::specs::Letters::flag, crate::specs::Reading::byte_at))]
fn read_flag(cursor: &mut Cursor) -> Result<bool, MsgFault>
    ensures { Gives result cursor.new (read flag cursor.old) }
{
    match cursor.next_byte()? {
        0 => Ok(false),
        1 => Ok(true),
        _ => Err(MsgFault::BadFlag),
    }
}

#[tactic(auto, unfolding(crate::specs::Letters::no_flags, crate::specs::Reading::byte_at))]
fn read_no_flags(cursor: &mut Cursor) -> Result<u8, MsgFault>
    ensures { Gives result cursor.new (read no_flags cursor.old) }
{
    match cursor.next_byte()? {
        0 => Ok(0),
        _ => Err(MsgFault::BadFlag),
    }
}

#[tactic(auto, unfolding(crate::specs::Letters::new_tuple_follows, crate::specs::Reading::byte_at))]
fn read_new_tuple_follows(cursor: &mut Cursor) -> Result<u8, MsgFault>
    ensures { Gives result cursor.new (read new_tuple_follows cursor.old) }
{
    match cursor.next_byte()? {
        b'N' => Ok(b'N'),
        _ => Err(MsgFault::BadTupleKind),
    }
}

#[tactic(auto, unfolding(crate::specs::Letters::identity, crate::specs::Reading::byte_at))]
fn read_identity(cursor: &mut Cursor) -> Result<ReplicaIdentity, MsgFault>
    ensures { Gives result cursor.new (read identity cursor.old) }
{
    match cursor.next_byte()? {
        b'd' => Ok(ReplicaIdentity::Default),
        b'n' => Ok(ReplicaIdentity::Nothing),
        b'f' => Ok(ReplicaIdentity::Full),
        b'i' => Ok(ReplicaIdentity::Index),
        _ => Err(MsgFault::BadFlag),
    }
}

#[tactic(auto, unfolding(crate::specs::Messages::begin))]
fn read_begin(cursor: &mut Cursor) -> Result<Begin, MsgFault>
    ensures { Gives result cursor.new (read begin cursor.old) }
{
    let final_lsn = cursor.next_u64()?;
    let commit_time = cursor.next_i64()?;
    let xid = cursor.next_u32()?;
    Ok(Begin {
        final_lsn,
        commit_time,
        xid,
    })
}

#[tactic(auto, unfolding(crate::specs::Letters::truncate_options, crate::specs::Reading::byte_at))]
fn read_truncate_options(cursor: &mut Cursor) -> Result<TruncateOptions, MsgFault>
    ensures { Gives result cursor.new (read truncate_options cursor.old) }
{
    let (cascade, restart_identity) = match cursor.next_byte()? {
        0 => (false, false),
        1 => (true, false),
        2 => (false, true),
        3 => (true, true),
        _ => return Err(MsgFault::BadFlag),
    };
    Ok(TruncateOptions {
        cascade,
        restart_identity,
    })
}

#[tactic(auto, unfolding(crate::specs::Letters::tag, crate::specs::Reading::byte_at))]
fn read_tag(cursor: &mut Cursor) -> Result<Tag, MsgFault>
    ensures { Gives result cursor.new (read tag cursor.old) }
{
    match cursor.next_byte()? {
        b'B' => Ok(Tag::Begin),
        b'C' => Ok(Tag::Commit),
        b'O' => Ok(Tag::Origin),
        b'R' => Ok(Tag::Relation),
        b'Y' => Ok(Tag::TypeName),
        b'I' => Ok(Tag::Insert),
        b'U' => Ok(Tag::Update),
        b'D' => Ok(Tag::Delete),
        b'T' => Ok(Tag::Truncate),
        b'M' => Ok(Tag::Message),
        b'S' => Ok(Tag::StreamStart),
        b'E' => Ok(Tag::StreamStop),
        b'c' => Ok(Tag::StreamCommit),
        b'A' => Ok(Tag::StreamAbort),
        b'b' | b'P' | b'K' | b'r' | b'p' => Err(MsgFault::TwoPhase),
        _ => Err(MsgFault::UnknownTag),
    }
}

#[tactic(auto, unfolding(crate::specs::Messages::text))]
fn read_text(cursor: &mut Cursor) -> Result<Column, MsgFault>
    ensures { Gives result cursor.new (read text cursor.old) }
{
    let len = cursor.next_long_count()?;
    let text = cursor.next_text(len)?;
    Ok(Column::Text(text))
}

/// What a message has a counted number of, one after another.
trait Counted: Sized {
    ghost format: { Format Self };

    /// The next one.
    fn read(cursor: &mut Cursor) -> Result<Self, MsgFault>
        ensures { Gives result cursor.new (read format cursor.old) };
}

fn read_each<T: Counted + Drop>(
    alloc: Global,
    count: usize,
    cursor: &mut Cursor,
) -> Result<Vec<T>, MsgFault>
    ensures read { GivesBy (λ v. v.items) result cursor.new (read (times count T.format) cursor.old) }
    ensures len { IfOk result (λ v. length v.items ≡ count) }
{
    // Each takes a byte at least.
    let room = cursor.unread().len().min(count);
    let mut items = Vec::with_capacity(alloc, room)?;
    for _ in 0..count {
        let item = T::read(cursor)?;
        items.push(item)?;
    }
    Ok(items)
}

impl Counted for Column {
    ghost use Rattle.messages.specs.Messages.{column};

    ghost format = { column };

    #[tactic(auto, unfolding(crate::specs::Messages::column, crate::specs::Reading::byte_at))]
    fn read(cursor: &mut Cursor) -> Result<Column, MsgFault> {
        match cursor.next_byte()? {
            b'n' => Ok(Column::Null),
            b'u' => Ok(Column::Unchanged),
            b't' => read_text(cursor),
            b'b' => Err(MsgFault::BinaryColumn),
            _ => Err(MsgFault::BadTupleKind),
        }
    }
}

#[tactic(auto, unfolding(crate::specs::Messages::tuple))]
fn read_tuple(alloc: Global, cursor: &mut Cursor) -> Result<Tuple, MsgFault>
    ensures { Gives result cursor.new (read tuple cursor.old) }
{
    let count = cursor.next_count()?;
    let columns = read_each(alloc, usize::from(count), cursor)?;
    Ok(Tuple::new(columns))
}

#[tactic(auto, unfolding(crate::specs::Messages::old_tuple, crate::specs::Reading::byte_at))]
fn read_old_tuple(alloc: Global, cursor: &mut Cursor) -> Result<OldTuple, MsgFault>
    ensures { Gives result cursor.new (read old_tuple cursor.old) }
{
    match cursor.next_byte()? {
        b'K' => Ok(OldTuple::Key(read_tuple(alloc, cursor)?)),
        b'O' => Ok(OldTuple::Full(read_tuple(alloc, cursor)?)),
        _ => Err(MsgFault::BadTupleKind),
    }
}

#[tactic(auto, unfolding(crate::specs::Messages::optional_old_tuple, crate::specs::Reading::byte_at))]
fn read_optional_old_tuple(alloc: Global, cursor: &mut Cursor) -> Result<Option<OldTuple>, MsgFault>
    ensures { Gives result cursor.new (read optional_old_tuple cursor.old) }
{
    match cursor.next_byte()? {
        b'N' => Ok(None),
        b'K' => {
            let key = read_tuple(alloc, cursor)?;
            read_new_tuple_follows(cursor)?;
            Ok(Some(OldTuple::Key(key)))
        }
        b'O' => {
            let row = read_tuple(alloc, cursor)?;
            read_new_tuple_follows(cursor)?;
            Ok(Some(OldTuple::Full(row)))
        }
        _ => Err(MsgFault::BadTupleKind),
    }
}

#[tactic(auto, unfolding(crate::specs::Messages::xid_in))]
fn read_xid(cursor: &mut Cursor, in_block: bool) -> Result<Option<Xid>, MsgFault>
    ensures { Gives result cursor.new (read (xid_in in_block) cursor.old) }
{
    if in_block {
        let xid = cursor.next_u32()?;
        Ok(Some(xid))
    } else {
        Ok(None)
    }
}

#[tactic(auto, unfolding(crate::specs::Messages::commit))]
fn read_commit(cursor: &mut Cursor) -> Result<Commit, MsgFault>
    ensures { Gives result cursor.new (read commit cursor.old) }
{
    read_no_flags(cursor)?;
    let commit_lsn = cursor.next_u64()?;
    let end_lsn = cursor.next_u64()?;
    let commit_time = cursor.next_i64()?;
    Ok(Commit {
        commit_lsn,
        end_lsn,
        commit_time,
    })
}

impl Counted for RelationColumn {
    ghost use Rattle.messages.specs.Messages.{relation_column};

    ghost format = { relation_column };

    #[tactic(auto, unfolding(crate::specs::Messages::relation_column))]
    fn read(cursor: &mut Cursor) -> Result<RelationColumn, MsgFault> {
        let is_key = read_flag(cursor)?;
        let name = cursor.next_string()?;
        let type_oid = cursor.next_u32()?;
        let type_modifier = cursor.next_i32()?;
        Ok(RelationColumn {
            is_key,
            name,
            type_oid,
            type_modifier,
        })
    }
}

#[tactic(auto, unfolding(crate::specs::Messages::relation_columns))]
fn read_published(alloc: Global, cursor: &mut Cursor) -> Result<Columns, MsgFault>
    ensures { Gives result cursor.new (read relation_columns cursor.old) }
{
    let count = cursor.next_count()?;
    let columns = read_each(alloc, usize::from(count), cursor)?;
    Ok(Columns::new(columns))
}

#[tactic(auto, unfolding(crate::specs::Messages::relation))]
fn read_relation(alloc: Global, cursor: &mut Cursor) -> Result<Relation, MsgFault>
    ensures { Gives result cursor.new (read relation cursor.old) }
{
    let oid = cursor.next_u32()?;
    let namespace = cursor.next_string()?;
    let name = cursor.next_string()?;
    let identity = read_identity(cursor)?;
    let columns = read_published(alloc, cursor)?;
    Ok(Relation {
        oid,
        namespace,
        name,
        identity,
        columns,
    })
}

#[tactic(auto, unfolding(crate::specs::Messages::insert))]
fn read_insert(alloc: Global, cursor: &mut Cursor, in_block: bool) -> Result<Insert, MsgFault>
    ensures { Gives result cursor.new (read (insert in_block) cursor.old) }
{
    let xid = read_xid(cursor, in_block)?;
    let oid = cursor.next_u32()?;
    read_new_tuple_follows(cursor)?;
    let new = read_tuple(alloc, cursor)?;
    Ok(Insert { xid, oid, new })
}

#[tactic(auto, unfolding(crate::specs::Messages::origin))]
fn read_origin(cursor: &mut Cursor) -> Result<Origin, MsgFault>
    ensures { Gives result cursor.new (read origin cursor.old) }
{
    let lsn = cursor.next_u64()?;
    let name = cursor.next_string()?;
    Ok(Origin { lsn, name })
}

#[tactic(auto, unfolding(crate::specs::Messages::type_name))]
fn read_type_name(cursor: &mut Cursor, in_block: bool) -> Result<TypeName, MsgFault>
    ensures { Gives result cursor.new (read (type_name in_block) cursor.old) }
{
    let xid = read_xid(cursor, in_block)?;
    let oid = cursor.next_u32()?;
    let namespace = cursor.next_string()?;
    let name = cursor.next_string()?;
    Ok(TypeName {
        xid,
        oid,
        namespace,
        name,
    })
}

#[tactic(auto, unfolding(crate::specs::Messages::update))]
fn read_update(alloc: Global, cursor: &mut Cursor, in_block: bool) -> Result<Update, MsgFault>
    ensures { Gives result cursor.new (read (update in_block) cursor.old) }
{
    let xid = read_xid(cursor, in_block)?;
    let oid = cursor.next_u32()?;
    let old = read_optional_old_tuple(alloc, cursor)?;
    let new = read_tuple(alloc, cursor)?;
    Ok(Update { xid, oid, old, new })
}

#[tactic(auto, unfolding(crate::specs::Messages::delete))]
fn read_delete(alloc: Global, cursor: &mut Cursor, in_block: bool) -> Result<Delete, MsgFault>
    ensures { Gives result cursor.new (read (delete in_block) cursor.old) }
{
    let xid = read_xid(cursor, in_block)?;
    let oid = cursor.next_u32()?;
    let old = read_old_tuple(alloc, cursor)?;
    Ok(Delete { xid, oid, old })
}

impl Counted for Oid {
    ghost use Rattle.messages.specs.Field.{four, Unsigned};
    ghost use Rattle.messages.specs.Format.{one};

    ghost format = { one (Unsigned four) };

    fn read(cursor: &mut Cursor) -> Result<Oid, MsgFault> {
        cursor.next_u32()
    }
}

#[tactic(auto, unfolding(crate::specs::Messages::truncate))]
fn read_truncate(alloc: Global, cursor: &mut Cursor, in_block: bool) -> Result<Truncate, MsgFault>
    ensures { Gives result cursor.new (read (truncate in_block) cursor.old) }
{
    let xid = read_xid(cursor, in_block)?;
    let count = cursor.next_long_count()?;
    let options = read_truncate_options(cursor)?;
    let oids = read_each(alloc, count as usize, cursor)?;
    Ok(Truncate {
        xid,
        options,
        relations: Relations::new(oids),
    })
}

#[tactic(auto, unfolding(crate::specs::Messages::content))]
fn read_content(cursor: &mut Cursor) -> Result<Content, MsgFault>
    ensures { Gives result cursor.new (read content cursor.old) }
{
    let len = cursor.next_long_count()?;
    cursor.next_content(len)
}

#[tactic(auto, unfolding(crate::specs::Messages::logical_message))]
fn read_logical_message(cursor: &mut Cursor, in_block: bool) -> Result<LogicalMessage, MsgFault>
    ensures { Gives result cursor.new (read (logical_message in_block) cursor.old) }
{
    let xid = read_xid(cursor, in_block)?;
    let transactional = read_flag(cursor)?;
    let lsn = cursor.next_u64()?;
    let prefix = cursor.next_string()?;
    let content = read_content(cursor)?;
    Ok(LogicalMessage {
        xid,
        transactional,
        lsn,
        prefix,
        content,
    })
}

#[tactic(auto, unfolding(crate::specs::Messages::stream_start))]
fn read_stream_start(cursor: &mut Cursor) -> Result<StreamStart, MsgFault>
    ensures { Gives result cursor.new (read stream_start cursor.old) }
{
    let xid = cursor.next_u32()?;
    let is_first = read_flag(cursor)?;
    Ok(StreamStart { xid, is_first })
}

#[tactic(auto, unfolding(crate::specs::Messages::stream_commit))]
fn read_stream_commit(cursor: &mut Cursor) -> Result<StreamCommit, MsgFault>
    ensures { Gives result cursor.new (read stream_commit cursor.old) }
{
    let xid = cursor.next_u32()?;
    read_no_flags(cursor)?;
    let commit_lsn = cursor.next_u64()?;
    let end_lsn = cursor.next_u64()?;
    let commit_time = cursor.next_i64()?;
    Ok(StreamCommit {
        xid,
        commit_lsn,
        end_lsn,
        commit_time,
    })
}

#[tactic(auto, unfolding(crate::specs::Messages::stream_abort))]
fn read_stream_abort(cursor: &mut Cursor) -> Result<StreamAbort, MsgFault>
    ensures { Gives result cursor.new (read stream_abort cursor.old) }
{
    let xid = cursor.next_u32()?;
    let subtransaction = cursor.next_u32()?;
    let lsn = cursor.next_u64()?;
    let abort_time = cursor.next_i64()?;
    Ok(StreamAbort {
        xid,
        subtransaction,
        lsn,
        abort_time,
    })
}

#[tactic(auto, unfolding(crate::specs::Messages::message))]
fn read_message(alloc: Global, cursor: &mut Cursor, in_block: bool) -> Result<Message, MsgFault>
    ensures { Gives result cursor.new (read (message in_block) cursor.old) }
{
    match read_tag(cursor)? {
        Tag::Begin => Ok(Message::Begin(read_begin(cursor)?)),
        Tag::Commit => Ok(Message::Commit(read_commit(cursor)?)),
        Tag::Origin => Ok(Message::Origin(read_origin(cursor)?)),
        Tag::Relation => {
            let xid = read_xid(cursor, in_block)?;
            let relation = read_relation(alloc, cursor)?;
            Ok(Message::Relation { xid, relation })
        }
        Tag::TypeName => Ok(Message::TypeName(read_type_name(cursor, in_block)?)),
        Tag::Insert => Ok(Message::Insert(read_insert(alloc, cursor, in_block)?)),
        Tag::Update => Ok(Message::Update(read_update(alloc, cursor, in_block)?)),
        Tag::Delete => Ok(Message::Delete(read_delete(alloc, cursor, in_block)?)),
        Tag::Truncate => Ok(Message::Truncate(read_truncate(alloc, cursor, in_block)?)),
        Tag::Message => Ok(Message::Message(read_logical_message(cursor, in_block)?)),
        Tag::StreamStart => Ok(Message::StreamStart(read_stream_start(cursor)?)),
        Tag::StreamStop => Ok(Message::StreamStop),
        Tag::StreamCommit => Ok(Message::StreamCommit(read_stream_commit(cursor)?)),
        Tag::StreamAbort => Ok(Message::StreamAbort(read_stream_abort(cursor)?)),
    }
}
