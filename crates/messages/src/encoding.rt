//! Writing messages: one function a message, named after it.

ghost use Rattle.std.specs.Prelude.{◌≡◌, ◌<◌, ◌^◌, ◌++◌, ℕ, List, length, IfSome, is_some, OnOk, OnErr, IfErr};
ghost use Rattle.std.specs.List.{All, flat_map};
ghost use Rattle.messages.specs.Field.{two, four, eight, IsName, number_bytes};
ghost use Rattle.messages.specs.Messages.{begin, commit, origin, relation_column, relation_columns, relation, type_name, column, tuple, old_tuple, optional_old_tuple, insert, update, delete, truncate, logical_message, stream_start, stream_commit, stream_abort, message, Spelled, HasXid};
ghost use Rattle.messages.specs.Writing.{Says, BodySays, signed_bytes, flag_bytes, string_bytes, identity_bytes, options_bytes, xid_bytes, column_bytes, tuple_bytes, old_tuple_bytes, optional_old_tuple_bytes, begin_bytes, commit_bytes, origin_bytes, relation_column_bytes, relation_columns_bytes, relation_bytes, type_name_bytes, insert_bytes, update_bytes, delete_bytes, relations_bytes, truncate_bytes, content_bytes, logical_message_bytes, stream_start_bytes, stream_commit_bytes, stream_abort_bytes, tag_byte, body_bytes, message_bytes};
ghost use Rattle.messages.specs.declared.fault.MsgFault.TheVariants.{OutOfMemory};

use crate::fault::MsgFault;
use crate::message::{
    Begin, Commit, LogicalMessage, Message, Origin, StreamAbort, StreamCommit, StreamStart, Xid,
};
use crate::relation::{
    Columns, Relation, RelationColumn, Relations, ReplicaIdentity, Truncate, TruncateOptions,
    TypeName,
};
use crate::row::{Delete, Insert, Update};
use crate::text::{Content, Name};
use crate::tuple::{Column, OldTuple, Tuple};
use std::alloc::{AllocError, Global};

#[tactic(auto, unfolding(crate::specs::Field::number_bytes))]
fn put_u16(out: &mut Vec<u8>, n: u16) -> Result<(), AllocError>
    ensures { OnOk result (out.new.items ≡ out.old.items ++ number_bytes two n) }
{
    out.extend_from_slice(&n.to_be_bytes())
}

#[tactic(auto, unfolding(crate::specs::Field::number_bytes))]
fn put_u32(out: &mut Vec<u8>, n: u32) -> Result<(), AllocError>
    ensures { OnOk result (out.new.items ≡ out.old.items ++ number_bytes four n) }
{
    out.extend_from_slice(&n.to_be_bytes())
}

#[tactic(auto, unfolding(crate::specs::Field::number_bytes))]
fn put_u64(out: &mut Vec<u8>, n: u64) -> Result<(), AllocError>
    ensures { OnOk result (out.new.items ≡ out.old.items ++ number_bytes eight n) }
{
    out.extend_from_slice(&n.to_be_bytes())
}

#[tactic(auto, unfolding(crate::specs::Field::number_bytes, crate::specs::Writing::signed_bytes))]
fn put_i32(out: &mut Vec<u8>, n: i32) -> Result<(), AllocError>
    ensures { OnOk result (out.new.items ≡ out.old.items ++ signed_bytes four n) }
{
    out.extend_from_slice(&n.to_be_bytes())
}

#[tactic(auto, unfolding(crate::specs::Field::number_bytes, crate::specs::Writing::signed_bytes))]
fn put_i64(out: &mut Vec<u8>, n: i64) -> Result<(), AllocError>
    ensures { OnOk result (out.new.items ≡ out.old.items ++ signed_bytes eight n) }
{
    out.extend_from_slice(&n.to_be_bytes())
}

fn put_flag(out: &mut Vec<u8>, flag: bool) -> Result<(), AllocError>
    ensures { OnOk result (out.new.items ≡ out.old.items ++ flag_bytes flag) }
{
    if flag {
        out.push(1)?;
    } else {
        out.push(0)?;
    }
    Ok(())
}

#[tactic(auto, unfolding(crate::specs::Writing::string_bytes))]
fn put_name(out: &mut Vec<u8>, name: &Name) -> Result<(), AllocError>
    ensures written { OnOk result (out.new.items ≡ out.old.items ++ string_bytes name.now) }
    ensures name { OnOk result (IsName name.now) }
{
    out.extend_from_slice(name.as_str().as_bytes())?;
    out.push(0)?;
    Ok(())
}

fn put_xid(out: &mut Vec<u8>, xid: Option<Xid>) -> Result<(), AllocError>
    ensures written { OnOk result (out.new.items ≡ out.old.items ++ xid_bytes xid) }
    ensures fits { IfSome xid (λ x. x < 2 ^ 32) }
{
    if let Some(xid) = xid {
        put_u32(out, xid)?;
    }
    Ok(())
}

#[tactic(auto, using(crate::proofs::Spellings::begin_says), unfolding(crate::specs::Writing::begin_bytes))]
fn put_begin(out: &mut Vec<u8>, m: &Begin) -> Result<(), AllocError>
    ensures written { OnOk result (out.new.items ≡ out.old.items ++ begin_bytes m.now) }
    ensures says { OnOk result (Says begin (begin_bytes m.now) m.now) }
{
    put_u64(out, m.final_lsn)?;
    put_i64(out, m.commit_time)?;
    put_u32(out, m.xid)
}

#[tactic(auto, using(crate::proofs::Spellings::commit_says), unfolding(crate::specs::Writing::commit_bytes))]
fn put_commit(out: &mut Vec<u8>, m: &Commit) -> Result<(), AllocError>
    ensures written { OnOk result (out.new.items ≡ out.old.items ++ commit_bytes m.now) }
    ensures says { OnOk result (Says commit (commit_bytes m.now) m.now) }
{
    out.push(0)?;
    put_u64(out, m.commit_lsn)?;
    put_u64(out, m.end_lsn)?;
    put_i64(out, m.commit_time)
}

fn put_identity(out: &mut Vec<u8>, identity: ReplicaIdentity) -> Result<(), AllocError>
    ensures { OnOk result (out.new.items ≡ out.old.items ++ identity_bytes identity) }
{
    match identity {
        ReplicaIdentity::Default => out.push(b'd')?,
        ReplicaIdentity::Nothing => out.push(b'n')?,
        ReplicaIdentity::Full => out.push(b'f')?,
        ReplicaIdentity::Index => out.push(b'i')?,
    }
    Ok(())
}

#[tactic(auto, using(crate::proofs::Spellings::relation_column_says), unfolding(crate::specs::Writing::relation_column_bytes))]
fn put_relation_column(out: &mut Vec<u8>, column: &RelationColumn) -> Result<(), AllocError>
    ensures written { OnOk result (out.new.items ≡ out.old.items ++ relation_column_bytes column.now) }
    ensures says { OnOk result (Says relation_column (relation_column_bytes column.now) column.now) }
{
    put_flag(out, column.is_key)?;
    put_name(out, &column.name)?;
    put_u32(out, column.type_oid)?;
    put_i32(out, column.type_modifier)
}

fn put_relation_columns(out: &mut Vec<u8>, columns: &[RelationColumn]) -> Result<(), AllocError>
    ensures written { OnOk result (out.new.items ≡ out.old.items ++ flat_map relation_column_bytes columns.now) }
    ensures says { OnOk result (All (λ c. Says relation_column (relation_column_bytes c) c) columns.now) }
{
    for column in columns {
        put_relation_column(out, column)?;
    }
    Ok(())
}

#[tactic(auto, using(crate::proofs::Spellings::relation_columns_says), unfolding(crate::specs::Writing::relation_columns_bytes))]
fn put_published(out: &mut Vec<u8>, columns: &Columns) -> Result<(), AllocError>
    ensures written { OnOk result (out.new.items ≡ out.old.items ++ relation_columns_bytes columns.now) }
    ensures says { OnOk result (Says relation_columns (relation_columns_bytes columns.now) columns.now) }
{
    let columns = columns.as_slice();
    put_u16(out, columns.len() as u16)?;
    put_relation_columns(out, columns)
}

#[tactic(auto, using(crate::proofs::Spellings::relation_says), unfolding(crate::specs::Writing::relation_bytes))]
fn put_relation(out: &mut Vec<u8>, m: &Relation) -> Result<(), AllocError>
    ensures written { OnOk result (out.new.items ≡ out.old.items ++ relation_bytes m.now) }
    ensures says { OnOk result (Says relation (relation_bytes m.now) m.now) }
{
    put_u32(out, m.oid)?;
    put_name(out, &m.namespace)?;
    put_name(out, &m.name)?;
    put_identity(out, m.identity)?;
    put_published(out, &m.columns)
}

#[tactic(auto, using(crate::proofs::Spellings::text_says, crate::proofs::Spellings::null_says, crate::proofs::Spellings::unchanged_says), unfolding(crate::specs::Writing::column_bytes))]
fn put_column(out: &mut Vec<u8>, value: &Column) -> Result<(), AllocError>
    ensures written { OnOk result (out.new.items ≡ out.old.items ++ column_bytes value.now) }
    ensures says { OnOk result (Says column (column_bytes value.now) value.now) }
{
    match value {
        Column::Null => out.push(b'n')?,
        Column::Unchanged => out.push(b'u')?,
        Column::Text(text) => {
            let text = text.as_str();
            out.push(b't')?;
            put_u32(out, text.len() as u32)?;
            out.extend_from_slice(text.as_bytes())?;
        }
    }
    Ok(())
}

fn put_columns(out: &mut Vec<u8>, columns: &[Column]) -> Result<(), AllocError>
    ensures written { OnOk result (out.new.items ≡ out.old.items ++ flat_map column_bytes columns.now) }
    ensures says { OnOk result (All (λ c. Says column (column_bytes c) c) columns.now) }
{
    for column in columns {
        put_column(out, column)?;
    }
    Ok(())
}

#[tactic(auto, using(crate::proofs::Spellings::tuple_says), unfolding(crate::specs::Writing::tuple_bytes))]
fn put_tuple(out: &mut Vec<u8>, values: &Tuple) -> Result<(), AllocError>
    ensures written { OnOk result (out.new.items ≡ out.old.items ++ tuple_bytes values.now) }
    ensures says { OnOk result (Says tuple (tuple_bytes values.now) values.now) }
{
    let columns = values.columns();
    put_u16(out, columns.len() as u16)?;
    put_columns(out, columns)
}

#[tactic(auto, using(crate::proofs::Spellings::insert_says), unfolding(crate::specs::Writing::insert_bytes))]
fn put_insert(out: &mut Vec<u8>, m: &Insert, in_block: bool) -> Result<(), AllocError>
    requires { is_some m.now.xid ≡ in_block }
    ensures written { OnOk result (out.new.items ≡ out.old.items ++ insert_bytes m.now) }
    ensures says { OnOk result (Says (insert in_block) (insert_bytes m.now) m.now) }
{
    put_xid(out, m.xid)?;
    put_u32(out, m.oid)?;
    out.push(b'N')?;
    put_tuple(out, &m.new)
}

#[tactic(auto, using(crate::proofs::Spellings::origin_says), unfolding(crate::specs::Writing::origin_bytes))]
fn put_origin(out: &mut Vec<u8>, m: &Origin) -> Result<(), AllocError>
    ensures written { OnOk result (out.new.items ≡ out.old.items ++ origin_bytes m.now) }
    ensures says { OnOk result (Says origin (origin_bytes m.now) m.now) }
{
    put_u64(out, m.lsn)?;
    put_name(out, &m.name)
}

#[tactic(auto, using(crate::proofs::Spellings::type_name_says), unfolding(crate::specs::Writing::type_name_bytes))]
fn put_type_name(out: &mut Vec<u8>, m: &TypeName, in_block: bool) -> Result<(), AllocError>
    requires { is_some m.now.xid ≡ in_block }
    ensures written { OnOk result (out.new.items ≡ out.old.items ++ type_name_bytes m.now) }
    ensures says { OnOk result (Says (type_name in_block) (type_name_bytes m.now) m.now) }
{
    put_xid(out, m.xid)?;
    put_u32(out, m.oid)?;
    put_name(out, &m.namespace)?;
    put_name(out, &m.name)
}

#[tactic(auto, using(crate::proofs::Spellings::key_says, crate::proofs::Spellings::full_says), unfolding(crate::specs::Writing::old_tuple_bytes))]
fn put_old_tuple(out: &mut Vec<u8>, old: &OldTuple) -> Result<(), AllocError>
    ensures written { OnOk result (out.new.items ≡ out.old.items ++ old_tuple_bytes old.now) }
    ensures says { OnOk result (Says old_tuple (old_tuple_bytes old.now) old.now) }
{
    match old {
        OldTuple::Key(key) => {
            out.push(b'K')?;
            put_tuple(out, key)
        }
        OldTuple::Full(row) => {
            out.push(b'O')?;
            put_tuple(out, row)
        }
    }
}

#[tactic(auto, using(crate::proofs::Spellings::no_old_says, crate::proofs::Spellings::some_old_says))]
fn put_optional_old_tuple(out: &mut Vec<u8>, old: &Option<OldTuple>) -> Result<(), AllocError>
    ensures written { OnOk result (out.new.items ≡ out.old.items ++ optional_old_tuple_bytes old.now) }
    ensures says { OnOk result (Says optional_old_tuple (optional_old_tuple_bytes old.now) old.now) }
{
    if let Some(old) = old {
        put_old_tuple(out, old)?;
    }
    out.push(b'N')?;
    Ok(())
}

#[tactic(auto, using(crate::proofs::Spellings::update_says), unfolding(crate::specs::Writing::update_bytes))]
fn put_update(out: &mut Vec<u8>, m: &Update, in_block: bool) -> Result<(), AllocError>
    requires { is_some m.now.xid ≡ in_block }
    ensures written { OnOk result (out.new.items ≡ out.old.items ++ update_bytes m.now) }
    ensures says { OnOk result (Says (update in_block) (update_bytes m.now) m.now) }
{
    put_xid(out, m.xid)?;
    put_u32(out, m.oid)?;
    put_optional_old_tuple(out, &m.old)?;
    put_tuple(out, &m.new)
}

#[tactic(auto, using(crate::proofs::Spellings::delete_says), unfolding(crate::specs::Writing::delete_bytes))]
fn put_delete(out: &mut Vec<u8>, m: &Delete, in_block: bool) -> Result<(), AllocError>
    requires { is_some m.now.xid ≡ in_block }
    ensures written { OnOk result (out.new.items ≡ out.old.items ++ delete_bytes m.now) }
    ensures says { OnOk result (Says (delete in_block) (delete_bytes m.now) m.now) }
{
    put_xid(out, m.xid)?;
    put_u32(out, m.oid)?;
    put_old_tuple(out, &m.old)
}

fn put_options(out: &mut Vec<u8>, options: TruncateOptions) -> Result<(), AllocError>
    ensures { OnOk result (out.new.items ≡ out.old.items ++ options_bytes options) }
{
    let bits = match (options.cascade, options.restart_identity) {
        (false, false) => 0,
        (true, false) => 1,
        (false, true) => 2,
        (true, true) => 3,
    };
    out.push(bits)?;
    Ok(())
}

#[tactic(auto, unfolding(crate::specs::Writing::relations_bytes))]
fn put_oids(out: &mut Vec<u8>, oids: &[u32]) -> Result<(), AllocError>
    ensures written { OnOk result (out.new.items ≡ out.old.items ++ relations_bytes oids.now) }
    ensures fits { All (λ n. n < 2 ^ 32) oids.now }
{
    for oid in oids {
        put_u32(out, *oid)?;
    }
    Ok(())
}

#[tactic(auto, using(crate::proofs::Spellings::truncate_says), unfolding(crate::specs::Writing::truncate_bytes))]
fn put_truncate(out: &mut Vec<u8>, m: &Truncate, in_block: bool) -> Result<(), AllocError>
    requires { is_some m.now.xid ≡ in_block }
    ensures written { OnOk result (out.new.items ≡ out.old.items ++ truncate_bytes m.now) }
    ensures says { OnOk result (Says (truncate in_block) (truncate_bytes m.now) m.now) }
{
    let oids = m.relations.as_slice();
    put_xid(out, m.xid)?;
    put_u32(out, oids.len() as u32)?;
    put_options(out, m.options)?;
    put_oids(out, oids)
}

#[tactic(auto, unfolding(crate::specs::Writing::content_bytes))]
fn put_content(out: &mut Vec<u8>, content: &Content) -> Result<(), AllocError>
    ensures written { OnOk result (out.new.items ≡ out.old.items ++ content_bytes content.now) }
    ensures bound { OnOk result (length content.now < 2 ^ 31) }
{
    let bytes = content.as_bytes().as_slice();
    put_u32(out, bytes.len() as u32)?;
    out.extend_from_slice(bytes)
}

#[tactic(auto, using(crate::proofs::Spellings::logical_message_says), unfolding(crate::specs::Writing::logical_message_bytes))]
fn put_logical_message(
    out: &mut Vec<u8>,
    m: &LogicalMessage,
    in_block: bool,
) -> Result<(), AllocError>
    requires { is_some m.now.xid ≡ in_block }
    ensures written { OnOk result (out.new.items ≡ out.old.items ++ logical_message_bytes m.now) }
    ensures says { OnOk result (Says (logical_message in_block) (logical_message_bytes m.now) m.now) }
{
    put_xid(out, m.xid)?;
    put_flag(out, m.transactional)?;
    put_u64(out, m.lsn)?;
    put_name(out, &m.prefix)?;
    put_content(out, &m.content)
}

#[tactic(auto, using(crate::proofs::Spellings::stream_start_says), unfolding(crate::specs::Writing::stream_start_bytes))]
fn put_stream_start(out: &mut Vec<u8>, m: &StreamStart) -> Result<(), AllocError>
    ensures written { OnOk result (out.new.items ≡ out.old.items ++ stream_start_bytes m.now) }
    ensures says { OnOk result (Says stream_start (stream_start_bytes m.now) m.now) }
{
    put_u32(out, m.xid)?;
    put_flag(out, m.is_first)
}

#[tactic(auto, using(crate::proofs::Spellings::stream_commit_says), unfolding(crate::specs::Writing::stream_commit_bytes))]
fn put_stream_commit(out: &mut Vec<u8>, m: &StreamCommit) -> Result<(), AllocError>
    ensures written { OnOk result (out.new.items ≡ out.old.items ++ stream_commit_bytes m.now) }
    ensures says { OnOk result (Says stream_commit (stream_commit_bytes m.now) m.now) }
{
    put_u32(out, m.xid)?;
    out.push(0)?;
    put_u64(out, m.commit_lsn)?;
    put_u64(out, m.end_lsn)?;
    put_i64(out, m.commit_time)
}

#[tactic(auto, using(crate::proofs::Spellings::stream_abort_says), unfolding(crate::specs::Writing::stream_abort_bytes))]
fn put_stream_abort(out: &mut Vec<u8>, m: &StreamAbort) -> Result<(), AllocError>
    ensures written { OnOk result (out.new.items ≡ out.old.items ++ stream_abort_bytes m.now) }
    ensures says { OnOk result (Says stream_abort (stream_abort_bytes m.now) m.now) }
{
    put_u32(out, m.xid)?;
    put_u32(out, m.subtransaction)?;
    put_u64(out, m.lsn)?;
    put_i64(out, m.abort_time)
}

fn tag_byte(m: &Message) -> u8
    ensures { result ≡ tag_byte m.now }
{
    match m {
        Message::Begin(_) => b'B',
        Message::Commit(_) => b'C',
        Message::Origin(_) => b'O',
        Message::Relation { .. } => b'R',
        Message::TypeName(_) => b'Y',
        Message::Insert(_) => b'I',
        Message::Update(_) => b'U',
        Message::Delete(_) => b'D',
        Message::Truncate(_) => b'T',
        Message::Message(_) => b'M',
        Message::StreamStart(_) => b'S',
        Message::StreamStop => b'E',
        Message::StreamCommit(_) => b'c',
        Message::StreamAbort(_) => b'A',
    }
}

/// What follows the tag.
fn put_body(out: &mut Vec<u8>, m: &Message, in_block: bool) -> Result<(), AllocError>
    requires { HasXid in_block m.now }
    ensures written { OnOk result (out.new.items ≡ out.old.items ++ body_bytes m.now) }
    ensures says { OnOk result (BodySays in_block m.now) }
{
    match m {
        Message::Begin(m) => put_begin(out, m),
        Message::Commit(m) => put_commit(out, m),
        Message::Origin(m) => put_origin(out, m),
        Message::Relation { xid, relation } => {
            put_xid(out, *xid)?;
            put_relation(out, relation)
        }
        Message::TypeName(m) => put_type_name(out, m, in_block),
        Message::Insert(m) => put_insert(out, m, in_block),
        Message::Update(m) => put_update(out, m, in_block),
        Message::Delete(m) => put_delete(out, m, in_block),
        Message::Truncate(m) => put_truncate(out, m, in_block),
        Message::Message(m) => put_logical_message(out, m, in_block),
        Message::StreamStart(m) => put_stream_start(out, m),
        Message::StreamStop => Ok(()),
        Message::StreamCommit(m) => put_stream_commit(out, m),
        Message::StreamAbort(m) => put_stream_abort(out, m),
    }
}

#[tactic(auto, using(crate::proofs::Spellings::message_says))]
fn put_message(out: &mut Vec<u8>, m: &Message, in_block: bool) -> Result<(), AllocError>
    requires { HasXid in_block m.now }
    ensures written { OnOk result (out.new.items ≡ out.old.items ++ message_bytes m.now) }
    ensures says { OnOk result (Says (message in_block) (message_bytes m.now) m.now) }
{
    out.push(tag_byte(m))?;
    put_body(out, m, in_block)
}

/// Appends the one spelling of the message, in a block of a streamed transaction or outside of one. The caller
/// owes that the xid of a change is there exactly in a block.
///
/// Memory alone is refused, and then `out` stays as it was.
pub fn encode(alloc: Global, m: &Message, in_block: bool, out: &mut Vec<u8>) -> Result<(), MsgFault>
    requires { HasXid in_block m.now }
    ensures ok { OnOk result ((payload : List ℕ)
        × Spelled payload in_block m.now × (out.new.items ≡ out.old.items ++ payload)) }
    ensures err { OnErr result (out.new.items ≡ out.old.items) }
    ensures memory { IfErr result (λ fault. fault ≡ OutOfMemory) }
{
    let mut payload = Vec::new(alloc);
    put_message(&mut payload, m, in_block)?;
    out.extend_from_slice(&payload)?;
    Ok(())
}
