//! What no clause says: payloads from outside, and what they must read as.

ghost use Rattle.messages.specs.Messages.{HasXid};

use super::OrFail;
use super::hex::from_hex;
use bytes::Bytes;
use messages::{Message, MsgFault, decode, encode};
use std::alloc::{AllocError, Global};
use std::test::Fail;
use testing::asserts::{assert_holds, assert_same};

// A payload in hexadecimal digits ('-' for none), whether it stands in a block of a streamed transaction,
// and the message that it spells or the fault that stands in it.
const CASES: &str = "\
41000002bc000002c700000000000000000000000000000000 out StreamAbort\n\
41000002bc000002c7 out Short\n\
49000040014e00037400000001 out Short\n\
49000040014effff out NegativeCount\n\
49000040014e000362 out BinaryColumn\n\
- out Short\n\
7a out UnknownTag\n\
4500 out Trailing\n\
4301 out BadFlag\n\
547fffffff00 out Short\n\
540000000000 out Truncate\n\
540000000104 out BadFlag\n\
490000400158 out BadTupleKind\n\
49000040014e000174ffffffff out NegativeCount\n\
49000040014e0001747fffffff out Short\n\
540000000000 in Short\n\
420000000000000100000000000000000000000384 out Begin\n\
52000040017075626c6963006163636f756e7473006400030169640000000017ffffffff00656d61696c0000000019ffffffff006e6f74650000000019ffffffff out Relation\n\
49000040014e000374000000013174000000016174000000016e out Insert\n\
4300000000000000010000000000000001200000000000000000 out Commit\n\
49000002c7000040014e000374000000013174000000016174000000016e in Insert\n\
53000002bc01 out StreamStart\n\
63000002bc00000000000000020000000000000002200000000000000000 out StreamCommit\n\
44000040014b00037400000001316e6e out Delete\n\
54000000010000004001 out Truncate\n\
42 out Short\n\
4200000000000001000000000000000000000003 out Short\n\
42000000000000010000000000000000000000038400 out Trailing\n\
430000000000000001000000000000000120000000000000000000 out Trailing\n\
43ff out BadFlag\n\
43 out Short\n\
4f00000000000000016f00 out Origin\n\
4f00000000000000016f00 in Origin\n\
4f00000000000000016f out Short\n\
4f0000000000000001ff00 out BadText\n\
4f0000000000000001ff out Short\n\
5200004001000078 out BadFlag\n\
5200004001000064ffff out NegativeCount\n\
52000040010000640000 out Relation\n\
5200004001000066000102 out BadFlag\n\
520000400100006e00010061 out Short\n\
5200004001000069000101610000000019ffffffff out Relation\n\
52000002bc00004001000069000101610000000019ffffffff in Relation\n\
5200004001c300 out BadText\n\
590000400170007100 out TypeName\n\
59000002bc0000400170007100 in TypeName\n\
59000002bc0000400170007100 out Trailing\n\
49000040014b out BadTupleKind\n\
4900004001 out Short\n\
49000040014e00 out Short\n\
49000040014e00017a out BadTupleKind\n\
49000040014e00017400000001ff out BadText\n\
49000040014e00017400000002ff out Short\n\
49000040014e0000 out Insert\n\
49000040014e000175 out Insert\n\
49000040014e00016e6e out Trailing\n\
55000040014b00016e4e00016e out Update\n\
55000040014f00016e4e00016e out Update\n\
55000040014e00016e out Update\n\
55000040014b00016e4f out BadTupleKind\n\
55000040014b00016e out Short\n\
550000400158 out BadTupleKind\n\
44000040014e out BadTupleKind\n\
44000040014f00016e out Delete\n\
44000040014f000162 out BinaryColumn\n\
54ffffffff00 out NegativeCount\n\
54000000020300004001 out Short\n\
54000000010300004001 out Truncate\n\
54000002bc000000010300004001 in Truncate\n\
54000000018000004001 out BadFlag\n\
4d02 out BadFlag\n\
4d010000000000000001700000000002ff00 out Message\n\
4d000002bc010000000000000001700000000002ff00 in Message\n\
4d0000000000000000017000ffffffff out NegativeCount\n\
4d000000000000000001700000000003ff00 out Short\n\
53000002bc02 out BadFlag\n\
53000002bc out Short\n\
45 in StreamStop\n\
45 out StreamStop\n\
63000002bc01 out BadFlag\n\
41000002bc000002c70000000000000000000000000000000000 out Trailing\n\
62 out TwoPhase\n\
5000 out TwoPhase\n\
4b in TwoPhase\n\
72 out TwoPhase\n\
70 out TwoPhase\n\
00 out UnknownTag\n\
52 in Short";

fn name_of(m: &Message) -> &'static str {
    match m {
        Message::Begin(_) => "Begin",
        Message::Commit(_) => "Commit",
        Message::Origin(_) => "Origin",
        Message::Relation { .. } => "Relation",
        Message::TypeName(_) => "TypeName",
        Message::Insert(_) => "Insert",
        Message::Update(_) => "Update",
        Message::Delete(_) => "Delete",
        Message::Truncate(_) => "Truncate",
        Message::Message(_) => "Message",
        Message::StreamStart(_) => "StreamStart",
        Message::StreamStop => "StreamStop",
        Message::StreamCommit(_) => "StreamCommit",
        Message::StreamAbort(_) => "StreamAbort",
    }
}

// What a line of the cases says: the payload, whether it stands in a block, and the answer.
fn case_of(alloc: Global, line: &str) -> Result<(Bytes, bool, &str), AllocError> {
    let mut words = line.split(' ');
    let payload = Bytes::from_vec(from_hex(alloc, words.next().unwrap_or(""))?)?;
    let in_block = words.next().unwrap_or("") == "in";
    Ok((payload, in_block, words.next().unwrap_or("")))
}

// The name of what the payload reads as.
fn reading(alloc: Global, payload: &Bytes, in_block: bool) -> Result<String, AllocError> {
    match decode(alloc, payload, in_block) {
        Ok(m) => format!(in alloc; "{}", name_of(&m)),
        Err(fault) => format!(in alloc; "{fault:?}"),
    }
}

#[test]
fn each_case_reads_as_it_must(rt: HostRuntime) {
    for line in CASES.lines() {
        let (payload, in_block, answer) = case_of(rt.alloc(), line).or_fail(&rt);
        let read = reading(rt.alloc(), &payload, in_block).or_fail(&rt);
        assert_same(read.as_str(), answer, line).or_fail(&rt);
    }
}

// What a payload spells, if it is a message, is written as this payload.
fn assert_written_again(alloc: Global, payload: &Bytes, in_block: bool) -> Result<(), Fail> {
    match decode(alloc, payload, in_block) {
        Ok(m) => assert_written(alloc, &m, in_block, payload.as_slice()),
        Err(_) => Ok(()),
    }
}

// The message is written as this payload, behind what is there.
fn assert_written(alloc: Global, m: &Message, in_block: bool, payload: &[u8]) -> Result<(), Fail>
    requires { HasXid in_block m.now }
{
    let mut out = Vec::new(alloc);
    out.push(7)?;
    encode(alloc, m, in_block, &mut out)?;
    let (before, written) = out.as_slice().split_at(1);
    assert_same(before, [7].as_slice(), "before")?;
    assert_same(written, payload, "written")
}

fn printed(alloc: Global, m: &Message) -> Result<String, Fail> {
    Ok(format!(in alloc; "{m:?}")?)
}

// The message that a payload spells, as it is printed.
fn read_text(alloc: Global, payload: &Bytes, in_block: bool) -> Result<String, Fail> {
    let m = decode(alloc, payload, in_block)?;
    printed(alloc, &m)
}

// Payloads, whether they stand in a block, and the message that is read, with each of its fields.
static PRINTED: [(&str, bool, &str); 15] = [
    (
        "52000040017075626c6963006163636f756e7473006400020169640000000017ffffffff00656d61696c0000000019ffffffff",
        false,
        "Relation { xid: None, relation: Relation { oid: 16385, namespace: Name { text: \"public\" }, \
        name: Name { text: \"accounts\" }, identity: Default, columns: Columns { columns: [\
        RelationColumn { is_key: true, name: Name { text: \"id\" }, type_oid: 23, type_modifier: -1 }, \
        RelationColumn { is_key: false, name: Name { text: \"email\" }, type_oid: 25, type_modifier: -1 }] } } }",
    ),
    (
        "49000002c7000040014e00037400000001316e75",
        true,
        "Insert(Insert { xid: Some(711), oid: 16385, \
        new: Tuple { columns: [Text(Text { text: \"1\" }), Null, Unchanged] } })",
    ),
    (
        "4d010000000000000001700000000002ff00",
        false,
        "Message(LogicalMessage { xid: None, transactional: true, lsn: 1, \
        prefix: Name { text: \"p\" }, content: Content { bytes: b\"\\xff\\0\" } })",
    ),
    (
        "420000000000000100fffffffffffffffe00000384",
        false,
        "Begin(Begin { final_lsn: 256, commit_time: -2, xid: 900 })",
    ),
    (
        "4300000000000000010000000000000001200000000000000003",
        false,
        "Commit(Commit { commit_lsn: 256, end_lsn: 288, commit_time: 3 })",
    ),
    (
        "4f00000000000000016f00",
        true,
        "Origin(Origin { lsn: 1, name: Name { text: \"o\" } })",
    ),
    (
        "59000002bc0000400170007100",
        true,
        "TypeName(TypeName { xid: Some(700), oid: 16385, namespace: Name { text: \"p\" }, name: Name { text: \"q\" } })",
    ),
    (
        "55000040014f00027400000001316e4e0002757400000000",
        false,
        "Update(Update { xid: None, oid: 16385, \
        old: Some(Full(Tuple { columns: [Text(Text { text: \"1\" }), Null] })), \
        new: Tuple { columns: [Unchanged, Text(Text { text: \"\" })] } })",
    ),
    (
        "55000040014e0000",
        false,
        "Update(Update { xid: None, oid: 16385, old: None, new: Tuple { columns: [] } })",
    ),
    (
        "44000040014b00037400000001316e6e",
        false,
        "Delete(Delete { xid: None, oid: 16385, old: Key(Tuple { columns: [Text(Text { text: \"1\" }), Null, Null] }) })",
    ),
    (
        "53000002bc01",
        false,
        "StreamStart(StreamStart { xid: 700, is_first: true })",
    ),
    ("45", true, "StreamStop"),
    (
        "63000002bc00000000000000020000000000000002200000000000000000",
        false,
        "StreamCommit(StreamCommit { xid: 700, commit_lsn: 512, end_lsn: 544, commit_time: 0 })",
    ),
    (
        "41000002bc000002c70000000000000005ffffffffffffffff",
        false,
        "StreamAbort(StreamAbort { xid: 700, subtransaction: 711, lsn: 5, abort_time: -1 })",
    ),
    (
        "54000002bc00000002020000400100004002",
        true,
        "Truncate(Truncate { xid: Some(700), options: TruncateOptions { cascade: false, restart_identity: true }, \
        relations: Relations { oids: [16385, 16386] } })",
    ),
];

// The digits read as a message that prints so, and the message is written as they are.
fn assert_read(alloc: Global, digits: &str, in_block: bool, want: &str) -> Result<(), Fail> {
    let payload = Bytes::from_vec(from_hex(alloc, digits)?)?;
    let text = read_text(alloc, &payload, in_block)?;
    assert_same(text.as_str(), want, digits)?;
    assert_written_again(alloc, &payload, in_block)
}

#[test]
fn each_field_is_read_and_written(rt: HostRuntime) {
    for &(digits, in_block, want) in &PRINTED {
        assert_read(rt.alloc(), digits, in_block, want).or_fail(&rt);
    }
}

// One payload of each message that takes memory, and whether it stands in a block.
static PAYLOADS: [(&[u8], bool); 8] = [
    (b"O\0\0\0\0\0\0\0\x01o\0", false),
    (
        b"R\0\0\x40\x01p\0q\0d\0\x01\x01id\0\0\0\0\x17\xff\xff\xff\xff",
        false,
    ),
    (b"Y\0\0\x40\x01p\0q\0", false),
    (b"I\0\0\x02\xc7\0\0\x40\x01N\0\x02t\0\0\0\x011n", true),
    (
        b"U\0\0\x40\x01K\0\x02t\0\0\0\x011nN\0\x02ut\0\0\0\x01a",
        false,
    ),
    (b"D\0\0\x40\x01O\0\x02t\0\0\0\x011n", false),
    (b"T\0\0\0\x02\x03\0\0\x40\x01\0\0\x40\x02", false),
    (b"M\x01\0\0\0\0\0\0\0\x01p\0\0\0\0\x02\xff\0", false),
];

// What is written of a message is these bytes. Where memory is refused it is nothing.
fn assert_written_or_refused(
    alloc: Global,
    m: &Message,
    in_block: bool,
    bytes: &[u8],
) -> Result<(), Fail>
    requires { HasXid in_block m.now }
{
    let mut out = Vec::new(alloc);
    match encode(alloc, m, in_block, &mut out) {
        Ok(()) => assert_same(out.as_slice(), bytes, "out"),
        Err(fault) => {
            assert_same(fault, MsgFault::OutOfMemory, "fault")?;
            assert_holds(out.is_empty(), "is empty")
        }
    }
}

// A message that is read is written again, or memory is refused for either.
fn assert_read_or_refused(
    alloc: Global,
    payload: &Bytes,
    in_block: bool,
    bytes: &[u8],
) -> Result<(), Fail> {
    match decode(alloc, payload, in_block) {
        Ok(m) => assert_written_or_refused(alloc, &m, in_block, bytes),
        Err(fault) => assert_same(fault, MsgFault::OutOfMemory, "fault"),
    }
}

// Where memory is refused it is said by its name, and nothing is written. With ample memory it isn't refused.
#[test]
fn answers_where_memory_is_refused(rt: HostRuntime) -> Result<(), Fail> {
    for &(bytes, in_block) in &PAYLOADS {
        let Ok(payload) = Bytes::copy_from_slice(rt.alloc(), bytes) else {
            continue;
        };
        assert_read_or_refused(rt.alloc(), &payload, in_block, bytes)?;
    }
    Ok(())
}
