// That the calls succeed with ample memory, and what they then answer, by payloads in the manual's formats:
// those of `session`, and of `relcache` through them.
use super::hex::from_hex;
use bytes::Bytes;
use catalog::Catalog;
use session::{Session, laws};
use std::alloc::{AllocError, Global};
use std::test::Fail;
use testing::asserts::assert_same;

const ACCOUNTS: &str = r#"
[[table]]
namespace = "public"
name = "accounts"
primary = ["id"]
column = [{name="id", type="int"}, {name="closed", type="bool"}]
"#;

// The accounts, with a text and a default, and a table whose key is not in the order of its columns.
const TWO_TABLES: &str = r#"
[[table]]
namespace = "public"
name = "accounts"
primary = ["id"]
column = [{name="id", type="int"}, {name="email", type="text"}, {name="note", type="text", default="x"}]
[[table]]
namespace = "pg_catalog"
name = "flags"
primary = ["name", "id"]
column = [{name="id", type="int"}, {name="name", type="text"}, {name="set", type="bool"}]
"#;

// Payloads in hexadecimal digits, each with what is answered; a line that begins with # says what follows.
// A transaction between Begin and Commit.
const BEGUN: &str = "\
49000040014e00027400000001317400000001 Err(Msg(Short))\n\
49000040014e0002740000000131740000000174 Err(Session(NotInTransaction))\n\
420000000000000100000000000000000000000384 Ok(Begin(900))\n\
49000040014e0002740000000131740000000174 Err(Rel(UnknownRelation))\n\
52000040017075626c6963006163636f756e7473006400020169640000000017ffffffff00636c6f7365640000000010ffffffff Ok(Nothing)\n\
49000040014e0002740000000131740000000174 Ok(Item(900, Change { sub: 900, change: Put { table: 0, row: [Some(Int(1)), Some(Bool(true))] } }))\n\
54000000010000004001 Ok(Item(900, Change { sub: 900, change: Wipe { tables: TableIds { ids: [0] } } }))\n\
4300000000000000010100000000000001200000000000000000 Err(Session(CommitMismatch))\n\
4300000000000000010000000000000001200000000000000000 Ok(Commit(900, CommitInfo { commit: 256, end: 288 }, []))";

// Two streamed transactions, of which the first gets the one worker.
const STREAMED: &str = "\
53000002bc01 Ok(Open(700))\n\
52000002c7000040017075626c6963006163636f756e7473006400020169640000000017ffffffff00636c6f7365640000000010ffffffff Ok(Item(700, Touch(711)))\n\
44000002c7000040014b00027400000001316e Ok(Item(700, Change { sub: 711, change: Remove { table: 0, key: Key { values: Int(1) } } }))\n\
45 Ok(Nothing)\n\
53000002bd00 Err(Session(UnknownTransaction))\n\
53000002bd01 Ok(Nothing)\n\
49000002bd000040014e0002740000000131740000000174 Ok(Nothing)\n\
49000002c8000040014e0002740000000132740000000174 Ok(Nothing)\n\
45 Ok(Nothing)\n\
41000002bd000002c800000000000000000000000000000000 Ok(Nothing)\n\
63000002bd00000000000000020000000000000002200000000000000000 Ok(Commit(701, CommitInfo { commit: 512, end: 544 }, [Change { sub: 701, change: Put { table: 0, row: [Some(Int(1)), Some(Bool(true))] } }]))\n\
41000002bc000002c700000000000000000000000000000000 Ok(Item(700, BackTo(711)))\n\
41000002bc000002bc00000000000000000000000000000000 Ok(Abort(700))\n\
41000002bc000002bc00000000000000000000000000000000 Ok(Nothing)";

// Relations, and row messages by them: what each asks for, or its first fault.
const ROWS: &str = "\
420000000000000100000000000000000000000384 Ok(Begin(900))\n\
# A relation that was not learnt.\n\
49000040014e0002740000000131740000000161 Err(Rel(UnknownRelation))\n\
# Columns are matched by name; others have their defaults.\n\
52000040017075626c6963006163636f756e74730064000200656d61696c0000000019ffffffff0169640000000019ffffffff Ok(Nothing)\n\
49000040014e0002740000000161740000000131 Ok(Item(900, Change { sub: 900, change: Put { table: 0, row: [Some(Int(1)), Some(Text(\"a\")), Some(Text(\"x\"))] } }))\n\
# An update keeps what is not sent, and has its key from the old tuple, or the new one.\n\
52000040017075626c6963006163636f756e7473006400020169640000000019ffffffff00656d61696c0000000019ffffffff Ok(Nothing)\n\
55000040014b00027400000001316e4e000274000000013975 Ok(Item(900, Change { sub: 900, change: Set { table: 0, key: Key { values: Int(1) }, patch: [Value(Int(9)), Keep, Keep] } }))\n\
55000040014e00027400000001376e Ok(Item(900, Change { sub: 900, change: Set { table: 0, key: Key { values: Int(7) }, patch: [Value(Int(7)), Null, Keep] } }))\n\
55000040014e000274000000013175 Ok(Item(900, Change { sub: 900, change: Set { table: 0, key: Key { values: Int(1) }, patch: [Value(Int(1)), Keep, Keep] } }))\n\
# A bad value in three columns; no int; an unchanged key; a null in the key; an unchanged value that is inserted.\n\
55000040014e00037400000001716e6e Err(Rel(ColumnCount))\n\
55000040014e00027400000001716e Err(Rel(BadValue))\n\
55000040014e0002756e Err(Rel(BadValue))\n\
55000040014e00026e740000000161 Err(Rel(NullKey))\n\
49000040014e00026e75 Err(Rel(BadValue))\n\
# Three columns, and no key; an insert needs none.\n\
52000040017075626c6963006163636f756e7473006400020069640000000019ffffffff00656d61696c0000000019ffffffff Ok(Nothing)\n\
55000040014e00036e6e6e Err(Rel(KeyNotSent))\n\
49000040014e00026e6e Ok(Item(900, Change { sub: 900, change: Put { table: 0, row: [None, None, Some(Text(\"x\"))] } }))\n\
# A relation that names a column twice, and before that names no table, or no column of it.\n\
520000400170726976617465006163636f756e7473006400030169640000000019ffffffff0169640000000019ffffffff007a69700000000019ffffffff Ok(Nothing)\n\
49000040014e0003740000000131740000000132740000000133 Err(Rel(TableMissing))\n\
52000040017075626c6963004163636f756e7473006400030169640000000019ffffffff0169640000000019ffffffff0069640000000019ffffffff Ok(Nothing)\n\
49000040014e0003740000000131740000000132740000000133 Err(Rel(TableMissing))\n\
5200004001006163636f756e7473006400030169640000000019ffffffff0169640000000019ffffffff0069640000000019ffffffff Ok(Nothing)\n\
49000040014e0003740000000131740000000132740000000133 Err(Rel(TableMissing))\n\
52000040017075626c6963006163636f756e7473006400030169640000000019ffffffff0169640000000019ffffffff007a69700000000019ffffffff Ok(Nothing)\n\
49000040014e0003740000000131740000000132740000000133 Err(Rel(ColumnMissing))\n\
52000040017075626c6963006163636f756e7473006400030169640000000019ffffffff0169640000000019ffffffff00656d61696c0000000019ffffffff Ok(Nothing)\n\
49000040014e0003740000000131740000000132740000000133 Err(Rel(ColumnCount))\n\
# A key in the order of the primary key, of a table of the namespace that is not named.\n\
520000400100666c61677300640003007365740000000019ffffffff0169640000000019ffffffff016e616d650000000019ffffffff Ok(Nothing)\n\
44000040014f0003740000000379657374000000022d3374000000016e Ok(Item(900, Change { sub: 900, change: Remove { table: 1, key: Key { values: Many([Text(KeptText { text: \"n\" }), Int(-3)]) } } }))\n\
# A bad value in the key, one behind it, and a null in the key alone.\n\
520000400100666c61677300640003016e616d650000000019ffffffff0169640000000019ffffffff007365740000000019ffffffff Ok(Nothing)\n\
55000040014e00036e740000000171740000000174 Err(Rel(BadValue))\n\
55000040014e00036e7400000001317400000003796573 Err(Rel(BadValue))\n\
55000040014e00036e740000000131740000000166 Err(Rel(NullKey))\n\
# Texts of a key, and the keys that they are.\n\
52000040017075626c6963006163636f756e7473006400010169640000000019ffffffff Ok(Nothing)\n\
44000040014b000174000000032b3037 Ok(Item(900, Change { sub: 900, change: Remove { table: 0, key: Key { values: Int(7) } } }))\n\
44000040014b000174000000022d30 Ok(Item(900, Change { sub: 900, change: Remove { table: 0, key: Key { values: Int(0) } } }))\n\
44000040014b0001740000001c30303030303030303030303030303030303030303030303030303031 Ok(Item(900, Change { sub: 900, change: Remove { table: 0, key: Key { values: Int(1) } } }))\n\
44000040014b0001740000001339323233333732303336383534373735383037 Ok(Item(900, Change { sub: 900, change: Remove { table: 0, key: Key { values: Int(9223372036854775807) } } }))\n\
44000040014b0001740000001339323233333732303336383534373735383038 Err(Rel(BadValue))\n\
44000040014b000174000000142d39323233333732303336383534373735383038 Ok(Item(900, Change { sub: 900, change: Remove { table: 0, key: Key { values: Int(-9223372036854775808) } } }))\n\
44000040014b000174000000142d39323233333732303336383534373735383039 Err(Rel(BadValue))\n\
44000040014b00017400000000 Err(Rel(BadValue))\n\
44000040014b000174000000012b Err(Rel(BadValue))\n\
44000040014b000174000000012d Err(Rel(BadValue))\n\
44000040014b000174000000032b2d31 Err(Rel(BadValue))\n\
44000040014b000174000000022031 Err(Rel(BadValue))\n\
44000040014b00017400000003312e30 Err(Rel(BadValue))\n\
44000040014b00017400000003307831 Err(Rel(BadValue))\n\
44000040014b00017400000002d9a3 Err(Rel(BadValue))";

// What a session answers to a payload in hexadecimal digits.
fn answer(
    alloc: Global,
    session: &mut Session,
    tables: &Catalog,
    digits: &str,
) -> Result<String, AllocError> {
    let payload = Bytes::copy_from_slice(alloc, &from_hex(alloc, digits)?)?;
    let answer = session.admit(alloc, tables, &payload);
    format!(in alloc; "{answer:?}")
}

// A session answers each payload of the stream as it says.
fn answers_all(
    alloc: Global,
    session: &mut Session,
    tables: &Catalog,
    stream: &str,
) -> Result<(), Fail> {
    for line in stream.lines() {
        let (digits, want) = line.split_once(' ').unwrap_or((line, ""));
        if digits != "#" {
            let answer = answer(alloc, session, tables, digits)?;
            assert_same(answer.as_str(), want, digits)?;
        }
    }
    Ok(())
}

// The same of a session with one worker, over these tables.
fn answers(alloc: Global, tables: &str, stream: &str) -> Result<(), Fail> {
    let tables = Catalog::read(alloc, tables)?;
    let mut session = Session::new(alloc, 1, 1000, 0);
    answers_all(alloc, &mut session, &tables, stream)
}

#[test]
fn a_begun_transaction_is_given_as_it_comes(rt: HostRuntime) -> Result<(), Fail> {
    answers(rt.alloc(), ACCOUNTS, BEGUN)
}

#[test]
fn a_streamed_transaction_goes_to_a_worker_or_waits(rt: HostRuntime) -> Result<(), Fail> {
    laws::one_state();
    laws::refused_or_admitted();
    answers(rt.alloc(), ACCOUNTS, STREAMED)
}

#[test]
fn a_row_message_asks_for_a_change_or_has_its_first_fault(rt: HostRuntime) -> Result<(), Fail> {
    answers(rt.alloc(), TWO_TABLES, ROWS)
}

// What a session answers to a payload, where memory may be refused once: then nothing has changed, and the
// same payload is answered.
fn answer_at_last(
    alloc: Global,
    session: &mut Session,
    tables: &Catalog,
    digits: &str,
) -> Result<String, AllocError> {
    let first = answer(alloc, session, tables, digits)?;
    if first.as_str() == "Err(OutOfMemory)" {
        return answer(alloc, session, tables, digits);
    }
    Ok(first)
}

// Each payload that is answered is answered as it says, whether memory was refused before or not.
fn answers_at_last(alloc: Global, tables: &Catalog, stream: &str) -> Result<(), Fail> {
    let mut session = Session::new(alloc, 1, 1000, 0);
    for line in stream.lines() {
        let (digits, want) = line.split_once(' ').unwrap_or((line, ""));
        if digits != "#" {
            let Ok(answer) = answer_at_last(alloc, &mut session, tables, digits) else {
                return Ok(());
            };
            assert_same(answer.as_str(), want, digits)?;
        }
    }
    Ok(())
}

#[test]
fn rows_where_memory_is_refused(rt: HostRuntime) -> Result<(), Fail> {
    match Catalog::read(rt.alloc(), TWO_TABLES) {
        Ok(tables) => answers_at_last(rt.alloc(), &tables, ROWS),
        Err(_) => Ok(()),
    }
}
