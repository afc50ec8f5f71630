// Which transactions are open where a stream stops, and which changes met no row.
use crate::tests::runs::framed;
use pgapply_command::open::Open;
use pgapply_command::stream::begins_as_recvlogical;
use std::alloc::Global;
use std::test::Fail;
use testing::asserts::assert_same;
use trace::Trace;

/// B(900,0/100) and C(0/100,0/120).
const BEGIN: &str = "420000000000000100000000000000000000000384";

const COMMIT: &str = "4300000000000000010000000000000001200000000000000000";

/// S(700,1), E, c(700,0/200,0/220), A(700,701) and A(700,700).
const START: &str = "53000002bc01";

const STOP: &str = "45";

const STREAM_COMMIT: &str = "63000002bc00000000000000020000000000000002200000000000000000";

const ABORT_PART: &str = "41000002bc000002bd00000000000000000000000000000000";

const ABORT: &str = "41000002bc000002bc00000000000000000000000000000000";

/// S(800,1)
const OTHER: &str = "530000032001";

/// Streams, how many transactions are open behind the last message, and before it.
static CASES: [(&[&str], usize, usize); 9] = [
    (&[], 0, 0),
    (&[BEGIN], 1, 0),
    (&[BEGIN, COMMIT], 0, 1),
    (&[START], 1, 0),
    (&[START, STOP], 1, 1),
    (&[START, STOP, ABORT_PART], 1, 1),
    (&[START, STOP, ABORT], 0, 1),
    (&[START, STOP, STREAM_COMMIT], 0, 1),
    (&[START, STOP, OTHER, STOP, START, STOP, BEGIN], 3, 2),
];

/// How many are open where a stream stops, whose last message was taken or not.
fn opened(alloc: Global, payloads: &[&str], has_taken: bool) -> Result<Option<usize>, Fail> {
    let mut trace = Trace::new(alloc);
    let mut open = Open::new(alloc);
    for payload in payloads {
        let frame = framed(alloc, &[*payload])?;
        // A frame comes in two reads.
        let bytes = frame.as_slice();
        let front = bytes.get(..7).unwrap_or(bytes);
        trace.pass(front);
        open.look(&trace);
        if let Some(rest) = bytes.get(front.len()..) {
            trace.pass(rest);
            open.look(&trace);
        }
    }
    // The end of a stream is a read of nothing.
    open.look(&trace);
    Ok(open.count(has_taken))
}

#[test]
fn how_many_transactions_are_open(rt: HostRuntime) -> Result<(), Fail> {
    for (case, (payloads, behind, before)) in CASES.iter().enumerate() {
        assert_same(opened(rt.alloc(), payloads, true)?, Some(*behind), case)?;
        assert_same(opened(rt.alloc(), payloads, false)?, Some(*before), case)?;
    }
    Ok(())
}

/// Fronts of files, and whether they are of pg_recvlogical: Begin and Stream Start behind which a line ends, a frame,
/// and two that are neither.
static FRONTS: [(&[u8; 22], bool); 5] = [
    (b"B12345678123456781234\n", true),
    (b"S1234\x01\n345678123456781", true),
    (b"d\0\0\0\x16k1234567812345678", false),
    (b"B123456781234567812345", false),
    (b"S1234\0\n34567812345678\n", false),
];

#[test]
fn a_file_of_pg_recvlogical_is_told_apart(_rt: HostRuntime) -> Result<(), Fail> {
    for (case, (front, want)) in FRONTS.iter().enumerate() {
        assert_same(begins_as_recvlogical(*front), *want, case)?;
    }
    Ok(())
}
