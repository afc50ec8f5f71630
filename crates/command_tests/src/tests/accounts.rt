// What `--verbose` says of a command that did not end well.
use crate::tests::runs::{CONFIG, framed};
use catalog::{Catalog, CatalogFault};
use frames::{ReadSource, WriteSink};
use indexes::Tables;
use leader::{Config, Devices, End, Outcome, StillClock};
use pgapply_command::account::Account;
use pgapply_command::execute::{Hearer, execute_on};
use pgapply_command::stream::Updates;
use std::alloc::Global;
use std::io::Cursor;
use std::random::RandomSource;
use std::sync::Wait;
use std::test::Fail;
use std::thread::Threads;
use testing::accounts::CATALOG;
use testing::asserts::assert_same;
use trace::{Trace, Watched, Watcher};

/// Says nothing.
#[derive(Drop)]
struct Quiet;

impl Watcher for Quiet {
    fn look(&mut self, _trace: &Trace) {}
}

/// What is said of a run of this stream. Without workers each streamed transaction is spooled.
fn said<R: Threads + Wait + RandomSource + Sync>(
    rt: &R,
    alloc: Global,
    stream: Vec<u8>,
    config: &Config,
) -> Result<Account, Fail> {
    let mut out = Vec::new(alloc);
    let mut trace = Trace::new(alloc);
    let mut quiet = Quiet;
    let mut account = Account::new(alloc, config.skip);
    let source = ReadSource::new(Cursor::new(stream));
    let watched = Watched::new(source, &mut trace, &mut quiet, true);
    let mut devices = Devices::new(watched, WriteSink::new(Updates::Nowhere), StillClock(5));
    let ended = execute_on(
        rt,
        alloc,
        config.workers == 0,
        config,
        CATALOG.as_bytes(),
        &mut devices,
        &mut account,
        &mut out,
    );
    drop(devices);
    if ended.status >= 2 {
        account.add_place(&trace)?;
    }
    Ok(account)
}

/// A stream, and what is said of it.
struct Case {
    name: &'static str,
    payloads: &'static [&'static str],
    /// Bytes behind the frames of the payloads.
    rest: &'static str,
    /// Workers, or their schedule, may make it end elsewhere.
    without_workers: bool,
    said: &'static str,
}

// Their frames have 51, 95 and 56 bytes.

/// B(900,0/100)
const BEGIN: &str = "420000000000000100000000000000000000000384";

const RELATION: &str =
    "52000040017075626c6963006163636f756e7473006400030169640000000017ffffffff00656d61696c0000000019ffffffff006e6f74650000000019ffffffff";

/// I(1,a,n)
const INSERT: &str = "49000040014e000374000000013174000000016174000000016e";

// And those in a block 36, 99, 60, 31 and 60.

/// S(700,1)
const START: &str = "53000002bc01";

const RELATION_IN_BLOCK: &str =
    "52000002bc000040017075626c6963006163636f756e7473006400030169640000000017ffffffff00656d61696c0000000019ffffffff006e6f74650000000019ffffffff";

/// 700:I(1,a,n)
const INSERT_IN_BLOCK: &str = "49000002bc000040014e000374000000013174000000016174000000016e";

const STOP: &str = "45";

/// c(700,0/200,0/220)
const STREAM_COMMIT: &str = "63000002bc00000000000000020000000000000002200000000000000000";

static CASES: [Case; 15] = [
    Case {
        name: "a frame of no known kind",
        payloads: &[BEGIN],
        rest: "7800000008",
        without_workers: false,
        said: "pgapply: unknown frame: see that the input has the stream's CopyData frames alone, whole and in order\n\
            pgapply: 56 bytes were read, whole frames 1; the last frame begins at byte 51\n",
    },
    Case {
        name: "a frame that is cut",
        payloads: &[BEGIN],
        rest: "640000005e7700000000",
        without_workers: false,
        said: "pgapply: input ended inside a frame: the rest of the stream is missing: capture it again\n\
            pgapply: 61 bytes were read, whole frames 1; the last frame begins at byte 51\n",
    },
    Case {
        name: "an error of the server",
        payloads: &[BEGIN],
        rest: "450000000b53464154414c00",
        without_workers: false,
        said: "pgapply: error from the server: the server's log says why it ended the stream\n\
            pgapply: 63 bytes were read, whole frames 2; the last frame begins at byte 51\n",
    },
    Case {
        name: "a two-phase message",
        payloads: &["62"],
        rest: "",
        without_workers: false,
        said: "pgapply: two-phase message: ask the publisher for two_phase 'false'\n\
            pgapply: 31 bytes were read, whole frames 1; the last frame begins at byte 0, at 0/0 of the publisher's log\n",
    },
    // X, in a frame whose start is A/BEEF.
    Case {
        name: "a message of no known kind",
        payloads: &[],
        rest: "640000001e770000000a0000beef0000000000000000000000000000000058",
        without_workers: false,
        said: "pgapply: unknown message tag: ask the publisher for proto_version '4' and streaming 'parallel', and see that no byte was changed on the way\n\
            pgapply: 31 bytes were read, whole frames 1; the last frame begins at byte 0, at A/BEEF of the publisher's log\n",
    },
    // The insert ends behind its relation.
    Case {
        name: "a message that is short",
        payloads: &[BEGIN, RELATION, "4900004001"],
        rest: "",
        without_workers: false,
        said: "pgapply: the message ends too early: ask the publisher for proto_version '4' and streaming 'parallel', and see that no byte was changed on the way\n\
            pgapply: 181 bytes were read, whole frames 3; the last frame begins at byte 146, at 0/0 of the publisher's log\n\
            pgapply: it is Insert, of transaction 900, of relation 16385 (public.accounts)\n",
    },
    Case {
        name: "a change outside of a transaction",
        payloads: &[INSERT],
        rest: "",
        without_workers: false,
        said: "pgapply: not in a transaction: messages were lost or came twice: capture the stream again from the slot's start\n\
            pgapply: 56 bytes were read, whole frames 1; the last frame begins at byte 0, at 0/0 of the publisher's log\n\
            pgapply: it is Insert, of relation 16385\n",
    },
    // Its name has an escape, which a terminal would obey.
    Case {
        name: "a table that the catalog hasn't",
        payloads: &[
            BEGIN,
            "52000040017075626c6963006163631b6f756e7473006400030169640000000017ffffffff00656d61696c0000000019ffffffff006e6f74650000000019ffffffff",
            INSERT,
        ],
        rest: "",
        without_workers: false,
        said: "pgapply: no such table: add the table to the catalog, or take it from the publication\n\
            pgapply: 203 bytes were read, whole frames 3; the last frame begins at byte 147, at 0/0 of the publisher's log\n\
            pgapply: it is Insert, of transaction 900, of relation 16385 (public.acc\\u{1b}ounts)\n",
    },
    // The relation has a further column `zip`, and the insert is of (1,a,n,z).
    Case {
        name: "a column that the catalog hasn't",
        payloads: &[
            BEGIN,
            "52000040017075626c6963006163636f756e7473006400040169640000000017ffffffff00656d61696c0000000019ffffffff006e6f74650000000019ffffffff007a69700000000019ffffffff",
            "49000040014e000474000000013174000000016174000000016e74000000017a",
        ],
        rest: "",
        without_workers: false,
        said: "pgapply: no such column: add the published column to the catalog's table, or leave it out of the publication\n\
            pgapply: 221 bytes were read, whole frames 3; the last frame begins at byte 159, at 0/0 of the publisher's log\n\
            pgapply: it is Insert, of transaction 900, of relation 16385 (public.accounts)\n",
    },
    Case {
        name: "a primary key that stands twice",
        payloads: &[BEGIN, RELATION, INSERT, INSERT],
        rest: "",
        without_workers: false,
        said: "pgapply: key 0 of public.accounts has the columns id\n\
            pgapply: a row would stand twice in key 0 of table 0 (0 is the primary key, and the first table): the tables are no true copy of the publisher's: compare them at the position, or begin again with empty tables\n\
            pgapply: 258 bytes were read, whole frames 4; the last frame begins at byte 202, at 0/0 of the publisher's log\n\
            pgapply: it is Insert, of transaction 900, of relation 16385 (public.accounts)\n",
    },
    // 711:I(x,a,n)
    Case {
        name: "a value of another type, in a subtransaction",
        payloads: &[
            START,
            RELATION_IN_BLOCK,
            "49000002c7000040014e000374000000017874000000016174000000016e",
        ],
        rest: "",
        without_workers: false,
        said: "pgapply: bad value: give the column a type in the catalog that holds what the publisher sends; text holds all\n\
            pgapply: 195 bytes were read, whole frames 3; the last frame begins at byte 135, at 0/0 of the publisher's log\n\
            pgapply: it is Insert, of transaction 700, subtransaction 711, of relation 16385 (public.accounts)\n",
    },
    // The second insert is of (2,a,n). It clashes where the transaction commits.
    Case {
        name: "a unique key that stands twice, of a streamed transaction",
        payloads: &[
            START,
            RELATION_IN_BLOCK,
            INSERT_IN_BLOCK,
            "49000002bc000040014e000374000000013274000000016174000000016e",
            STOP,
            STREAM_COMMIT,
        ],
        rest: "",
        without_workers: true,
        said: "pgapply: key 1 of public.accounts has the columns email\n\
            pgapply: a row would stand twice in key 1 of table 0 (0 is the primary key, and the first table): the tables are no true copy of the publisher's: compare them at the position, or begin again with empty tables\n\
            pgapply: 346 bytes were read, whole frames 6; the last frame begins at byte 286, at 0/0 of the publisher's log\n\
            pgapply: it is Stream Commit, of transaction 700\n",
    },
    // I(NULL,a,n)
    Case {
        name: "a null in the primary key",
        payloads: &[
            BEGIN,
            RELATION,
            "49000040014e00036e74000000016174000000016e",
        ],
        rest: "",
        without_workers: false,
        said: "pgapply: key 0 of public.accounts has the columns id\n\
            pgapply: a row of table 0 (0 is the first) has a null in its primary key: let the catalog's primary key be one that the publisher keeps\n\
            pgapply: 197 bytes were read, whole frames 3; the last frame begins at byte 146, at 0/0 of the publisher's log\n\
            pgapply: it is Insert, of transaction 900, of relation 16385 (public.accounts)\n",
    },
    // U(7,a,n) and D(8): the tables have no such rows.
    Case {
        name: "changes that met no row",
        payloads: &[
            BEGIN,
            RELATION,
            INSERT,
            "55000040014e000374000000013774000000016174000000016e",
            "44000040014b00037400000001386e6e",
            "4300000000000000010000000000000001200000000000000000",
        ],
        rest: "",
        without_workers: false,
        said: "pgapply: 2 changes met no row: the tables are no true copy of the publisher's: begin again, with publisher's --copy\n",
    },
    Case {
        name: "a stream that ends well",
        payloads: &[BEGIN, RELATION, INSERT],
        rest: "",
        without_workers: false,
        said: "",
    },
];

#[test]
fn why_and_where_a_run_ended(rt: HostRuntime) -> Result<(), Fail> {
    let alloc = rt.alloc();
    for case in &CASES {
        for workers in 0..if case.without_workers { 1 } else { 4 } {
            let mut stream = framed(alloc, case.payloads)?;
            let rest = hex::decode(alloc, case.rest)?;
            stream.extend_from_slice(rest.as_slice())?;
            let config = Config { workers, ..CONFIG };
            let account = said(&rt, alloc, stream, &config)?;
            assert_same(account.text(), case.said, case.name)?;
        }
    }
    Ok(())
}

#[test]
fn transactions_that_are_undone(rt: HostRuntime) -> Result<(), Fail> {
    for (count, want) in [
        (0, ""),
        (1, "pgapply: 1 transaction was open, and is undone\n"),
        (2, "pgapply: 2 transactions were open, and are undone\n"),
    ] {
        let mut account = Account::new(rt.alloc(), 0);
        account.add_open(count)?;
        assert_same(account.text(), want, "account")?;
    }
    Ok(())
}

/// What is said where a catalog is refused.
fn said_of_refusal(alloc: Global, fault: CatalogFault) -> Account {
    let mut account = Account::new(alloc, 0);
    account.hear_refusal(fault);
    account
}

/// What is said of a run from empty tables that ended so.
fn said_of_end(alloc: Global, end: End) -> Result<Account, Fail> {
    let catalog = Catalog::read(alloc, CATALOG)?;
    let outcome = Outcome {
        tables: Tables::empty(alloc, &catalog)?,
        journal: Vec::new(alloc),
        position: 0,
        end,
    };
    let mut account = Account::new(alloc, 0);
    account.hear_end(&catalog, &outcome);
    Ok(account)
}

// A catalog is refused before its stream is read: there is no place in it to tell.
#[test]
fn catalogs_that_are_refused(rt: HostRuntime) -> Result<(), Fail> {
    for (fault, said) in [
        (
            CatalogFault::NoPrimaryKey,
            "pgapply: a table has no primary key\n",
        ),
        (CatalogFault::OutOfMemory, ""),
    ] {
        let mut account = said_of_refusal(rt.alloc(), fault);
        account.add_place(&Trace::new(rt.alloc()))?;
        assert_same(account.text(), said, "account")?;
    }
    Ok(())
}

// Which of two transactions holds a row is the schedule's choice, and no stream has memory refused.
#[test]
fn ends_that_no_stream_alone_brings_about(rt: HostRuntime) -> Result<(), Fail> {
    for (end, said) in [
        (
            End::HeldKey {
                xid: 900,
                holder: 700,
            },
            "pgapply: transaction 900 needs a row or a unique value that transaction 700 holds: the tables are no true copy of the publisher's: compare them at the position, or begin again with empty tables\n",
        ),
        (
            End::OutOfMemory,
            "pgapply: memory was refused: give the process more, or the spool less\n",
        ),
    ] {
        let account = said_of_end(rt.alloc(), end)?;
        assert_same(account.text(), said, "account")?;
    }
    Ok(())
}

// A transaction from 0/200 to 0/220 that inserts nothing.
const EMPTY: &[&str] = &[
    "420000000000000200000000000000000000000258",
    "4300000000000000020000000000000002200000000000000000",
];

// With `--skip`, also where all is well.
#[test]
fn which_transaction_was_skipped(rt: HostRuntime) -> Result<(), Fail> {
    for (skip, said_of_it) in [
        (0, ""),
        (
            0x200,
            "pgapply: transaction 600 was skipped, which committed at 0/200\n",
        ),
        (
            0x1_0000_00ff,
            "pgapply: no transaction was skipped: none committed first at 1/FF\n",
        ),
    ] {
        let config = Config { skip, ..CONFIG };
        let account = said(&rt, rt.alloc(), framed(rt.alloc(), EMPTY)?, &config)?;
        assert_same(account.text(), said_of_it, "account")?;
    }
    Ok(())
}
