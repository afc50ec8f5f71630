// Streams and what is printed of them. Each payload stands in an XLogData frame whose positions and clock are 0.
//
// In the comments: `B` Begin, `R` the relation, `I` `U` `D` `T` changes, `C` Commit, `S` `E` a block of a streamed
// transaction, `c` Stream Commit, `A` Stream Abort; `P` is `ROWS`.

use crate::tests::runs::{CONFIG, printed, push_frames};
use leader::Config;
use std::alloc::Global;
use std::random::RandomSource;
use std::sync::Wait;
use std::test::Fail;
use std::thread::Threads;
use testing::asserts::assert_same;

/// A stream and its report.
struct Case {
    name: &'static str,
    /// The payloads that come first.
    opening: &'static [&'static str],
    payloads: &'static [&'static str],
    spool: u64,
    /// The commit LSN of the transaction to skip; 0 for none.
    skip: u64,
    /// Workers, or their schedule, may make it another one.
    without_workers: bool,
    report: &'static str,
    status: u8,
}

const SPOOL: u64 = 1 << 30;

/// The relation `public.accounts` outside of a block.
const ACCOUNTS: &str =
    "52000040017075626c6963006163636f756e7473006400030169640000000017ffffffff00656d61696c0000000019ffffffff006e6f74650000000019ffffffff";

/// The rows 1 and 2 are committed at 0/140.
const ROWS: &[&str] = &[
    "4200000000000001000000000000000000000001f4",
    ACCOUNTS,
    "49000040014e000374000000013174000000016174000000016e",
    "49000040014e000374000000013274000000016274000000016e",
    "4300000000000000010000000000000001400000000000000000",
];

/// S(700,1) 700:R 700:I(1,a,n) 711:I(2,b,n)
const TWO_INSERTS: &[&str] = &[
    "53000002bc01",
    "52000002bc000040017075626c6963006163636f756e7473006400030169640000000017ffffffff00656d61696c0000000019ffffffff006e6f74650000000019ffffffff",
    "49000002bc000040014e000374000000013174000000016174000000016e",
    "49000002c7000040014e000374000000013274000000016274000000016e",
];

/// E A(700,711) S(700,0) 700:I(3,c,n) E c(700,0/200,0/220)
const ROLLED_BACK_AND_GONE_ON: &[&str] = &[
    "45",
    "41000002bc000002c700000000000000000000000000000000",
    "53000002bc00",
    "49000002bc000040014e000374000000013374000000016374000000016e",
    "45",
    "63000002bc00000000000000020000000000000002200000000000000000",
];

/// P S(700,1) 700:D(1) E S(701,1) 701:I(3,a,n) E
const MOVED_EMAIL: &[&str] = &[
    "4200000000000001000000000000000000000001f4",
    ACCOUNTS,
    "49000040014e000374000000013174000000016174000000016e",
    "49000040014e000374000000013274000000016274000000016e",
    "4300000000000000010000000000000001400000000000000000",
    "53000002bc01",
    "44000002bc000040014b00037400000001316e6e",
    "45",
    "53000002bd01",
    "49000002bd000040014e000374000000013374000000016174000000016e",
    "45",
];

/// What most cases have.
const PLAIN: Case = Case {
    name: "",
    opening: &[],
    payloads: &[],
    spool: SPOOL,
    skip: 0,
    without_workers: false,
    report: "",
    status: 0,
};

static CASES: [Case; 28] = [
    // B(900,0/100) R I(1,a,n) I(2,b,NULL) I(3,NULL,) C(0/100,0/120)
    Case {
        name: "nulls and empty texts",
        payloads: &[
            "420000000000000100000000000000000000000384",
            ACCOUNTS,
            "49000040014e000374000000013174000000016174000000016e",
            "49000040014e00037400000001327400000001626e",
            "49000040014e00037400000001336e7400000000",
            "4300000000000000010000000000000001200000000000000000",
        ],
        report: "table public.accounts 3\n1|a|n\n2|b|\\N\n3|\\N|\nposition 0/120\nend 0 Clean\n",
        ..PLAIN
    },
    // P B(600,0/130) C(0/130,0/140)
    Case {
        name: "a commit that is not newer",
        opening: ROWS,
        payloads: &[
            "420000000000000130000000000000000000000258",
            "4300000000000000013000000000000001400000000000000000",
        ],
        report: "table public.accounts 2\n1|a|n\n2|b|n\nposition 0/140\nend 3 Session OldCommit\n",
        status: 2,
        ..PLAIN
    },
    // P B(600,0/200) I(3,NULL,n) I(4,NULL,n) C(0/200,0/220) B(601,0/300) I(5,b,n) C(0/300,0/320)
    Case {
        name: "two nulls in a unique key, then a clash",
        opening: ROWS,
        payloads: &[
            "420000000000000200000000000000000000000258",
            "49000040014e00037400000001336e74000000016e",
            "49000040014e00037400000001346e74000000016e",
            "4300000000000000020000000000000002200000000000000000",
            "420000000000000300000000000000000000000259",
            "49000040014e000374000000013574000000016274000000016e",
            "4300000000000000030000000000000003200000000000000000",
        ],
        report: "table public.accounts 4\n1|a|n\n2|b|n\n3|\\N|n\n4|\\N|n\nposition 0/220\nend 5 Unique public.accounts 1\n",
        status: 3,
        ..PLAIN
    },
    // P B(600,0/200) U(K:1;9,a,u) C(0/200,0/220)
    Case {
        name: "an update that moves a key",
        opening: ROWS,
        payloads: &[
            "420000000000000200000000000000000000000258",
            "55000040014b00037400000001316e6e4e000374000000013974000000016175",
            "4300000000000000020000000000000002200000000000000000",
        ],
        report: "table public.accounts 2\n2|b|n\n9|a|n\nposition 0/220\nend 0 Clean\n",
        ..PLAIN
    },
    // w:62
    Case {
        name: "a two-phase message",
        payloads: &["62"],
        report: "table public.accounts 0\nposition 0/0\nend 2 Msg TwoPhase\n",
        status: 2,
        ..PLAIN
    },
    // P B(600,0/200) U(7,g,v) C(0/200,0/220)
    Case {
        name: "an update of a missing row",
        opening: ROWS,
        payloads: &[
            "420000000000000200000000000000000000000258",
            "55000040014e0003740000000137740000000167740000000176",
            "4300000000000000020000000000000002200000000000000000",
        ],
        report: "table public.accounts 2\n1|a|n\n2|b|n\nposition 0/220\nend 0 Clean\n",
        ..PLAIN
    },
    // P B(600,0/200) I(+07,\N,) C(0/200,0/220)
    Case {
        name: "an insert with escapes",
        opening: ROWS,
        payloads: &[
            "420000000000000200000000000000000000000258",
            "49000040014e000374000000032b303774000000025c4e7400000000",
            "4300000000000000020000000000000002200000000000000000",
        ],
        report: "table public.accounts 3\n1|a|n\n2|b|n\n7|\\\\N|\nposition 0/220\nend 0 Clean\n",
        ..PLAIN
    },
    // P B(600,0/200) I(NULL,g,n) C(0/200,0/220)
    Case {
        name: "a null in the primary key",
        opening: ROWS,
        payloads: &[
            "420000000000000200000000000000000000000258",
            "49000040014e00036e74000000016774000000016e",
            "4300000000000000020000000000000002200000000000000000",
        ],
        report: "table public.accounts 2\n1|a|n\n2|b|n\nposition 0/140\nend 6 NullKey public.accounts\n",
        status: 3,
        ..PLAIN
    },
    // S(700,0)
    Case {
        name: "a block of an unknown transaction",
        payloads: &["53000002bc00"],
        report: "table public.accounts 0\nposition 0/0\nend 3 Session UnknownTransaction\n",
        status: 2,
        ..PLAIN
    },
    // A(700,700)
    Case {
        name: "an abort of an unknown transaction",
        payloads: &["41000002bc000002bc00000000000000000000000000000000"],
        report: "table public.accounts 0\nposition 0/0\nend 0 Clean\n",
        ..PLAIN
    },
    // B(600,0/200) Ra I(a,1) C(0/200,0/220)
    Case {
        name: "columns in another order, the third by its default",
        payloads: &[
            "420000000000000200000000000000000000000258",
            "52000040017075626c6963006163636f756e74730064000200656d61696c0000000019ffffffff0169640000000017ffffffff",
            "49000040014e0002740000000161740000000131",
            "4300000000000000020000000000000002200000000000000000",
        ],
        report: "table public.accounts 1\n1|a|x\nposition 0/220\nend 0 Clean\n",
        ..PLAIN
    },
    // B(600,0/200) Rb C(0/200,0/220)
    Case {
        name: "a column that the table lacks, unused",
        payloads: &[
            "420000000000000200000000000000000000000258",
            "52000040017075626c6963006163636f756e7473006400040169640000000017ffffffff00656d61696c0000000019ffffffff006e6f74650000000019ffffffff007a69700000000019ffffffff",
            "4300000000000000020000000000000002200000000000000000",
        ],
        report: "table public.accounts 0\nposition 0/220\nend 0 Clean\n",
        ..PLAIN
    },
    // B(600,0/200) Rb I(1,a,n,z) C(0/200,0/220)
    Case {
        name: "a column that the table lacks",
        payloads: &[
            "420000000000000200000000000000000000000258",
            "52000040017075626c6963006163636f756e7473006400040169640000000017ffffffff00656d61696c0000000019ffffffff006e6f74650000000019ffffffff007a69700000000019ffffffff",
            "49000040014e000474000000013174000000016174000000016e74000000017a",
            "4300000000000000020000000000000002200000000000000000",
        ],
        report: "table public.accounts 0\nposition 0/0\nend 4 Rel ColumnMissing\n",
        status: 2,
        ..PLAIN
    },
    // B(600,0/200) Rn U(1,a,n) C(0/200,0/220)
    Case {
        name: "a key that is not flagged",
        payloads: &[
            "420000000000000200000000000000000000000258",
            "52000040017075626c6963006163636f756e7473006400030069640000000017ffffffff00656d61696c0000000019ffffffff006e6f74650000000019ffffffff",
            "55000040014e000374000000013174000000016174000000016e",
            "4300000000000000020000000000000002200000000000000000",
        ],
        report: "table public.accounts 0\nposition 0/0\nend 4 Rel KeyNotSent\n",
        status: 2,
        ..PLAIN
    },
    // S(700,1) 700:R 700:I(1,a,n) 711:I(2,b,n) 700:I(3,c,n) E A(700,711) c(700,0/200,0/220)
    Case {
        name: "a rolled back subtransaction",
        opening: TWO_INSERTS,
        payloads: &[
            "49000002bc000040014e000374000000013374000000016374000000016e",
            "45",
            "41000002bc000002c700000000000000000000000000000000",
            "63000002bc00000000000000020000000000000002200000000000000000",
        ],
        report: "table public.accounts 1\n1|a|n\nposition 0/220\nend 0 Clean\n",
        ..PLAIN
    },
    // S(700,1) 700:R 700:I(1,a,n) 711:I(2,b,n) 700:I(3,c,n) E A(700,712) c(700,0/200,0/220)
    Case {
        name: "the rollback of an unknown subtransaction",
        opening: TWO_INSERTS,
        payloads: &[
            "49000002bc000040014e000374000000013374000000016374000000016e",
            "45",
            "41000002bc000002c800000000000000000000000000000000",
            "63000002bc00000000000000020000000000000002200000000000000000",
        ],
        report: "table public.accounts 3\n1|a|n\n2|b|n\n3|c|n\nposition 0/220\nend 0 Clean\n",
        ..PLAIN
    },
    // S(700,1) 700:R 700:I(1,a,n) 711:I(2,b,n) E A(700,711) S(700,0) 711:I(4,d,n) E c(700,0/200,0/220)
    Case {
        name: "a subtransaction named again after its rollback",
        opening: TWO_INSERTS,
        payloads: &[
            "45",
            "41000002bc000002c700000000000000000000000000000000",
            "53000002bc00",
            "49000002c7000040014e000374000000013474000000016474000000016e",
            "45",
            "63000002bc00000000000000020000000000000002200000000000000000",
        ],
        report: "table public.accounts 2\n1|a|n\n4|d|n\nposition 0/220\nend 0 Clean\n",
        ..PLAIN
    },
    // P S(700,1) 711:U(1,a,v) E A(700,711) B(900,0/200) U(1,a,w) C(0/200,0/220) S(700,0) 700:I(3,c,n) E c(700,0/300,0/320)
    Case {
        name: "a row let go by a rollback",
        opening: ROWS,
        payloads: &[
            "53000002bc01",
            "55000002c7000040014e0003740000000131740000000161740000000176",
            "45",
            "41000002bc000002c700000000000000000000000000000000",
            "420000000000000200000000000000000000000384",
            "55000040014e0003740000000131740000000161740000000177",
            "4300000000000000020000000000000002200000000000000000",
            "53000002bc00",
            "49000002bc000040014e000374000000013374000000016374000000016e",
            "45",
            "63000002bc00000000000000030000000000000003200000000000000000",
        ],
        report: "table public.accounts 3\n1|a|w\n2|b|n\n3|c|n\nposition 0/320\nend 0 Clean\n",
        ..PLAIN
    },
    // P S(700,1) 700:U(7,g,v) E B(900,0/200) I(7,g,n) C(0/200,0/220)
    Case {
        name: "two open transactions at one key",
        opening: ROWS,
        payloads: &[
            "53000002bc01",
            "55000002bc000040014e0003740000000137740000000167740000000176",
            "45",
            "420000000000000200000000000000000000000384",
            "49000040014e000374000000013774000000016774000000016e",
            "4300000000000000020000000000000002200000000000000000",
        ],
        without_workers: true,
        report: "table public.accounts 3\n1|a|n\n2|b|n\n7|g|n\nposition 0/220\nend 0 Clean\n",
        ..PLAIN
    },
    // P S(700,1) 700:D(1) E S(701,1) 701:I(3,a,n) E c(700,0/200,0/220) c(701,0/300,0/320)
    Case {
        name: "commits in the order of their messages",
        opening: MOVED_EMAIL,
        payloads: &[
            "63000002bc00000000000000020000000000000002200000000000000000",
            "63000002bd00000000000000030000000000000003200000000000000000",
        ],
        without_workers: true,
        report: "table public.accounts 2\n2|b|n\n3|a|n\nposition 0/320\nend 0 Clean\n",
        ..PLAIN
    },
    // P S(700,1) 700:D(1) E S(701,1) 701:I(3,a,n) E c(701,0/200,0/220) c(700,0/300,0/320)
    Case {
        name: "a conflict by the order of commits",
        opening: MOVED_EMAIL,
        payloads: &[
            "63000002bd00000000000000020000000000000002200000000000000000",
            "63000002bc00000000000000030000000000000003200000000000000000",
        ],
        without_workers: true,
        report: "table public.accounts 2\n1|a|n\n2|b|n\nposition 0/140\nend 5 Unique public.accounts 1\n",
        status: 3,
        ..PLAIN
    },
    // P S(700,1) 711:T 711:I(5,a,n) E A(700,711) c(700,0/200,0/220) B(600,0/300) I(6,a,n) C(0/300,0/320)
    Case {
        name: "an index entry that comes back",
        opening: ROWS,
        payloads: &[
            "53000002bc01",
            "54000002c7000000010000004001",
            "49000002c7000040014e000374000000013574000000016174000000016e",
            "45",
            "41000002bc000002c700000000000000000000000000000000",
            "63000002bc00000000000000020000000000000002200000000000000000",
            "420000000000000300000000000000000000000258",
            "49000040014e000374000000013674000000016174000000016e",
            "4300000000000000030000000000000003200000000000000000",
        ],
        report: "table public.accounts 2\n1|a|n\n2|b|n\nposition 0/220\nend 5 Unique public.accounts 1\n",
        status: 3,
        ..PLAIN
    },
    // P S(700,1) 711:I(3,b,n) E A(700,711) c(700,0/200,0/220)
    Case {
        name: "a conflict that was rolled back",
        opening: ROWS,
        payloads: &[
            "53000002bc01",
            "49000002c7000040014e000374000000013374000000016274000000016e",
            "45",
            "41000002bc000002c700000000000000000000000000000000",
            "63000002bc00000000000000020000000000000002200000000000000000",
        ],
        without_workers: true,
        report: "table public.accounts 2\n1|a|n\n2|b|n\nposition 0/220\nend 0 Clean\n",
        ..PLAIN
    },
    // P S(700,1) 700:I(3,b,n) E
    Case {
        name: "a conflict of a transaction that is still open at the end",
        opening: ROWS,
        payloads: &[
            "53000002bc01",
            "49000002bc000040014e000374000000013374000000016274000000016e",
            "45",
        ],
        without_workers: true,
        report: "table public.accounts 2\n1|a|n\n2|b|n\nposition 0/140\nend 0 Clean\n",
        ..PLAIN
    },
    // S(700,1) 700:R 700:I(1,a,n) 711:I(2,b,n) E A(700,711) S(700,0) 700:I(3,c,n) E c(700,0/200,0/220)
    Case {
        name: "a spool just large enough",
        opening: TWO_INSERTS,
        payloads: ROLLED_BACK_AND_GONE_ON,
        spool: 129,
        report: "table public.accounts 2\n1|a|n\n3|c|n\nposition 0/220\nend 0 Clean\n",
        ..PLAIN
    },
    // S(700,1) 700:R 700:I(1,a,n) 711:I(2,b,n) E A(700,711) S(700,0) 700:I(3,c,n) E c(700,0/200,0/220)
    Case {
        name: "a spool that is full",
        opening: TWO_INSERTS,
        payloads: ROLLED_BACK_AND_GONE_ON,
        spool: 128,
        without_workers: true,
        report: "table public.accounts 0\nposition 0/0\nend 3 Session SpoolFull\n",
        status: 2,
        ..PLAIN
    },
    // S(700,1) 711:R 711:I(1,a,n) E A(700,711) S(700,0) 700:I(2,b,n) E c(700,0/200,0/220)
    Case {
        name: "a relation that first names a subtransaction, which is rolled back",
        payloads: &[
            "53000002bc01",
            "52000002c7000040017075626c6963006163636f756e7473006400030169640000000017ffffffff00656d61696c0000000019ffffffff006e6f74650000000019ffffffff",
            "49000002c7000040014e000374000000013174000000016174000000016e",
            "45",
            "41000002bc000002c700000000000000000000000000000000",
            "53000002bc00",
            "49000002bc000040014e000374000000013274000000016274000000016e",
            "45",
            "63000002bc00000000000000020000000000000002200000000000000000",
        ],
        report: "table public.accounts 1\n2|b|n\nposition 0/220\nend 0 Clean\n",
        ..PLAIN
    },
    // S(700,1) E A(700,712) S(700,0) 700:R 700:I(1,a,n) E c(700,0/200,0/220)
    Case {
        name: "an empty block, and the rollback of a subtransaction that was never named",
        payloads: &[
            "53000002bc01",
            "45",
            "41000002bc000002c800000000000000000000000000000000",
            "53000002bc00",
            "52000002bc000040017075626c6963006163636f756e7473006400030169640000000017ffffffff00656d61696c0000000019ffffffff006e6f74650000000019ffffffff",
            "49000002bc000040014e000374000000013174000000016174000000016e",
            "45",
            "63000002bc00000000000000020000000000000002200000000000000000",
        ],
        report: "table public.accounts 1\n1|a|n\nposition 0/220\nend 0 Clean\n",
        ..PLAIN
    },
];

/// Where a transaction is to be skipped.
static SKIPPED: [Case; 7] = [
    // B(600,0/200) R I(1,a,n) C(0/200,0/220) B(601,0/300) I(2,b,n) C(0/300,0/320)
    Case {
        name: "the first transaction is skipped",
        skip: 0x200,
        payloads: &[
            "420000000000000200000000000000000000000258",
            ACCOUNTS,
            "49000040014e000374000000013174000000016174000000016e",
            "4300000000000000020000000000000002200000000000000000",
            "420000000000000300000000000000000000000259",
            "49000040014e000374000000013274000000016274000000016e",
            "4300000000000000030000000000000003200000000000000000",
        ],
        report: "table public.accounts 1\n2|b|n\nposition 0/320\nend 0 Clean\n",
        ..PLAIN
    },
    // P B(600,0/200) I(5,b,n) C(0/200,0/220)
    Case {
        name: "a later match is not skipped",
        skip: 0x200,
        opening: ROWS,
        payloads: &[
            "420000000000000200000000000000000000000258",
            "49000040014e000374000000013574000000016274000000016e",
            "4300000000000000020000000000000002200000000000000000",
        ],
        report: "table public.accounts 2\n1|a|n\n2|b|n\nposition 0/140\nend 5 Unique public.accounts 1\n",
        status: 3,
        ..PLAIN
    },
    // P B(600,0/200) I(5,c,n) C(0/200,0/220)
    Case {
        name: "the first that commits ends a skip that names another",
        skip: 0x110,
        opening: ROWS,
        payloads: &[
            "420000000000000200000000000000000000000258",
            "49000040014e000374000000013574000000016374000000016e",
            "4300000000000000020000000000000002200000000000000000",
        ],
        report: "table public.accounts 3\n1|a|n\n2|b|n\n5|c|n\nposition 0/220\nend 0 Clean\n",
        ..PLAIN
    },
    // P B(600,0/200) I(5,b,n) C(0/200,0/220)
    Case {
        name: "the transaction that clashes is skipped",
        skip: 0x100,
        opening: ROWS,
        payloads: &[
            "420000000000000200000000000000000000000258",
            "49000040014e000374000000013574000000016274000000016e",
            "4300000000000000020000000000000002200000000000000000",
        ],
        report: "table public.accounts 1\n5|b|n\nposition 0/220\nend 0 Clean\n",
        ..PLAIN
    },
    // S(700,1) 700:R 700:I(1,a,n) 700:I(1,b,n) E c(700,0/200,0/220)
    Case {
        name: "a streamed transaction that clashes is skipped",
        skip: 0x200,
        payloads: &[
            "53000002bc01",
            "52000002bc000040017075626c6963006163636f756e7473006400030169640000000017ffffffff00656d61696c0000000019ffffffff006e6f74650000000019ffffffff",
            "49000002bc000040014e000374000000013174000000016174000000016e",
            "49000002bc000040014e000374000000013174000000016274000000016e",
            "45",
            "63000002bc00000000000000020000000000000002200000000000000000",
        ],
        report: "table public.accounts 0\nposition 0/220\nend 0 Clean\n",
        ..PLAIN
    },
    // S(700,1) 700:R 700:I(1,a,n) E A(700,700) B(600,0/200) I(2,b,n) C(0/200,0/220)
    Case {
        name: "a rollback doesn't end a skip",
        skip: 0x200,
        payloads: &[
            "53000002bc01",
            "52000002bc000040017075626c6963006163636f756e7473006400030169640000000017ffffffff00656d61696c0000000019ffffffff006e6f74650000000019ffffffff",
            "49000002bc000040014e000374000000013174000000016174000000016e",
            "45",
            "41000002bc000002bc00000000000000000000000000000000",
            "420000000000000200000000000000000000000258",
            "49000040014e000374000000013274000000016274000000016e",
            "4300000000000000020000000000000002200000000000000000",
        ],
        report: "table public.accounts 0\nposition 0/220\nend 0 Clean\n",
        ..PLAIN
    },
    // B(600,0/200) I(1,a,n) C(0/200,0/220)
    Case {
        name: "a skipped transaction's relation is unknown",
        skip: 0x200,
        payloads: &[
            "420000000000000200000000000000000000000258",
            "49000040014e000374000000013174000000016174000000016e",
            "4300000000000000020000000000000002200000000000000000",
        ],
        report: "table public.accounts 0\nposition 0/220\nend 0 Clean\n",
        ..PLAIN
    },
];

/// The stream of a case.
fn stream_of(alloc: Global, case: &Case) -> Result<Vec<u8>, Fail> {
    let mut stream = Vec::new(alloc);
    push_frames(&mut stream, alloc, case.opening)?;
    push_frames(&mut stream, alloc, case.payloads)?;
    Ok(stream)
}

/// A case ends in its report, by any number of workers.
fn assert_report<R: Threads + Wait + RandomSource + Sync>(
    rt: &R,
    alloc: Global,
    case: &Case,
) -> Result<(), Fail> {
    let stream = stream_of(alloc, case)?;
    for workers in 0..if case.without_workers { 1 } else { 4 } {
        let config = Config {
            workers,
            spool: case.spool,
            skip: case.skip,
            ..CONFIG
        };
        let (ended, out, _) = printed(rt, alloc, stream.as_slice(), usize::MAX, &config);
        assert_same(out.as_slice(), case.report.as_bytes(), case.name)?;
        assert_same(ended.status, case.status, case.name)?;
        assert_same(ended.line, "", case.name)?;
    }
    Ok(())
}

#[test]
fn streams_end_in_their_reports(rt: HostRuntime) -> Result<(), Fail> {
    for case in &CASES {
        assert_report(&rt, rt.alloc(), case)?;
    }
    Ok(())
}

#[test]
fn streams_of_which_a_transaction_is_to_be_skipped(rt: HostRuntime) -> Result<(), Fail> {
    for case in &SKIPPED {
        assert_report(&rt, rt.alloc(), case)?;
    }
    Ok(())
}
