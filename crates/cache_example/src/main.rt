// A program that keeps a cache exact: accounts, which a publisher changes and this program looks up.
//
//     cache_example < FILE          the stream's bytes on standard input
//     cache_example HOST:PORT       from whoever listens there: `publisher serve`, for one
//
// It is what a program of your own would be. `leader` has all that a caller of a run needs: the catalog,
// the tables, keys and values, sources, sinks and the clock, those who hold a worker or watch the run. A
// run applies the stream's commits and answers with the tables; `accounts` asks these. Meanwhile a `Desk`
// is asked, which reads what is committed so far.
//
// What is promised. `keep` answers with the rows that the commits of the stream leave, applied one after
// another, or says why there is no clean end (`IsKeptFrom` in `specs/Accounts.antt`, by the contract of
// `run`). Each look-up answers with what stands in these rows, and with none only where there is none. So no
// answer is of a transaction that was rolled back, or that has not come whole. The desk answers with what a
// reader's contract says, committed rows alone; that its reader is one of this run `run_on` would say, and
// `run` doesn't. Which bytes come over a socket is said by no clause.
//
//   accounts   the cache, asked by number and by email
//   desk       whoever asks while the stream comes
//   shown      rows as they are printed
#![tactic(auto)]

mod accounts;
mod desk;
mod shown;

ghost use Rattle.std.specs.Prelude.{◌≡◌, ◌∷◌, [], None, IfOk, min};
ghost use Rattle.snapshot.specs.Reads.{Sight};
ghost use Rattle.run.specs.Devices.{device_state, health};
ghost use Rattle.cache_example.specs.Accounts.{IsKeptFrom};

use accounts::Accounts;
use anyhow::bail;
use desk::Desk;
use leader::{
    Catalog, Config, End, OpenGate, OutOfMemory, ReadSource, Sink, Source, StillClock, Tables,
    Watch, WriteSink, run,
};
use shown::line_of;
use std::alloc::Global;
use std::sync::Wait;
use std::thread::Threads;
use tcp::Connection;

/// A catalog of one table: accounts, with a unique key over their email.
const CATALOG: &str = r#"
[[table]]
namespace = "public"
name = "accounts"
primary = ["id"]
unique = [["email"]]
column = [{name="id", type="int"}, {name="email", type="text"}, {name="note", type="text"}]
"#;

const CONFIG: Config = Config {
    workers: 1,
    ring: 64,
    spool: 1 << 30,
    skip: 0,
};

fn main(rt: HostRuntime) -> anyhow::Result<()> {
    let alloc = rt.alloc();
    let words: Vec<String> = std::env::args(&rt)?.collect(alloc)?;
    let catalog = Catalog::read(alloc, CATALOG)?;
    let desk = Desk::new(&rt, alloc, 3);
    let tables = match words.get(1) {
        Some(address) => {
            let connection = Connection::open(&rt, address.as_str())?;
            let (source, sink) = (connection.source(), connection.sink());
            keep(&rt, alloc, &catalog, &CONFIG, source, sink, desk)?
        }
        None => {
            let source = ReadSource::new(rt.reader());
            let sink = WriteSink::new(Vec::new(alloc));
            keep(&rt, alloc, &catalog, &CONFIG, source, sink, desk)?
        }
    };
    match Accounts::new(tables) {
        Some(accounts) => show(&rt, alloc, &accounts),
        None => bail!("the catalog has no accounts with a unique email"),
    }
}

/// The tables that the commits of a stream leave; or why it did not end well, with what to do about it.
/// A streamed transaction is applied while it comes, and the desk is asked meanwhile.
fn keep<T: Threads + Wait + Sync, R: Source + Drop, W: Sink + Drop, D: Watch + Drop + Send>(
    rt: &T,
    alloc: Global,
    catalog: &Catalog,
    config: &Config,
    reader: R,
    writer: W,
    desk: D,
) -> Result<Tables, End>
    requires { (s : Sight) → D.knows desk s }
    ensures { IfOk result (λ tables. IsKeptFrom (min config.now.workers 1) 1 catalog.now config.now
        (device_state (R.remaining reader) (W.contents writer) None (R.reads_left reader)
        (health (R.failures reader) (R.failed_last reader)) (health (W.failures writer) (W.failed_last writer)))
        tables.rows) }
{
    let start = Tables::empty(alloc, catalog)?;
    let gates = only(alloc, OpenGate)?;
    let desks = only(alloc, desk)?;
    let clock = StillClock(0);
    let outcome = run(
        rt, alloc, reader, writer, catalog, start, config, gates, desks, clock,
    );
    match outcome.end {
        End::Clean => Ok(outcome.tables),
        end => Err(end),
    }
}

/// A list of one.
fn only<T: Drop>(alloc: Global, item: T) -> Result<Vec<T>, OutOfMemory>
    ensures { IfOk result (λ items. items.items ≡ item ∷ []) }
{
    let mut items = Vec::new(alloc);
    items.push(item)?;
    Ok(items)
}

/// Looks an account up by its number and by its email, and then walks all of them.
fn show(rt: &impl Print, alloc: Global, accounts: &Accounts) -> anyhow::Result<()> {
    let row = accounts.by_number(alloc, 2).map_err(End::from)?;
    println!(rt; "account 2: {}", line_of(alloc, row)?)?;
    let row = accounts.by_email(alloc, "a").map_err(End::from)?;
    println!(rt; "account with email a: {}", line_of(alloc, row)?)?;
    for row in accounts.walk() {
        println!(rt; "{}", line_of(alloc, Some(row))?)?;
    }
    Ok(())
}
