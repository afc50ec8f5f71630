// What each command runs on what it opened.
ghost use Rattle.std.specs.Prelude.{◌≡◌, ◌≢◌, map, length, IfOk, IfErr};
ghost use Rattle.std.specs.FinMap as finite;
ghost use Rattle.catalog.specs.declared.fault.CatalogFault.TheVariants as faults;
ghost use Rattle.model.specs.Rows.{keys_of};
ghost use Rattle.run.specs.Devices.{DeviceState, device_state, health};
ghost use Rattle.pgapply_command.specs.Ending.{Says, IsCatalog, IsFault, Executes, Tells, workers_of, end_status, fault_status, fault_line};

use catalog::{Catalog, CatalogFault};
use frames::{Sink, Source};
use indexes::{Seed, Tables};
use leader::{
    Clock, Config, Devices, End, NoWatch, OutOfMemory, Outcome, open_gates, report, run_on,
    run_spooled_on,
};
use std::alloc::Global;
use std::mem::ManuallyDrop;
use std::random::RandomSource;
use std::sync::Wait;
use std::thread::Threads;

/// How a command ended.
#[derive(Clone, Copy, Debug, PartialEq, Eq)]
pub struct Ended {
    /// The exit status.
    pub status: u8,
    /// The line for standard error, empty for none.
    pub line: &'static str,
}

const OUT_OF_MEMORY: Ended = Ended {
    status: 4,
    line: "pgapply: out of memory",
};

/// Reads the catalog, runs the stream from empty tables and appends the report to `out`. It is
/// `execute_on` with devices of its own, which are gone when it returns: so no clause of this one says what
/// was sent, or that a device failed.
///
/// Streamed transactions are applied while they come, by as many workers as `config` says; where
/// `spooled` asks for it, each at its commit.
pub fn execute<H, R, W, C>(
    rt: &H,
    alloc: Global,
    spooled: bool,
    config: &Config,
    catalog: &[u8],
    reader: R,
    writer: W,
    clock: C,
    out: &mut Vec<u8>,
) -> Ended
where
    H: Threads + Wait + RandomSource + Sync,
    R: Source + Drop,
    W: Sink + Drop,
    C: Clock + Drop,
    ensures { (left : DeviceState) × Executes (λ fault. Unit {0}) (λ definitions outcome. Unit {0}) (workers_of spooled config.now) catalog.now config.now
        (device_state (R.remaining reader) (W.contents writer) (C.told clock) (R.reads_left reader)
        (health (R.failures reader) (R.failed_last reader)) (health (W.failures writer) (W.failed_last writer)))
        left out.old.items out.new.items result }
{
    let mut devices = Devices::new(reader, writer, clock);
    execute_on(
        rt,
        alloc,
        spooled,
        config,
        catalog,
        &mut devices,
        &mut Nobody,
        out,
    )
}

/// Hears why a command ended, while it is known. It is shown what there is, and can change nothing of it.
pub trait Hearer {
    ghost use Rattle.std.specs.Prelude.{List};
    ghost use Rattle.catalog.specs.Definition.{Definition};
    ghost use Rattle.catalog.specs.declared.fault.CatalogFault.{CatalogFault as AnyFault};
    ghost use Rattle.run.specs.declared.outcome.Outcome.{Outcome as AnyOutcome};

    /// What it is once it has heard that a catalog was refused.
    ghost has_heard_fault: { AnyFault → Self → Type 0 };

    /// What it is once it has heard of a run's end.
    ghost has_heard_end: { List Definition → AnyOutcome → Self → Type 0 };

    /// The catalog was refused.
    fn hear_refusal(&mut self, fault: CatalogFault)
        ensures { ∥ has_heard_fault fault self.new ∥₁ };

    /// The run has ended, and its report comes next.
    fn hear_end(&mut self, catalog: &Catalog, outcome: &Outcome)
        ensures { ∥ has_heard_end catalog.now outcome.now self.new ∥₁ };
}

/// Nobody hears.
#[derive(Debug, Drop)]
pub struct Nobody;

impl Hearer for Nobody {
    ghost has_heard_fault = { λ _ _. Unit {0} };

    ghost has_heard_end = { λ _ _ _. Unit {0} };

    fn hear_refusal(&mut self, _fault: CatalogFault) {}

    fn hear_end(&mut self, _catalog: &Catalog, _outcome: &Outcome) {}
}

/// `execute` over devices that are looked at afterwards: what was read and sent. Somebody may hear why it
/// ends: of a fault of the catalog, or of what the run left.
pub fn execute_on<H, R, W, C, L>(
    rt: &H,
    alloc: Global,
    spooled: bool,
    config: &Config,
    catalog: &[u8],
    devices: &mut Devices<R, W, C>,
    hearer: &mut L,
    out: &mut Vec<u8>,
) -> Ended
where
    H: Threads + Wait + RandomSource + Sync,
    R: Source,
    W: Sink,
    C: Clock,
    L: Hearer,
    ensures { Executes (λ fault. ∥ L.has_heard_fault fault hearer.new ∥₁) (λ definitions outcome. ∥ L.has_heard_end definitions outcome hearer.new ∥₁)
        (workers_of spooled config.now) catalog.now config.now devices.old devices.new out.old.items out.new.items result }
{
    let catalog = match read_catalog(alloc, catalog) {
        Ok(catalog) => catalog,
        Err(fault) => {
            hearer.hear_refusal(fault);
            return refused(fault);
        }
    };
    let Ok(start) = empty_tables(rt, alloc, &catalog) else {
        return OUT_OF_MEMORY;
    };
    let Ok(gates) = open_gates(alloc, config.workers) else {
        return OUT_OF_MEMORY;
    };
    let mut outcome = if spooled {
        run_spooled_on(alloc, devices, &catalog, start, config)
    } else {
        let watchers = Vec::<NoWatch>::new(alloc);
        let (outcome, _watchers) = run_on(
            rt, alloc, devices, &catalog, start, config, gates, watchers,
        );
        outcome
    };
    hearer.hear_end(&catalog, &outcome);
    // The report tells nothing of the journal: its memory goes before the report's text grows.
    outcome.journal = Vec::new(alloc);
    let ended = tell(alloc, &outcome, &catalog, out);
    // The process ends with its report: the memory goes back as a whole, not row by row.
    let _outcome = ManuallyDrop::new(outcome);
    ended
}

/// The tables of a catalog, all empty. A publisher's users choose the values, so nobody is to foretell the
/// hashes; where the system has no random numbers they are the fixed ones.
pub fn empty_tables(
    rt: &impl RandomSource,
    alloc: Global,
    catalog: &Catalog,
) -> Result<Tables, OutOfMemory>
    ensures schema { IfOk result (λ tables. tables.schema ≡ map keys_of catalog.now) }
    ensures rows { IfOk result (λ tables. tables.rows ≡ finite.empty) }
{
    let seed = match Seed::random(rt) {
        Ok(seed) => seed,
        Err(_) => Seed::fixed(),
    };
    Tables::with_seed(alloc, catalog.tables(), seed)
}

/// Appends the report of what a run left.
fn tell(alloc: Global, outcome: &Outcome, catalog: &Catalog, out: &mut Vec<u8>) -> Ended
    requires { outcome.now.tables.schema ≡ map keys_of catalog.now }
    ensures { Tells catalog.now outcome.now out.old.items out.new.items result }
{
    match report(alloc, outcome, catalog, out) {
        Ok(()) => Ended {
            status: status_of(outcome.end),
            line: "",
        },
        Err(_) => OUT_OF_MEMORY,
    }
}

fn read_catalog(alloc: Global, bytes: &[u8]) -> Result<Catalog, CatalogFault>
    ensures catalog { IfOk result (IsCatalog bytes.now) }
    ensures fault { IfErr result (λ e. e ≢ faults.OutOfMemory → IsFault bytes.now e) }
{
    match std::str::from_utf8(bytes) {
        Ok(text) => Catalog::read(alloc, text),
        Err(_) => Err(CatalogFault::NotToml),
    }
}

fn refused(fault: CatalogFault) -> Ended
    ensures { Says result (fault_status fault) (fault_line fault) }
{
    let line = match fault {
        CatalogFault::NotToml => "pgapply: catalog NotToml",
        CatalogFault::UnknownField => "pgapply: catalog UnknownField",
        CatalogFault::DuplicateTable => "pgapply: catalog DuplicateTable",
        CatalogFault::DuplicateColumn => "pgapply: catalog DuplicateColumn",
        CatalogFault::NoPrimaryKey => "pgapply: catalog NoPrimaryKey",
        CatalogFault::KeyColumnUnknown => "pgapply: catalog KeyColumnUnknown",
        CatalogFault::BadDefault => "pgapply: catalog BadDefault",
        CatalogFault::OverLimit => "pgapply: catalog OverLimit",
        CatalogFault::OutOfMemory => return OUT_OF_MEMORY,
    };
    Ended { status: 1, line }
}

fn status_of(end: End) -> u8
    ensures { result ≡ end_status end }
{
    match end {
        End::Clean => 0,
        End::Frame(_) | End::Msg(_) | End::Session(_) | End::Rel(_) => 2,
        End::Unique { .. } | End::NullKey { .. } | End::HeldKey { .. } => 3,
        End::OutOfMemory => 4,
    }
}
