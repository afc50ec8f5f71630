// A run without threads.
ghost use Rattle.std.specs.Prelude.{◌≡◌, ◌≢◌, ℕ, true, false, List, [], map, Err, OnOk};
ghost use Rattle.model.specs.Rows.{Rows, keys_of};
ghost use Rattle.frames.specs.declared.item.CopyItem.{CopyItem as Item};
ghost use Rattle.frames.specs.Reads.{HasRead};
ghost use Rattle.session.specs.State.{Setting};
ghost use Rattle.run.specs.Settings.{setting_of};
ghost use Rattle.run.specs.Progress.{start_progress};
ghost use Rattle.run.specs.Handler.{IsUnderWay, HasCome, AnswersItem, HandlesKept, IsRunOver, end_of_result};
ghost use Rattle.run.specs.Devices.{DeviceState, device_state, health};
ghost use Rattle.run.specs.Run.{IsRun};

use crate::applier::Applier;
use crate::end::End;
use crate::handler::Handler;
use crate::outcome::{Clock, Config, Outcome};
use catalog::Catalog;
use frames::{CopyItem, FrameFault, Frames, Sink, Source, Status, send_status};
use indexes::Tables;
use std::alloc::Global;
use std::marker::Model;

/// What a run reads from, writes to, and takes its times from.
///
/// A clause sees what the devices tell: the bytes still to be read and those sent, the times given,
/// how often reader and writer failed, and whether the last call on them did.
#[derive(Debug, Drop)]
pub struct Devices<R: Source, W: Sink, C: Clock> {
    reader: R,
    writer: W,
    clock: C,
}

impl<R: Source, W: Sink, C: Clock> Model for Devices<R, W, C> {
    ghost use Rattle.run.specs.Devices.{DeviceState, device_state, health};

    ghost Value = { DeviceState };

    ghost view = { λ d. device_state (R.remaining d.reader) (W.contents d.writer) (C.told d.clock) (R.reads_left d.reader)
        (health (R.failures d.reader) (R.failed_last d.reader)) (health (W.failures d.writer) (W.failed_last d.writer)) };
}

impl<R: Source, W: Sink, C: Clock> Devices<R, W, C> {
    /// These devices.
    pub fn new(reader: R, writer: W, clock: C) -> Devices<R, W, C>
        ensures { result ≡ device_state (R.remaining reader) (W.contents writer) (C.told clock) (R.reads_left reader)
            (health (R.failures reader) (R.failed_last reader)) (health (W.failures writer) (W.failed_last writer)) }
    {
        Devices {
            reader,
            writer,
            clock,
        }
    }
}

/// Reads the stream to its end and applies its transactions one after another, a streamed one at its
/// commit. Open work is undone before the answer.
///
/// The start tables must be those of the catalog. It is `run_spooled_on` with devices of its own, which are
/// gone when it returns: so no clause of this one says what was sent, or that a device failed.
pub fn run_spooled<R: Source + Drop, W: Sink + Drop, C: Clock + Drop>(
    alloc: Global,
    reader: R,
    writer: W,
    catalog: &Catalog,
    start: Tables,
    config: &Config,
    clock: C,
) -> Outcome
    requires { start.schema ≡ map keys_of catalog.now }
    ensures { (after : DeviceState) × IsRun (setting_of 0 config.now catalog.now) start.rows
        (device_state (R.remaining reader) (W.contents writer) (C.told clock) (R.reads_left reader)
        (health (R.failures reader) (R.failed_last reader)) (health (W.failures writer) (W.failed_last writer)))
        after result }
{
    let mut devices = Devices::new(reader, writer, clock);
    run_spooled_on(alloc, &mut devices, catalog, start, config)
}

/// `run_spooled` over devices that are looked at afterwards: what was read and sent.
pub fn run_spooled_on<R: Source, W: Sink, C: Clock>(
    alloc: Global,
    devices: &mut Devices<R, W, C>,
    catalog: &Catalog,
    start: Tables,
    config: &Config,
) -> Outcome
    requires { start.schema ≡ map keys_of catalog.now }
    ensures { IsRun (setting_of 0 config.now catalog.now) start.rows devices.old devices.new result }
{
    let mut applier = match Applier::new(alloc, catalog, start, config) {
        Ok(applier) => applier,
        Err(start) => return Outcome::unread(alloc, start),
    };
    let end = match read_all(alloc, devices, &mut applier) {
        Ok(()) => End::Clean,
        Err(end) => end,
    };
    applier.leave(end)
}

/// Handles the items of a stream until it ends or an item ends the run. A failed read is the last.
pub fn read_all<R: Source, W: Sink, C: Clock, H: Handler>(
    alloc: Global,
    devices: &mut Devices<R, W, C>,
    handler: &mut H,
) -> Result<(), End>
    requires { IsUnderWay H.at handler.old }
    ensures { (g : Setting) (rows : Rows) → H.at g rows handler.old start_progress
        → IsRunOver g (H.at g rows) (H.ended g rows) devices.old devices.new handler.new (end_of_result result) }
{
    let mut frames = Frames::new(alloc);
    'pulls: loop {
        let pulled = frames.pull(&mut devices.reader);
        if is_failed_read(&pulled) {
            return Err(End::Frame(FrameFault::Device));
        }
        handle_kept(alloc, &mut frames, devices, handler)?;
        if !pulled? {
            frames.finish()?;
            return Ok(());
        }
    }
}

/// The reader failed.
fn is_failed_read(pulled: &Result<bool, FrameFault>) -> bool
    ensures failed { result ≡ true → pulled.now ≡ Err FrameFault.Device }
    ensures other { result ≡ false → pulled.now ≢ Err FrameFault.Device }
{
    match pulled {
        Err(FrameFault::Device) => true,
        _ => false,
    }
}

/// Handles the items that were read and are kept.
fn handle_kept<R: Source, W: Sink, C: Clock, H: Handler>(
    alloc: Global,
    frames: &mut Frames,
    devices: &mut Devices<R, W, C>,
    handler: &mut H,
) -> Result<(), End>
    requires { IsUnderWay H.at handler.old }
    ensures under_way { OnOk result (IsUnderWay H.at handler.new) }
    ensures none { OnOk result (frames.new.items ≡ []) }
    ensures ending { frames.new.ending ≡ frames.old.ending }
    ensures reader { devices.new.reader ≡ devices.old.reader }
    ensures unread { devices.new.unread ≡ devices.old.unread }
    ensures left { devices.new.reads_left ≡ devices.old.reads_left }
    ensures kept { (g : Setting) (rows : Rows) (old : DeviceState) (bytes : List ℕ) (handled : List Item)
        → HasCome g (H.at g rows) (H.ended g rows) old devices.old handler.old handled → HasRead bytes handled frames.old
        → HandlesKept g (H.at g rows) (H.ended g rows) old devices.new handler.new bytes frames.new result }
{
    while let Some(item) = frames.next() {
        answer(alloc, item, devices, handler)?;
    }
    Ok(())
}

/// Handles an item, and sends a status update if one is due.
fn answer<R: Source, W: Sink, C: Clock, H: Handler>(
    alloc: Global,
    item: CopyItem,
    devices: &mut Devices<R, W, C>,
    handler: &mut H,
) -> Result<(), End>
    requires { IsUnderWay H.at handler.old }
    ensures under_way { OnOk result (IsUnderWay H.at handler.new) }
    ensures reader { devices.new.reader ≡ devices.old.reader }
    ensures unread { devices.new.unread ≡ devices.old.unread }
    ensures left { devices.new.reads_left ≡ devices.old.reads_left }
    ensures answer { (g : Setting) (rows : Rows) (old : DeviceState) (handled : List Item)
        → HasCome g (H.at g rows) (H.ended g rows) old devices.old handler.old handled
        → AnswersItem g (H.at g rows) (H.ended g rows) old devices.new handler.new handled item result }
{
    if handler.handle(item)? {
        let status = Status {
            written: handler.written(),
            flushed: handler.position(),
            applied: handler.position(),
            clock: devices.clock.micros(),
        };
        send_status(alloc, &status, &mut devices.writer)?;
    }
    Ok(())
}
