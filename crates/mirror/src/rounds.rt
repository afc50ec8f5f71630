// One run after another, each from what the last one left.
use crate::input;
use crate::input::Refused;
use crate::lines::{LentLines, Lines};
use crate::publishing::Copies;
use crate::target::{FileTarget, Start, Target, name_of, no_memory};
use frames::FrameFault;
use leader::{Config, End, Lsn, OutOfMemory, Outcome};
use mirror_command::events::{Event, say};
use mirror_command::options::Options;
use mirror_devices::{LentSink, Pace, Paced};
use mirror_run::{FileKeep, Keep, Keeping, LineKeep, Progress, Setting, Stop, run_round_on};
use mirror_source::Cut;
use pgapply_command::options::Input;
use pgapply_command::system::SystemClock;
use std::random::RandomSource;
use std::sync::Wait;
use std::thread;
use std::thread::Threads;
use std::time::Duration;

/// The most seconds between two tries.
const LONGEST: u64 = 60;

/// How a stream ended, and whether that was all.
#[derive(Clone, Copy)]
struct Ended {
    end: End,
    cut: Cut,
    stop: Option<Stop>,
    /// The end of the last commit that was kept.
    position: Lsn,
}

/// What comes behind a stream that ended.
#[derive(Clone, Copy)]
enum Next {
    /// Nothing: this is the exit status.
    Over(u8),
    /// The same once more, without workers: they may have met work that its publisher takes back.
    Alone,
    /// Another try; whether something was kept since the last.
    Again(bool),
}

/// How an epoch's run ended.
#[derive(Clone, Copy)]
struct Left {
    end: End,
    position: Lsn,
    stop: Option<Stop>,
}

/// Follows a stream until it ends for good. It answers the exit status.
pub fn follow<'a, T: Threads + Wait + RandomSource + Sync>(
    rt: &HostRuntime,
    threads: &T,
    options: &Options<'_>,
    target: &mut Target<'a>,
    start: Start<'a>,
) -> u8 {
    let mut copies = Copies::new(rt, options.into.unwrap_or(""), options.publishing);
    let mut config = options.config;
    let mut pause = 1;
    let mut start = start;
    for _ in threads.forever() {
        let (next, left) = match follow_once(
            rt,
            threads,
            options,
            config,
            target,
            start,
            &mut copies,
        ) {
            Ok(followed) => followed,
            Err(status) => return status,
        };
        start = left;
        match next {
            Next::Over(status) => return status,
            Next::Alone => {
                say(rt, Event::Alone);
                config.workers = 0;
            }
            Next::Again(true) => {
                config = options.config;
                pause = rest(rt, 1);
            }
            Next::Again(false) => pause = rest(rt, pause),
        }
    }
    unreachable!()
}

/// Opens the stream, and follows it to its end: what comes then, and where that begins; or the exit
/// status, where what it began with is gone.
fn follow_once<'a, T: Threads + Wait + Sync>(
    rt: &HostRuntime,
    threads: &T,
    options: &Options<'_>,
    config: Config,
    target: &mut Target<'a>,
    start: Start<'a>,
    copies: &mut Copies<'_>,
) -> Result<(Next, Start<'a>), u8> {
    let position = start.position;
    say(rt, Event::Opened(name_of(options), position));
    let mut opened = match open_stream(rt, options, target, position) {
        Ok(opened) => opened,
        Err(next) => return Ok((next, start)),
    };
    let (ended, left) = follow_into(
        rt,
        threads,
        config,
        options,
        target,
        start,
        &mut opened,
        copies,
    )?;
    say_end(rt, &ended);
    copies.publish(ended.position);
    Ok((next_of(options, &config, &ended, position), left))
}

/// Opens the stream behind a position; or what comes in place of that.
fn open_stream(
    rt: &HostRuntime,
    options: &Options<'_>,
    target: &mut Target<'_>,
    position: Lsn,
) -> Result<input::Opened, Next> {
    let mut opened = match input::open(rt, options.input, position, options.limits) {
        Ok(opened) => opened,
        Err(Refused::NotThere) if is_over(options) => return Err(Next::Over(1)),
        Err(Refused::NotThere) => return Err(Next::Again(false)),
        Err(Refused::Over(status)) => return Err(Next::Over(status)),
    };
    match opened.epochs.system() {
        Ok(None) => Ok(opened),
        Ok(Some(found)) => match target.check_system(rt, name_of(options), found) {
            Ok(()) => Ok(opened),
            Err(status) => Err(Next::Over(status)),
        },
        Err(_) => {
            say(rt, Event::NotRead(input::name_of(options.input)));
            Err(if is_over(options) {
                Next::Over(2)
            } else {
                Next::Again(false)
            })
        }
    }
}

/// Follows a stream to its end, into the file, as lines, or both; or the exit status, where memory
/// was refused.
fn follow_into<'a, T: Threads + Wait + Sync>(
    rt: &HostRuntime,
    threads: &T,
    config: Config,
    options: &Options<'_>,
    target: &mut Target<'a>,
    start: Start<'a>,
    opened: &mut input::Opened,
    copies: &mut Copies<'_>,
) -> Result<(Ended, Start<'a>), u8> {
    let batch = options.batch;
    match &mut target.lines {
        None => match &mut target.file {
            None => Err(1),
            Some(file) => into_file(rt, threads, config, batch, start, opened, file, copies),
        },
        Some(lines) => match &mut target.file {
            None => follow_epochs(rt, threads, config, batch, start, opened, lines, copies),
            Some(file) => into_both(
                rt, threads, config, batch, start, opened, lines, file, copies,
            ),
        },
    }
}

/// Follows a stream into the file alone.
fn into_file<'a, T: Threads + Wait + Sync>(
    rt: &HostRuntime,
    threads: &T,
    config: Config,
    batch: usize,
    start: Start<'a>,
    opened: &mut input::Opened,
    target: &mut FileTarget,
    copies: &mut Copies<'_>,
) -> Result<(Ended, Start<'a>), u8> {
    let FileTarget { file, statements } = target;
    let mut keep = FileKeep::new(rt.alloc(), file.connection(), statements);
    follow_epochs(rt, threads, config, batch, start, opened, &mut keep, copies)
}

/// Follows a stream as lines, and then into the file.
fn into_both<'a, T: Threads + Wait + Sync>(
    rt: &HostRuntime,
    threads: &T,
    config: Config,
    batch: usize,
    start: Start<'a>,
    opened: &mut input::Opened,
    lines: &mut LineKeep<'_, Lines>,
    target: &mut FileTarget,
    copies: &mut Copies<'_>,
) -> Result<(Ended, Start<'a>), u8> {
    let FileTarget { file, statements } = target;
    let kept_file = FileKeep::new(rt.alloc(), file.connection(), statements);
    let kept_lines = LentLines { keep: lines };
    let mut keep = Keeping::new(Some(kept_lines), Some(kept_file));
    follow_epochs(rt, threads, config, batch, start, opened, &mut keep, copies)
}

/// Follows the epochs of a stream to its end; or the exit status, where memory was refused.
fn follow_epochs<'a, T: Threads + Wait + Sync, K: Keep + Send>(
    rt: &HostRuntime,
    threads: &T,
    config: Config,
    batch: usize,
    start: Start<'a>,
    opened: &mut input::Opened,
    keep: &mut K,
    copies: &mut Copies<'_>,
) -> Result<(Ended, Start<'a>), u8> {
    let mut start = start;
    for _ in threads.forever() {
        let followed = follow_epoch(rt, threads, config, batch, start, opened, keep, copies);
        let Ok((left, next)) = followed else {
            return Err(no_memory(rt));
        };
        let Left {
            end,
            position,
            stop,
        } = left;
        let cut = opened.epochs.cut();
        if end != End::Clean || stop.is_some() || cut != Cut::AtLimit {
            let ended = Ended {
                end,
                cut,
                stop,
                position,
            };
            return Ok((ended, next));
        }
        if opened.epochs.begin_next().is_err() {
            return Err(no_memory(rt));
        }
        start = next;
    }
    unreachable!()
}

/// Follows an epoch of a stream: one run. It answers where the next begins too.
fn follow_epoch<'a, T: Threads + Wait + Sync, K: Keep + Send>(
    rt: &HostRuntime,
    threads: &T,
    config: Config,
    batch: usize,
    start: Start<'a>,
    opened: &mut input::Opened,
    keep: &mut K,
    copies: &mut Copies<'_>,
) -> Result<(Left, Start<'a>), OutOfMemory> {
    let Start {
        catalog,
        tables,
        position,
    } = start;
    let setting = Setting {
        config,
        position,
        batch,
    };
    let pace = Pace::new();
    let (outcome, progress) = run_round_on(
        threads,
        rt,
        rt.alloc(),
        catalog,
        tables,
        &setting,
        Paced::new(&mut opened.epochs, &pace),
        LentSink::new(&mut opened.updates),
        SystemClock::new(rt),
        &pace,
        keep,
        copies,
    )?;
    let Outcome { end, tables, .. } = outcome;
    let Progress { position, stop } = progress;
    let left = Left {
        end,
        position,
        stop,
    };
    let next = Start {
        catalog,
        tables,
        position,
    };
    Ok((left, next))
}

/// What comes behind a stream that ended so.
fn next_of(options: &Options<'_>, config: &Config, ended: &Ended, before: Lsn) -> Next {
    if ended.stop.is_some() || ended.cut == Cut::Full {
        return Next::Over(1);
    }
    match ended.end {
        End::Unique { .. } | End::NullKey { .. } | End::HeldKey { .. }
            if config.workers > 0 && comes_again(options) => { Next::Alone }
        End::Clean
        | End::Frame(FrameFault::Device | FrameFault::Truncated | FrameFault::ServerError)
            if !is_over(options) => { Next::Again(ended.position > before) }
        end => Next::Over(status_of(end)),
    }
}

/// Whether a stream can be had once more from where it was followed to.
fn comes_again(options: &Options<'_>) -> bool {
    match options.input {
        Input::File(_) => true,
        Input::Stdin => false,
        Input::Connection(_) => !options.once,
    }
}

/// Whether the first end of a stream is the last.
fn is_over(options: &Options<'_>) -> bool {
    options.once || !matches!(options.input, Input::Connection(_))
}

fn say_end(rt: &HostRuntime, ended: &Ended) {
    let position = ended.position;
    say(rt, Event::Ended(ended.end, position));
    if ended.cut == Cut::Full {
        say(rt, Event::Full);
    }
    if let Some(stop) = ended.stop {
        say(rt, Event::Stopped(stop, position));
    }
}

/// The exit status of a run that was the last.
fn status_of(end: End) -> u8 {
    match end {
        End::Clean => 0,
        End::Frame(_) | End::Msg(_) | End::Session(_) | End::Rel(_) => 2,
        End::Unique { .. } | End::NullKey { .. } | End::HeldKey { .. } => 3,
        End::OutOfMemory => 4,
    }
}

/// Waits so many seconds. It answers how many are to be waited next.
fn rest(rt: &HostRuntime, seconds: u64) -> u64 {
    say(rt, Event::Waits(seconds));
    thread::sleep(rt, Duration::from_secs(seconds));
    seconds.saturating_mul(2).min(LONGEST)
}
