// Measures the reading of frames, and the ring between two threads.
//
//     bench                          runs each of these at a small size
//     bench frames COUNT PIECE       feeds COUNT frames of 100 bytes, in pieces of PIECE bytes
//     bench pull COUNT PIECE         the same from a source that gives PIECE bytes a read
//     bench ring COUNT SLOTS         COUNT numbers through `ring`, whose taker looks again and again
//     bench wait COUNT SLOTS         the same, and its taker sleeps where nothing is left
//     bench rtrb COUNT SLOTS         the same numbers through the kit's `rtrb`
//
// What is read comes in laps of ten thousand, so COUNT is rounded down to whole laps. SLOTS are 1 to 1024,
// and taken as that where they aren't; a sender that finds a ring full yields and tries again. It prints
// counts alone, which are the same at every run; time is taken from outside.
#![tactic(auto)]

mod counts;
mod rings;
mod stream;

use anyhow::bail;
use counts::Counts;
use rings::Kind;
use std::alloc::Global;
use std::env;
use std::sync::Wait;
use std::thread::Threads;

/// What is measured, and how much of it.
#[derive(Clone, Copy)]
enum Job {
    Frames {
        laps: u64,
        piece: usize,
    },
    Pull {
        laps: u64,
        piece: usize,
    },
    Ring {
        kind: Kind,
        count: u64,
        slots: usize,
    },
}

/// How many frames a lap has.
const LAP: usize = 10000;

const SMALL: [Job; 4] = [
    Job::Frames {
        laps: 1,
        piece: 65536,
    },
    Job::Frames {
        laps: 1,
        piece: 1024,
    },
    Job::Pull {
        laps: 1,
        piece: 65536,
    },
    Job::Pull {
        laps: 1,
        piece: 1024,
    },
];

fn main(rt: HostRuntime) -> anyhow::Result<()> {
    let words: Vec<String> = env::args(&rt)?.collect(rt.alloc())?;
    if words.len() < 2 {
        return run_small(&rt, rt.alloc());
    }
    match job_of(&words) {
        Some(job) => run(&rt, rt.alloc(), job),
        None => { bail!("usage: bench [frames|pull COUNT PIECE | ring|wait|rtrb COUNT SLOTS]") }
    }
}

/// Runs each job at a small size.
fn run_small<R: Print + Threads + Wait + Sync>(rt: &R, alloc: Global) -> anyhow::Result<()> {
    for job in &SMALL {
        run(rt, alloc, *job)?;
    }
    for kind in [Kind::Ring, Kind::Wait, Kind::Rtrb] {
        run_ring(rt, alloc, kind, 1000, 64)?;
    }
    Ok(())
}

/// What the words ask for.
fn job_of(words: &[String]) -> Option<Job> {
    let name = words.get(1)?.as_str();
    let count = number_at(words, 2)?;
    let laps = count / LAP as u64;
    match name {
        "frames" => Some(Job::Frames {
            laps,
            piece: number_at(words, 3)? as usize,
        }),
        "pull" => Some(Job::Pull {
            laps,
            piece: number_at(words, 3)? as usize,
        }),
        _ => Some(Job::Ring {
            kind: kind_of(name)?,
            count,
            slots: number_at(words, 3)? as usize,
        }),
    }
}

fn kind_of(name: &str) -> Option<Kind> {
    match name {
        "ring" => Some(Kind::Ring),
        "wait" => Some(Kind::Wait),
        "rtrb" => Some(Kind::Rtrb),
        _ => None,
    }
}

fn name_of(kind: Kind) -> &'static str {
    match kind {
        Kind::Ring => "ring",
        Kind::Wait => "wait",
        Kind::Rtrb => "rtrb",
    }
}

fn number_at(words: &[String], place: usize) -> Option<u64> {
    words.get(place)?.parse().ok()
}

fn run<R: Print + Threads + Wait + Sync>(rt: &R, alloc: Global, job: Job) -> anyhow::Result<()> {
    let (name, counts) = match job {
        Job::Frames { laps, piece } => ("frames", stream::feed(alloc, laps, piece)?),
        Job::Pull { laps, piece } => ("pull", stream::pull(alloc, laps, piece)?),
        Job::Ring { kind, count, slots } => return run_ring(rt, alloc, kind, count, slots),
    };
    let Counts { items, bytes } = counts;
    println!(rt; "{name}: {items} items, {bytes} bytes")?;
    Ok(())
}

fn run_ring<R: Print + Threads + Wait + Sync>(
    rt: &R,
    alloc: Global,
    kind: Kind,
    count: u64,
    slots: usize,
) -> anyhow::Result<()> {
    let taken = rings::send(rt, alloc, kind, count, slots.clamp(1, 1024))?;
    println!(rt; "{}: {taken} items", name_of(kind))?;
    Ok(())
}
