// The rows behind each of many drawn commits, against those that the test keeps as it goes forward: with
// nothing open, and while a transaction has emptied the table.
use super::scene::{NAMES, Scene};
use crate::tests::asserts::assert_same;
use crate::tests::tables::calls::Call::{self, Put, Remove, Set, Wipe};
use crate::tests::tables::calls::{Word, rows_text};
use engine::{Acted, EngineFault};
use model::{OutOfMemory, Xid};
use std::alloc::Global;
use std::fmt::Write;
use std::process::Abort;
use std::test::Fail;

const IDS: [Word; 6] = ["a", "b", "c", "d", "e", "f"];

const TEXTS: [Word; 4] = ["t", "u", "v", "w"];

/// For each id the number of its row's text, or none where it has no row.
type Kept = [Option<usize>; 6];

const COMMITS: u32 = 200;

/// The next drawn number.
fn draw(seed: &mut u64) -> usize {
    *seed = seed
        .wrapping_mul(0x5851_F42D_4C95_7F2D)
        .wrapping_add(0x1405_7B7E_F767_814F);
    (*seed >> 33) as usize
}

/// A drawn change of the names, which is made in what is kept too: a truncate, a new row, one that moves,
/// one that goes, or another text.
fn drawn(seed: &mut u64, kept: &mut Kept) -> Call {
    let at = draw(seed) % 6;
    let to = draw(seed) % 6;
    let text = draw(seed) % 4;
    if draw(seed) % 16 == 0 {
        *kept = [None; 6];
        return Wipe(&[NAMES]);
    }
    match (kept[at], kept[to]) {
        (None, _) => {
            kept[at] = Some(text);
            Put(NAMES, (IDS[at], TEXTS[text], "n"))
        }
        (Some(_), None) => {
            kept[at] = None;
            kept[to] = Some(text);
            Set(NAMES, IDS[at], (IDS[to], TEXTS[text], "-"))
        }
        (Some(_), Some(_)) if text == 0 => {
            kept[at] = None;
            Remove(NAMES, IDS[at])
        }
        (Some(_), Some(_)) => {
            kept[at] = Some(text);
            Set(NAMES, IDS[at], ("-", TEXTS[text], "-"))
        }
    }
}

/// The rows that are kept, as `rows_text` has them.
fn kept_text(alloc: Global, kept: &Kept) -> Result<String, OutOfMemory> {
    let mut out = String::new(alloc);
    let mut between = "";
    for at in 0..6 {
        if let Some(text) = kept[at] {
            write!(out, "{between}{}|{}|n", IDS[at], TEXTS[text % 4])?;
            between = " ";
        }
    }
    Ok(out)
}

/// Commits a transaction of three drawn changes.
fn commit_drawn(
    rt: &impl Abort,
    alloc: Global,
    scene: &mut Scene,
    xid: Xid,
    seed: &mut u64,
    kept: &mut Kept,
) -> Result<(), EngineFault> {
    scene.open(alloc, xid)?;
    for _ in 0..3 {
        let call = drawn(seed, kept);
        let acted = scene.act(rt, alloc, xid, xid, &call)?;
        assert_same(rt, acted, Acted::Done, "a drawn change");
    }
    scene.commit(rt, xid);
    Ok(())
}

/// Behind each of the first commits the rows are these.
fn has_each(
    rt: &impl Abort,
    alloc: Global,
    scene: &Scene,
    history: &[String],
) -> Result<(), EngineFault> {
    for (entries, wanted) in history.iter().enumerate() {
        let rows = scene.rows_after(rt, alloc, NAMES, entries)?;
        let text = rows_text(alloc, rows.as_slice())?;
        assert_same(rt, text.as_str(), wanted.as_str(), "rows");
    }
    Ok(())
}

/// Commits drawn transactions. It answers the rows before the first and behind each.
fn commit_all(rt: &impl Abort, alloc: Global, scene: &mut Scene) -> Result<Vec<String>, Fail> {
    let mut seed = 2;
    let mut kept: Kept = [None; 6];
    let mut history = Vec::new(alloc);
    history.push(kept_text(alloc, &kept)?)?;
    for commit in 0..COMMITS {
        commit_drawn(rt, alloc, scene, commit + 1, &mut seed, &mut kept)?;
        history.push(kept_text(alloc, &kept)?)?;
    }
    Ok(history)
}

/// A transaction empties the table, and puts a row.
fn empty_table(rt: &impl Abort, alloc: Global, scene: &mut Scene) -> Result<(), EngineFault> {
    scene.open(alloc, 900)?;
    for call in [Wipe(&[NAMES]), Put(NAMES, ("c", "x", "n"))] {
        let acted = scene.act(rt, alloc, 900, 900, &call)?;
        assert_same(rt, acted, Acted::Done, &call);
    }
    Ok(())
}

/// The same while a transaction has emptied the table.
fn has_each_beside(
    rt: &impl Abort,
    alloc: Global,
    scene: &mut Scene,
    history: &[String],
) -> Result<(), EngineFault> {
    has_each(rt, alloc, scene, history)?;
    empty_table(rt, alloc, scene)?;
    has_each(rt, alloc, scene, history)?;
    // Until then it was alone, and held nothing.
    scene.open(alloc, 901)?;
    has_each(rt, alloc, scene, history)
}

#[test]
fn each_position_has_the_rows_of_a_fold_forward(rt: HostRuntime) -> Result<(), Fail> {
    let mut scene = Scene::empty(&rt, rt.alloc())?;
    let history = commit_all(&rt, rt.alloc(), &mut scene)?;
    has_each_beside(&rt, rt.alloc(), &mut scene, history.as_slice())?;
    Ok(())
}
