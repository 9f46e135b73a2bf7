//! The overlay beside whole copies, over a script.
use crate::play::{copies_over, overlay_over, play, state};
use crate::script::SCRIPT;
use crate::shown::{left, shown};
use account_context::{Copies, Scope};
use account_overlay::Overlay;
use std::alloc::{AllocError, Global};
use std::process::Abort;

// The letter of a word, and the number that its digit is.
fn parts_of(word: &[u8]) -> Option<(u8, u8)> {
    match word {
        [letter, digit, ..] if *digit >= b'0' => Some((*letter, *digit - b'0')),
        _ => None,
    }
}

// The totals of the overlay are the footprints that the copies show.
fn has_totals(overlay: &Overlay<'_>, copies: &Copies<'_>, id: u32) -> bool {
    match (overlay.totals(id), copies.view(id)) {
        (Some(totals), Some(view)) => totals == view.footprint,
        (None, None) => true,
        _ => false,
    }
}

// Both show the same, and totals.
fn are_alike(
    alloc: Global,
    copies: &Copies<'_>,
    overlay: &Overlay<'_>,
    ids: &[u32],
) -> Result<bool, AllocError> {
    for id in ids {
        if !has_totals(overlay, copies, *id) {
            return Ok(false);
        }
    }
    let wanted = shown(alloc, copies, ids)?;
    let got = shown(alloc, overlay, ids)?;
    Ok(got.as_slice() == wanted.as_slice())
}

// A word of the script over both, with the number that an added account has among the others.
fn play_both(
    alloc: Global,
    copies: &mut Copies<'_>,
    overlay: &mut Overlay<'_>,
    word: &[u8],
    ids: &mut Vec<u32>,
) -> Result<(), AllocError> {
    let Some((letter, number)) = parts_of(word) else {
        return Err(AllocError);
    };
    let next = copies.free_id();
    play(alloc, copies, letter, number, ids)?;
    play(alloc, overlay, letter, number, ids)?;
    if letter == b'a' {
        ids.push(next.unwrap_or(0))?;
    }
    Ok(())
}

fn leave_the_same(
    alloc: Global,
    copies: Copies<'_>,
    overlay: Overlay<'_>,
) -> Result<bool, AllocError> {
    let wanted = left(alloc, &copies.into_delta()?)?;
    let got = left(alloc, &overlay.into_delta()?)?;
    Ok(got.as_slice() == wanted.as_slice())
}

#[test]
fn both_show_the_same_after_each_step(rt: HostRuntime) -> Result<(), AllocError> {
    let alloc = rt.alloc();
    let base = state(alloc)?;
    let mut copies = copies_over(alloc, &base)?;
    let mut overlay = overlay_over(alloc, &base)?;
    let mut ids = Vec::from_slice(alloc, &[1, 2, 3, 4])?;
    for line in SCRIPT {
        for word in line.as_bytes().chunks(3) {
            play_both(alloc, &mut copies, &mut overlay, word, &mut ids)?;
            let alike = are_alike(alloc, &copies, &overlay, &ids)?;
            assert!(rt; alike, "after {word:?}");
        }
    }
    let same = leave_the_same(alloc, copies, overlay)?;
    assert!(rt; same, "what is left");
    Ok(())
}

// A step over the overlay. Where no memory is found, all must be as before, and then the step is made again.
fn step(
    rt: &impl Abort,
    alloc: Global,
    overlay: &mut Overlay<'_>,
    word: &[u8],
) -> Result<(), AllocError> {
    let ids = [1, 2, 3, 4];
    let Some((letter, number)) = parts_of(word) else {
        return Err(AllocError);
    };
    let before = shown(alloc, overlay, &ids)?;
    if play(alloc, overlay, letter, number, &ids).is_err() {
        let after = shown(alloc, overlay, &ids)?;
        assert!(rt;
            after.as_slice() == before.as_slice(),
            "a step without memory"
        );
        play(alloc, overlay, letter, number, &ids)?;
    }
    Ok(())
}

// tests/failing-changes runs it with each allocation failing in turn.
#[test]
fn a_step_without_memory_leaves_all_as_before(rt: HostRuntime) -> Result<(), AllocError> {
    let base = state(rt.alloc())?;
    let mut overlay = overlay_over(rt.alloc(), &base)?;
    for line in SCRIPT {
        for word in line.as_bytes().chunks(3) {
            step(&rt, rt.alloc(), &mut overlay, word)?;
        }
    }
    Ok(())
}
