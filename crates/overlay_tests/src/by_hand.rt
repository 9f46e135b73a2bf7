//! Totals, a restore to a checkpoint, and many writes.
use crate::play::{SERVICE, copies_over, overlay_over, play, state};
use crate::shown::shown;
use account_context::{Scope, footprint_with_value};
use account_overlay::Overlay;
use jam_accounts::{Account, Accounts, State};
use std::alloc::{AllocError, Global};
use std::process::Abort;

// A service that keeps nothing.
fn empty(alloc: Global) -> Result<State, AllocError> {
    let mut accounts = Accounts::new(alloc);
    accounts.put(SERVICE, Account::blank(alloc))?;
    Ok(State::new(1, [0; 32], accounts))
}

fn put<S: Scope>(scope: &mut S, key: &[u8], value: &[u8]) -> Result<(), AllocError> {
    match footprint_with_value(scope, key, value) {
        Some(_) => scope.put_value(key, value),
        None => Err(AllocError),
    }
}

fn drop_value<S: Scope>(scope: &mut S, key: &[u8]) -> Result<(), AllocError> {
    scope.drop_value(key)
}

fn save(overlay: &mut Overlay<'_>) {
    overlay.checkpoint();
}

fn back(overlay: &mut Overlay<'_>) {
    overlay.rollback();
}

// The service takes up so much.
fn takes_up(rt: &impl Abort, overlay: &Overlay<'_>, items: u128, octets: u128) {
    match overlay.totals(SERVICE) {
        Some(totals) => assert!(rt; totals.items() == items && totals.octets() == octets),
        None => assert!(rt; false, "there is no account"),
    }
}

// 34 octets, and those of the key and of the value.
#[test]
fn totals_follow_each_write(rt: HostRuntime) -> Result<(), AllocError> {
    let base = empty(rt.alloc())?;
    let mut overlay = overlay_over(rt.alloc(), &base)?;
    takes_up(&rt, &overlay, 0, 0);
    put(&mut overlay, b"k", &[1])?;
    takes_up(&rt, &overlay, 1, 36);
    save(&mut overlay);
    put(&mut overlay, b"k", &[1, 2, 3, 4, 5])?;
    takes_up(&rt, &overlay, 1, 40);
    drop_value(&mut overlay, b"k")?;
    takes_up(&rt, &overlay, 0, 0);
    back(&mut overlay);
    takes_up(&rt, &overlay, 1, 36);
    Ok(())
}

// Whether changes after a checkpoint and a restore leave what a scope shows.
fn is_restored<S: Scope>(alloc: Global, scope: &mut S) -> Result<bool, AllocError> {
    let ids = [1, 2, 3, 4];
    play(alloc, scope, b'p', 3, &ids)?;
    play(alloc, scope, b'k', 0, &ids)?;
    let saved = shown(alloc, scope, &ids)?;
    for (letter, number) in [(b'a', 2), (b'r', 2), (b'b', 5), (b't', 1), (b'y', 6)] {
        play(alloc, scope, letter, number, &ids)?;
    }
    let changed = shown(alloc, scope, &ids)?;
    play(alloc, scope, b'z', 0, &ids)?;
    let now = shown(alloc, scope, &ids)?;
    Ok(now.as_slice() == saved.as_slice() && now.as_slice() != changed.as_slice())
}

#[test]
fn both_are_restored_to_the_checkpoint(rt: HostRuntime) -> Result<(), AllocError> {
    let base = state(rt.alloc())?;
    let mut copies = copies_over(rt.alloc(), &base)?;
    let mut overlay = overlay_over(rt.alloc(), &base)?;
    let first = is_restored(rt.alloc(), &mut copies)?;
    let second = is_restored(rt.alloc(), &mut overlay)?;
    assert!(rt; first && second);
    Ok(())
}

// So many writes, each under a key of its own and with a checkpoint after it.
fn written(rt: &impl Abort, alloc: Global, count: u32) -> Result<(), AllocError> {
    let base = empty(alloc)?;
    let mut overlay = overlay_over(alloc, &base)?;
    for k in 0..count {
        put(&mut overlay, &k.to_le_bytes(), &[1, 2, 3, 4])?;
        save(&mut overlay);
    }
    takes_up(rt, &overlay, u128::from(count), 42 * u128::from(count));
    Ok(())
}

// bench/checkpoints times these two.
#[test]
fn a_few_writes(rt: HostRuntime) -> Result<(), AllocError> {
    written(&rt, rt.alloc(), 20_000)
}

#[test]
fn many_writes(rt: HostRuntime) -> Result<(), AllocError> {
    written(&rt, rt.alloc(), 200_000)
}
