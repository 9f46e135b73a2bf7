//! A state, and a script's steps over any scope.
use account_context::{Copies, Scope, Transfer, footprint_with_history, footprint_with_value};
use account_overlay::Overlay;
use jam_accounts::{Account, Accounts, Lookups, Preimages, State, Storage, fits};
use preimage_store::History;
use std::alloc::{AllocError, Global};

/// A text whose first bytes are the values.
const TEXT: &[u8] = b"to be kept under a key, and to be dropped, and to be kept again";

/// The key of a number.
pub(crate) fn key_of(number: u8) -> &'static [u8] {
    match number & 3 {
        0 => b"",
        1 => b"k",
        2 => b"key",
        _ => b"another key",
    }
}

/// The hash of a number: those of the two preimages that the accounts have, and two that none has.
pub(crate) fn hash_of(number: u8) -> [u8; 32] {
    match number & 3 {
        0 => blake2b_core::digest(b"one"),
        1 => blake2b_core::digest(b"two"),
        other => [other; 32],
    }
}

fn value_of(number: u8) -> &'static [u8] {
    let length = usize::from(number) * 6;
    if length <= TEXT.len() {
        &TEXT[..length]
    } else {
        TEXT
    }
}

fn put(alloc: Global, storage: &mut Storage, number: u8) -> Result<(), AllocError> {
    let key = Vec::from_slice(alloc, key_of(number))?;
    let value = Vec::from_slice(alloc, value_of(number))?;
    storage.put(key, value)
}

// An account with so many values, two preimages and a history of each.
pub(crate) fn account_of(alloc: Global, number: u8) -> Result<Account, AllocError> {
    let mut storage = Storage::new(alloc);
    let mut preimages = Preimages::new(alloc);
    let mut lookups = Lookups::new(alloc);
    for k in 0..number & 3 {
        put(alloc, &mut storage, k)?;
    }
    preimages.put(Vec::from_slice(alloc, b"one")?)?;
    preimages.put(Vec::from_slice(alloc, b"two")?)?;
    for k in 0..2u8 {
        if let Some(history) = History::of(&[u32::from(number)]) {
            lookups.put(&hash_of(k), 3, history)?;
        }
    }
    if !fits(&storage, &lookups) {
        return Err(AllocError);
    }
    Ok(Account {
        code_hash: [number; 32],
        balance: 1000 * u64::from(number),
        min_accumulate: 10,
        min_transfer: 20,
        gratis: u64::from(number),
        created: 7,
        storage,
        preimages,
        lookups,
    })
}

/// The service that is run.
pub(crate) const SERVICE: u32 = 1;

/// A state of four accounts.
pub(crate) fn state(alloc: Global) -> Result<State, AllocError> {
    let mut accounts = Accounts::new(alloc);
    for id in 1..5u8 {
        accounts.put(u32::from(id), account_of(alloc, id)?)?;
    }
    Ok(State::new(9, [3; 32], accounts))
}

/// An overlay over a state that has the service.
pub(crate) fn overlay_over<'a>(alloc: Global, base: &'a State) -> Result<Overlay<'a>, AllocError> {
    if base.accounts.get(SERVICE).is_none() {
        return Err(AllocError);
    }
    Overlay::new(alloc, base, SERVICE, &[4; 32], 9)
}

/// Whole copies of the same.
pub(crate) fn copies_over<'a>(alloc: Global, base: &'a State) -> Result<Copies<'a>, AllocError> {
    if base.accounts.get(SERVICE).is_none() {
        return Err(AllocError);
    }
    Copies::new(alloc, base, SERVICE, &[4; 32], 9)
}

fn put_value<S: Scope>(scope: &mut S, number: u8) -> Result<(), AllocError> {
    let key = key_of(number);
    let value = value_of(number);
    match footprint_with_value(scope, key, value) {
        Some(_) => scope.put_value(key, value),
        None => Ok(()),
    }
}

fn put_history<S: Scope>(scope: &mut S, number: u8, history: History) -> Result<(), AllocError> {
    let hash = hash_of(number);
    match footprint_with_history(scope, &hash, 3, Some(history)) {
        Some(_) => scope.set_history(&hash, 3, Some(history)),
        None => Ok(()),
    }
}

fn drop_history<S: Scope>(scope: &mut S, number: u8) -> Result<(), AllocError> {
    let hash = hash_of(number);
    match footprint_with_history(scope, &hash, 3, None) {
        Some(_) => scope.set_history(&hash, 3, None),
        None => Ok(()),
    }
}

fn add<S: Scope>(alloc: Global, scope: &mut S, number: u8) -> Result<(), AllocError> {
    let account = account_of(alloc, number)?;
    match scope.free_id() {
        Some(id) => scope.add_account(id, account),
        None => Ok(()),
    }
}

fn remove<S: Scope>(scope: &mut S, id: u32) -> Result<(), AllocError> {
    if id != scope.service() && scope.view(id).is_some() {
        scope.remove_account(id)
    } else {
        Ok(())
    }
}

fn transfer(number: u8) -> Transfer {
    Transfer {
        source: SERVICE,
        target: u32::from(number),
        amount: 100 + u64::from(number),
        gas: 50,
        memo: [number; 128],
    }
}

// A step on the service's own account.
fn play_own<S: Scope>(scope: &mut S, letter: u8, number: u8) -> Result<(), AllocError> {
    match letter {
        b'p' => put_value(scope, number),
        b'd' => scope.drop_value(key_of(number)),
        b'h' => match History::of(&[u32::from(number), 90]) {
            Some(history) => put_history(scope, number, history),
            None => Ok(()),
        },
        b'x' => drop_history(scope, number),
        b'i' => scope.drop_preimage(&hash_of(number)),
        b'b' => scope.set_balance(u64::from(number)),
        _ => scope.set_code(&[number; 32], u64::from(number), 8),
    }
}

/// A step of the script. What it removes is one of these accounts.
pub(crate) fn play<S: Scope>(
    alloc: Global,
    scope: &mut S,
    letter: u8,
    number: u8,
    ids: &[u32],
) -> Result<(), AllocError> {
    match letter {
        b'a' => add(alloc, scope, number),
        b'r' => match ids.get(usize::from(number)) {
            Some(id) => remove(scope, *id),
            None => Ok(()),
        },
        b't' => scope.push_transfer(transfer(number)),
        b'y' => scope.set_yield([number; 32]),
        b'q' => scope.push_provided(u32::from(number), value_of(number)),
        b'k' => scope.checkpoint(),
        b'z' => {
            scope.restore();
            Ok(())
        }
        _ => play_own(scope, letter, number),
    }
}
