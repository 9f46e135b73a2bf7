//! States, from texts.
use crate::words::{hash_of, number, small, word};
use jam_accounts::{Account, Accounts, State, fits};
use preimage_store::History;
use std::alloc::{AllocError, Global};
use std::process::Abort;

// An account with the code hash of ones, the least gas 7 and 8, made at slot 9.
fn first_account(alloc: Global) -> Account {
    let mut account = Account::blank(alloc);
    account.code_hash = [1; 32];
    account.min_accumulate = 7;
    account.min_transfer = 8;
    account.created = 9;
    account
}

// Keeps a value where an account may.
fn keep(alloc: Global, account: &mut Account, key: &str, value: &str) -> Result<(), AllocError> {
    let mut storage = account.storage.copy()?;
    storage.put(
        Vec::from_slice(alloc, key.as_bytes())?,
        Vec::from_slice(alloc, value.as_bytes())?,
    )?;
    if !fits(&storage, &account.lookups) {
        return Err(AllocError);
    }
    account.storage = storage;
    Ok(())
}

/// The history of the slots from a place of a line on.
pub fn history_in(
    rt: &impl Abort,
    alloc: Global,
    line: &str,
    place: usize,
) -> Result<History, AllocError> {
    let mut slots = Vec::new(alloc);
    for at in place..8 {
        if !word(line, at).is_empty() {
            slots.push(small(rt, line, at))?;
        }
    }
    match History::of(&slots) {
        Some(history) => Ok(history),
        None => panic!(rt; "too many slots: {line}"),
    }
}

// Keeps a history where an account may.
fn ask(
    account: &mut Account,
    hash: &[u8; 32],
    length: u32,
    history: History,
) -> Result<(), AllocError> {
    let mut lookups = account.lookups.copy()?;
    lookups.put(hash, length, history)?;
    if !fits(&account.storage, &lookups) {
        return Err(AllocError);
    }
    account.lookups = lookups;
    Ok(())
}

// Lays out what a line says of an account.
fn lay(
    rt: &impl Abort,
    alloc: Global,
    account: &mut Account,
    line: &str,
) -> Result<(), AllocError> {
    match word(line, 1) {
        "balance" => account.balance = number(rt, line, 2),
        "gratis" => account.gratis = number(rt, line, 2),
        "code" => account.code_hash = hash_of(word(line, 2)),
        "value" => keep(alloc, account, word(line, 2), word(line, 3))?,
        "preimage" => {
            account.put_preimage(Vec::from_slice(alloc, word(line, 2).as_bytes())?)?;
        }
        "history" => {
            let history = history_in(rt, alloc, line, 4)?;
            ask(
                account,
                &hash_of(word(line, 2)),
                small(rt, line, 3),
                history,
            )?;
        }
        _ => panic!(rt; "not laid out: {line}"),
    }
    Ok(())
}

/// The state that a text lays out. Its parts, with commas between them, begin with the number of a service, and go
/// on with one of `balance N`, `gratis N`, `code HASH`, `value KEY BYTES`, `preimage BYTES` and `history HASH
/// LENGTH SLOT..`.
pub fn state_of(rt: &impl Abort, alloc: Global, text: &str) -> Result<State, AllocError> {
    let mut accounts = Accounts::new(alloc);
    for line in text.split(',') {
        let id = small(rt, line, 0);
        let mut account = match accounts.remove(id) {
            Some(account) => account,
            None => first_account(alloc),
        };
        lay(rt, alloc, &mut account, line)?;
        accounts.put(id, account)?;
    }
    Ok(State::new(7, [0; 32], accounts))
}
