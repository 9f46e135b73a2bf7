//! The changes of a scope, by name, through the bound.
use crate::starts::history_in;
use crate::words::{hash_of, number, small, word};
use account_context::{Scope, Transfer, footprint_with_history, footprint_with_value};
use jam_accounts::Account;
use preimage_store::History;
use std::alloc::{AllocError, Global};
use std::process::Abort;

// Keeps a value where it may.
fn put<S: Scope>(scope: &mut S, key: &[u8], value: &[u8]) -> Result<(), AllocError> {
    if footprint_with_value(scope, key, value).is_none() {
        return Err(AllocError);
    }
    scope.put_value(key, value)
}

// Keeps a history where it may.
fn keep_history<S: Scope>(
    scope: &mut S,
    hash: &[u8; 32],
    length: u32,
    history: History,
) -> Result<(), AllocError> {
    if footprint_with_history(scope, hash, length, Some(history)).is_none() {
        return Err(AllocError);
    }
    scope.set_history(hash, length, Some(history))
}

// Drops a history, where there is one.
fn drop_history<S: Scope>(scope: &mut S, hash: &[u8; 32], length: u32) -> Result<(), AllocError> {
    if footprint_with_history(scope, hash, length, None).is_none() {
        return Err(AllocError);
    }
    scope.set_history(hash, length, None)
}

// Adds an account that has a balance alone.
fn add<S: Scope>(alloc: Global, scope: &mut S, balance: u64) -> Result<(), AllocError> {
    let Some(id) = scope.free_id() else {
        return Err(AllocError);
    };
    let mut account = Account::blank(alloc);
    account.balance = balance;
    scope.add_account(id, account)
}

// Removes the account of another service, where it is there.
fn remove<S: Scope>(scope: &mut S, id: u32) -> Result<(), AllocError> {
    if scope.view(id).is_none() || id == scope.service() {
        return Err(AllocError);
    }
    scope.remove_account(id)
}

// Adds a transfer to service 2.
fn push_transfer<S: Scope>(scope: &mut S, amount: u64) -> Result<(), AllocError> {
    scope.push_transfer(Transfer {
        source: 1,
        target: 2,
        amount,
        gas: 20,
        memo: [9; 128],
    })
}

/// Makes the change that a line names. Want of memory is also the answer where its condition is not met.
pub fn change<S: Scope>(
    rt: &impl Abort,
    alloc: Global,
    scope: &mut S,
    line: &str,
) -> Result<(), AllocError> {
    let first = word(line, 1);
    match word(line, 0) {
        "put_value" => put(scope, first.as_bytes(), word(line, 2).as_bytes()),
        "drop_value" => scope.drop_value(first.as_bytes()),
        "set_history" => {
            let history = history_in(rt, alloc, line, 3)?;
            keep_history(scope, &hash_of(first), small(rt, line, 2), history)
        }
        "drop_history" => drop_history(scope, &hash_of(first), small(rt, line, 2)),
        "drop_preimage" => scope.drop_preimage(&hash_of(first)),
        "set_balance" => scope.set_balance(number(rt, line, 1)),
        "set_code" => scope.set_code(&hash_of(first), number(rt, line, 2), number(rt, line, 3)),
        "add_account" => add(alloc, scope, number(rt, line, 1)),
        "remove_account" => remove(scope, small(rt, line, 1)),
        "push_transfer" => push_transfer(scope, number(rt, line, 1)),
        "set_yield" => scope.set_yield(hash_of(first)),
        "push_provided" => scope.push_provided(small(rt, line, 1), word(line, 2).as_bytes()),
        "checkpoint" => scope.checkpoint(),
        "restore" => {
            scope.restore();
            Ok(())
        }
        _ => panic!(rt; "no such change: {line}"),
    }
}
