// The call that makes a service.
ghost use Rattle.std.specs.Prelude.{◌≡◌, IfOk};
ghost use Rattle.account_calls.specs.AccountCalls.{new_call, new_account};

use crate::balances::balance_after;
use account_context::Scope;
use call_parts::{CALL_CHARGE, CASH, FULL, HUH, answer, charge, hash_in};
use jam_accounts::{Account, Lookups, Preimages, Storage};
use preimage_store::History;
use pvm_step::{Exit, HostStep, Machine};
use std::alloc::{AllocError, Global};

// A new account, which asks for its code, of so many bytes, and has what that takes as its balance.
fn new_account(
    alloc: Global,
    slot: u32,
    hash: &[u8; 32],
    length: u32,
    min_accumulate: u64,
    min_transfer: u64,
) -> Result<Account, AllocError>
    ensures { IfOk result (λ account. account ≡ new_account slot hash.now length min_accumulate min_transfer) }
{
    let mut account = Account {
        code_hash: *hash,
        balance: 201 + u64::from(length),
        min_accumulate,
        min_transfer,
        gratis: 0,
        created: slot,
        storage: Storage::new(alloc),
        preimages: Preimages::new(alloc),
        lookups: Lookups::new(alloc),
    };
    let Some(history) = History::of(&[]) else {
        unreachable!()
    };
    account.put_history(hash, length, history)?;
    Ok(account)
}

/// 18, new: makes a service whose code has the hash at r7 and r8 bytes, with the least gas r9 of accumulate and r10 of a
/// transfer. The result is its number; its balance is what it needs for asking for its code, and is taken from the own one. HUH
/// where r8 is 2^32 or more; FULL where there is no number for it; CASH where the own balance would be below the threshold.
///
/// # Errors
/// Want of memory.
pub fn call_new<S: Scope>(
    alloc: Global,
    machine: &mut Machine,
    scope: &mut S,
    slot: u32,
) -> Result<HostStep, AllocError>
    ensures row { IfOk result (λ step. new_call slot (S.pair scope.old) machine.old ≡ record { answer = step; machine = machine.new; context = S.pair scope.new }) }
{
    if !charge(machine, CALL_CHARGE) {
        return Ok(HostStep::Unpaid);
    }
    let registers = machine.registers;
    let Some(hash) = hash_in(&machine.memory, registers[7]) else {
        return Ok(HostStep::End(Exit::Panic));
    };
    if registers[8] >= 1 << 32 {
        return Ok(answer(machine, HUH));
    }
    let length = registers[8] as u32;
    let Some(id) = scope.free_id() else {
        return Ok(answer(machine, FULL));
    };
    let Some(balance) = balance_after(scope, 201 + u64::from(length)) else {
        return Ok(answer(machine, CASH));
    };
    let account = new_account(alloc, slot, &hash, length, registers[9], registers[10])?;
    scope.add_account(id, account)?;
    scope.set_balance(balance)?;
    Ok(answer(machine, u64::from(id)))
}
