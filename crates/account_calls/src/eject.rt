// The call that removes a service.
ghost use Rattle.std.specs.Prelude.{◌≡◌, Some, IfOk};
ghost use Rattle.jam_accounts.specs.Accounts.{Account};
ghost use Rattle.account_context.specs.Context.{account_in, view_of};
ghost use Rattle.account_calls.specs.AccountCalls.{eject_call, may_eject, is_emptied, is_over, given_up_to};

use crate::found::{history_asked, service_there};
use account_context::{AccountView, Scope};
use call_parts::{CALL_CHARGE, HUH, OK, WHO, answer, charge, hash_in};
use host_general::own_view;
use preimage_store::{EXPUNGE_PERIOD, History};
use pvm_step::{Exit, HostStep, Machine};
use std::alloc::AllocError;

// The code hash by which a service is given up to another.
fn given_up_to(service: u32) -> [u8; 32]
    ensures { result ≡ given_up_to service }
{
    let mut hash = [0; 32];
    hash[..4].copy_from_slice(&service.to_le_bytes());
    hash
}

// Whether a preimage was asked for, given and forgotten, and the period is over.
fn is_over(slot: u32, history: Option<History>) -> bool
    ensures { result ≡ is_over slot history }
{
    let Some(history) = history else {
        return false;
    };
    match *history.slots() {
        [_, forgotten] => { u64::from(forgotten) + u64::from(EXPUNGE_PERIOD) < u64::from(slot) }
        _ => false,
    }
}

// Whether all that a service keeps is the history of one hash, which is over.
fn is_emptied<S: Scope>(
    scope: &S,
    slot: u32,
    id: u32,
    account: &AccountView,
    hash: &[u8; 32],
) -> bool
    ensures { (there : Account) → account_in (S.pair scope.now) id ≡ Some there → account.now ≡ view_of there → result ≡ is_emptied slot (S.pair scope.now) id there hash.now }
{
    let octets = account.footprint.octets();
    if account.footprint.items() != 2 || octets < 81 {
        return false;
    }
    match u64::try_from(octets - 81) {
        Ok(length) => is_over(slot, history_asked(scope, id, hash, length)),
        Err(_) => false,
    }
}

/// 21, eject: removes service r7, which is given up to the own one, and takes its balance, at most up to 2^64 - 1. WHO where there
/// is no such service, or it is the own one, or its code hash is not the own number in 4 bytes with 28 zeros. HUH where it keeps more than
/// the history of the hash at r8, or that is not over.
///
/// # Errors
/// Want of memory.
pub fn call_eject<S: Scope>(
    machine: &mut Machine,
    scope: &mut S,
    slot: u32,
) -> Result<HostStep, AllocError>
    ensures row { IfOk result (λ step. eject_call slot (S.pair scope.old) machine.old ≡ record { answer = step; machine = machine.new; context = S.pair scope.new }) }
{
    if !charge(machine, CALL_CHARGE) {
        return Ok(HostStep::Unpaid);
    }
    let registers = machine.registers;
    let Some(hash) = hash_in(&machine.memory, registers[8]) else {
        return Ok(HostStep::End(Exit::Panic));
    };
    let Some((id, account)) = service_there(scope, registers[7]) else {
        return Ok(answer(machine, WHO));
    };
    let own = scope.service();
    if id == own || account.code_hash != given_up_to(own) {
        return Ok(answer(machine, WHO));
    }
    if !is_emptied(scope, slot, id, &account, &hash) {
        return Ok(answer(machine, HUH));
    }
    let balance = own_view(scope).balance.saturating_add(account.balance);
    scope.remove_account(id)?;
    scope.set_balance(balance)?;
    Ok(answer(machine, OK))
}
