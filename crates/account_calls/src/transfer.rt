// The call that sends a transfer.
ghost use Rattle.std.specs.Prelude.{◌≡◌, ◌+◌, ◌-◌, nat_le, IfOk, if◌then◌else◌};
ghost use Rattle.call_parts.specs.Calls.{readable_bytes};
ghost use Rattle.account_calls.specs.AccountCalls.{transfer_call, sent};

use crate::balances::balance_after;
use crate::found::service_there;
use account_context::{Scope, Transfer};
use call_parts::{CALL_CHARGE, CASH, LOW, OK, WHO, answer, charge};
use paged_memory::Memory;
use pvm_step::{Exit, HostStep, Machine};
use std::alloc::AllocError;

// Takes what a transfer of so much gas costs.
fn charge_with(machine: &mut Machine, gas: u64) -> bool
    ensures paid { result ≡ nat_le (10 + gas) machine.old.gas }
    ensures left { machine.new ≡ record machine.old { gas = if result then machine.old.gas - (10 + gas) else 0 } }
{
    // It may be more than a number of 64 bits.
    let cost = u128::from(CALL_CHARGE) + u128::from(gas);
    if cost <= u128::from(machine.ledger.left()) {
        return charge(machine, cost as u64);
    }
    machine.ledger.exhaust();
    false
}

// The 128 bytes at an address; none where they may not all be read.
fn memo_in(memory: &Memory, address: u64) -> Option<[u8; 128]>
    ensures { result ≡ readable_bytes memory.now address 128 }
{
    if !memory.readable(address, 128) {
        return None;
    }
    let mut memo = [0; 128];
    memory.copy_out(address, &mut memo);
    Some(memo)
}

/// 20, transfer: sends the amount r8 to service r7, with the gas r9 and the memo of 128 bytes at r10. It costs r9 more than
/// other calls. WHO where there is no such service; LOW where it wants more gas; CASH where the own balance would be below the
/// threshold.
///
/// # Errors
/// Want of memory.
pub fn call_transfer<S: Scope>(
    machine: &mut Machine,
    scope: &mut S,
    _slot: u32,
) -> Result<HostStep, AllocError>
    ensures row { IfOk result (λ step. transfer_call (S.pair scope.old) machine.old ≡ record { answer = step; machine = machine.new; context = S.pair scope.new }) }
{
    let registers = machine.registers;
    let (amount, gas) = (registers[8], registers[9]);
    if !charge_with(machine, gas) {
        return Ok(HostStep::Unpaid);
    }
    let Some(memo) = memo_in(&machine.memory, registers[10]) else {
        return Ok(HostStep::End(Exit::Panic));
    };
    let Some((target, account)) = service_there(scope, registers[7]) else {
        return Ok(answer(machine, WHO));
    };
    if gas < account.min_transfer {
        return Ok(answer(machine, LOW));
    }
    let Some(balance) = balance_after(scope, amount) else {
        return Ok(answer(machine, CASH));
    };
    let source = scope.service();
    scope.set_balance(balance)?;
    scope.push_transfer(Transfer {
        source,
        target,
        amount,
        gas,
        memo,
    })?;
    Ok(answer(machine, OK))
}
