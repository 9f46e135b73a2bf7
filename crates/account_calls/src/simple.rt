// Calls that always change the context.
ghost use Rattle.std.specs.Prelude.{◌≡◌, IfOk};
ghost use Rattle.account_calls.specs.AccountCalls.{checkpoint_call, upgrade_call, yield_call};

use account_context::Scope;
use call_parts::{CALL_CHARGE, OK, answer, charge, hash_in};
use pvm_step::{Exit, HostStep, Machine};
use std::alloc::AllocError;

/// 17, checkpoint: saves the context as it is. The result is the gas that is left.
///
/// # Errors
/// Want of memory.
pub fn call_checkpoint<S: Scope>(
    machine: &mut Machine,
    scope: &mut S,
    _slot: u32,
) -> Result<HostStep, AllocError>
    ensures row { IfOk result (λ step. checkpoint_call (S.pair scope.old) machine.old ≡ record { answer = step; machine = machine.new; context = S.pair scope.new }) }
{
    if !charge(machine, CALL_CHARGE) {
        return Ok(HostStep::Unpaid);
    }
    scope.checkpoint()?;
    let left = machine.ledger.left();
    Ok(answer(machine, left))
}

/// 19, upgrade: gives the own account the code hash at r7, and the least gas r8 of accumulate and r9 of a transfer.
///
/// # Errors
/// Want of memory.
pub fn call_upgrade<S: Scope>(
    machine: &mut Machine,
    scope: &mut S,
    _slot: u32,
) -> Result<HostStep, AllocError>
    ensures row { IfOk result (λ step. upgrade_call (S.pair scope.old) machine.old ≡ record { answer = step; machine = machine.new; context = S.pair scope.new }) }
{
    if !charge(machine, CALL_CHARGE) {
        return Ok(HostStep::Unpaid);
    }
    let registers = machine.registers;
    let Some(hash) = hash_in(&machine.memory, registers[7]) else {
        return Ok(HostStep::End(Exit::Panic));
    };
    scope.set_code(&hash, registers[8], registers[9])?;
    Ok(answer(machine, OK))
}

/// 25, yield: yields the hash at r7, in place of the one before.
///
/// # Errors
/// Want of memory.
pub fn call_yield<S: Scope>(
    machine: &mut Machine,
    scope: &mut S,
    _slot: u32,
) -> Result<HostStep, AllocError>
    ensures row { IfOk result (λ step. yield_call (S.pair scope.old) machine.old ≡ record { answer = step; machine = machine.new; context = S.pair scope.new }) }
{
    if !charge(machine, CALL_CHARGE) {
        return Ok(HostStep::Unpaid);
    }
    let Some(hash) = hash_in(&machine.memory, machine.registers[7]) else {
        return Ok(HostStep::End(Exit::Panic));
    };
    scope.set_yield(hash)?;
    Ok(answer(machine, OK))
}
