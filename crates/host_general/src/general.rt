// Calls that change nothing but the machine.
ghost use Rattle.std.specs.Prelude.{◌≡◌, IfOk};
ghost use Rattle.call_parts.specs.Calls.{no_context};
ghost use Rattle.host_general.specs.GeneralCalls.{gas_call, unknown_call, fetch_call, lookup_call, read_call, info_call};

use crate::info::info_named;
use crate::inputs::Inputs;
use crate::named::{preimage_named, value_named};
use account_context::Scope;
use call_parts::{CALL_CHARGE, WHAT, answer, bytes_in, charge, give, hash_in};
use pvm_step::{Exit, HostStep, Machine};
use std::alloc::{AllocError, Global};

/// 0, gas: how much is left after the call's cost.
pub fn call_gas(machine: &mut Machine) -> HostStep
    ensures row { gas_call machine.old ≡ record { answer = result; machine = machine.new; context = no_context } }
{
    if !charge(machine, CALL_CHARGE) {
        return HostStep::Unpaid;
    }
    let left = machine.ledger.left();
    answer(machine, left)
}

/// A number that no call has in this place.
pub fn call_unknown(machine: &mut Machine) -> HostStep
    ensures row { unknown_call machine.old ≡ record { answer = result; machine = machine.new; context = no_context } }
{
    if !charge(machine, CALL_CHARGE) {
        return HostStep::Unpaid;
    }
    answer(machine, WHAT)
}

/// 1, fetch: of what the run was given, the value of the kind r10, for kind 3 with the index r11, is given to r7 from
/// r8 on, at most r9 bytes.
///
/// # Errors
/// Want of memory.
pub fn call_fetch(machine: &mut Machine, inputs: &Inputs) -> Result<HostStep, AllocError>
    ensures row { IfOk result (λ step. fetch_call inputs.now machine.old ≡ record { answer = step; machine = machine.new; context = no_context }) }
{
    if !charge(machine, CALL_CHARGE) {
        return Ok(HostStep::Unpaid);
    }
    let registers = machine.registers;
    let value = inputs.value(registers[10], registers[11]);
    give(machine, value, registers[7], registers[8], registers[9])
}

/// 2, lookup: the preimage of the hash at r8, of service r7, is given to r9 from r10 on, at most r11 bytes.
///
/// # Errors
/// Want of memory.
pub fn call_lookup<S: Scope>(machine: &mut Machine, scope: &S) -> Result<HostStep, AllocError>
    ensures row { IfOk result (λ step. lookup_call (S.pair scope.now) machine.old ≡ record { answer = step; machine = machine.new; context = no_context }) }
{
    if !charge(machine, CALL_CHARGE) {
        return Ok(HostStep::Unpaid);
    }
    let registers = machine.registers;
    let Some(hash) = hash_in(&machine.memory, registers[8]) else {
        return Ok(HostStep::End(Exit::Panic));
    };
    let value = preimage_named(scope, registers[7], &hash);
    give(machine, value, registers[9], registers[10], registers[11])
}

/// 3, read: the value under the key of r9 bytes at r8, of service r7, is given to r10 from r11 on, at most r12 bytes.
///
/// # Errors
/// Want of memory.
pub fn call_read<S: Scope>(
    alloc: Global,
    machine: &mut Machine,
    scope: &S,
) -> Result<HostStep, AllocError>
    ensures row { IfOk result (λ step. read_call (S.pair scope.now) machine.old ≡ record { answer = step; machine = machine.new; context = no_context }) }
{
    if !charge(machine, CALL_CHARGE) {
        return Ok(HostStep::Unpaid);
    }
    let registers = machine.registers;
    let Some(key) = bytes_in(alloc, &machine.memory, registers[8], registers[9])? else {
        return Ok(HostStep::End(Exit::Panic));
    };
    let value = value_named(scope, registers[7], &key);
    give(machine, value, registers[10], registers[11], registers[12])
}

/// 5, info: the text of service r7 is given to r8 from r9 on, at most r10 bytes.
///
/// # Errors
/// Want of memory.
pub fn call_info<S: Scope>(
    alloc: Global,
    machine: &mut Machine,
    scope: &S,
) -> Result<HostStep, AllocError>
    ensures row { IfOk result (λ step. info_call (S.pair scope.now) machine.old ≡ record { answer = step; machine = machine.new; context = no_context }) }
{
    if !charge(machine, CALL_CHARGE) {
        return Ok(HostStep::Unpaid);
    }
    let registers = machine.registers;
    let text = info_named(alloc, scope, registers[7])?;
    let value = match &text {
        Some(text) => Some(text.as_slice()),
        None => None,
    };
    give(machine, value, registers[8], registers[9], registers[10])
}
