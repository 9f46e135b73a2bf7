// The calls that ask for preimages.
ghost use Rattle.std.specs.Prelude.{◌≡◌, IfOk, IsSome, OnOk};
ghost use Rattle.account_context.specs.Context.{history_in};
ghost use Rattle.call_parts.specs.Calls.{no_context};
ghost use Rattle.account_calls.specs.AccountCalls.{query_call, solicit_call, forget_call, forgotten};

use crate::found::history_asked;
use account_context::Scope;
use call_parts::{CALL_CHARGE, FULL, HUH, NONE, OK, answer, charge, hash_in};
use host_general::{history_overdraws, own_view};
use preimage_store::{Forgot, forget, solicit};
use pvm_step::{Exit, HostStep, Machine};
use std::alloc::AllocError;

/// 22, query: the history of the hash at r7 with the length r8 in the registers 7 and 8: how many slots it has and the first, and the
/// second and the third. NONE and 0 where there is none.
///
/// # Errors
/// Want of memory.
pub fn call_query<S: Scope>(
    machine: &mut Machine,
    scope: &mut S,
    _slot: u32,
) -> Result<HostStep, AllocError>
    ensures row { IfOk result (λ step. query_call (S.pair scope.old) machine.old ≡ record { answer = step; machine = machine.new; context = no_context }) }
    ensures same { IfOk result (λ step. S.pair scope.new ≡ S.pair scope.old) }
{
    if !charge(machine, CALL_CHARGE) {
        return Ok(HostStep::Unpaid);
    }
    let registers = machine.registers;
    let Some(hash) = hash_in(&machine.memory, registers[7]) else {
        return Ok(HostStep::End(Exit::Panic));
    };
    let (first, second) = match history_asked(scope, scope.service(), &hash, registers[8]) {
        Some(history) => history.words(),
        None => (NONE, 0),
    };
    let step = answer(machine, first);
    machine.registers[8] = second;
    Ok(step)
}

/// 23, solicit: asks for the preimage of the hash at r7, of r8 bytes, once more or anew. HUH where r8 is 2^32 or more, or the history
/// does not allow it; FULL where the own balance would be below the threshold.
///
/// # Errors
/// Want of memory.
pub fn call_solicit<S: Scope>(
    machine: &mut Machine,
    scope: &mut S,
    slot: u32,
) -> Result<HostStep, AllocError>
    ensures row { IfOk result (λ step. solicit_call slot (S.pair scope.old) machine.old ≡ record { answer = step; machine = machine.new; context = S.pair scope.new }) }
{
    if !charge(machine, CALL_CHARGE) {
        return Ok(HostStep::Unpaid);
    }
    let registers = machine.registers;
    let Some(hash) = hash_in(&machine.memory, registers[7]) else {
        return Ok(HostStep::End(Exit::Panic));
    };
    if registers[8] >= 1 << 32 {
        return Ok(answer(machine, HUH));
    }
    let length = registers[8] as u32;
    let Ok(history) = solicit(scope.history(scope.service(), &hash, length), slot) else {
        return Ok(answer(machine, HUH));
    };
    if history_overdraws(scope, &hash, length, history) {
        return Ok(answer(machine, FULL));
    }
    scope.set_history(&hash, length, Some(history))?;
    Ok(answer(machine, OK))
}

// Leaves what is left of a history that is there.
fn forget_so<S: Scope>(
    scope: &mut S,
    hash: &[u8; 32],
    length: u32,
    left: Forgot,
) -> Result<(), AllocError>
    requires there { IsSome (history_in (S.pair scope.old) (S.pair scope.old).service hash.now length) }
    ensures { OnOk result (S.pair scope.new ≡ forgotten (S.pair scope.old) hash.now length left) }
{
    // The own octets are below the bound of every account, and do not rise.
    let _own = own_view(scope);
    match left {
        Forgot::Dropped => {
            scope.set_history(hash, length, None)?;
            scope.drop_preimage(hash)
        }
        Forgot::Kept(history) => scope.set_history(hash, length, Some(history)),
    }
}

/// 24, forget: asks no longer for the preimage of the hash at r7, of r8 bytes. Where nothing is left of the history, the preimage goes
/// too. HUH where there is no such history, or it does not allow it.
///
/// # Errors
/// Want of memory.
pub fn call_forget<S: Scope>(
    machine: &mut Machine,
    scope: &mut S,
    slot: u32,
) -> Result<HostStep, AllocError>
    ensures row { IfOk result (λ step. forget_call slot (S.pair scope.old) machine.old ≡ record { answer = step; machine = machine.new; context = S.pair scope.new }) }
{
    if !charge(machine, CALL_CHARGE) {
        return Ok(HostStep::Unpaid);
    }
    let registers = machine.registers;
    let Some(hash) = hash_in(&machine.memory, registers[7]) else {
        return Ok(HostStep::End(Exit::Panic));
    };
    let Some(history) = history_asked(scope, scope.service(), &hash, registers[8]) else {
        return Ok(answer(machine, HUH));
    };
    let Ok(left) = forget(history, slot) else {
        return Ok(answer(machine, HUH));
    };
    forget_so(scope, &hash, registers[8] as u32, left)?;
    Ok(answer(machine, OK))
}
