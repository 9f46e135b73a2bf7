// The call that writes a value.
ghost use Rattle.std.specs.Prelude.{◌≡◌, false, IfOk, option_map};
ghost use Rattle.std.specs.FinMap as fin;
ghost use Rattle.account_context.specs.Context.{own_account, IsOwnWithinBound, put_value};
ghost use Rattle.host_general.specs.Deposits.{is_overdrawn, length_or_none};
ghost use Rattle.host_general.specs.GeneralCalls.{written, write_call};

use crate::deposits::{drop_overdraws, own_value_length, put_overdraws};
use account_context::Scope;
use call_parts::{CALL_CHARGE, FULL, NONE, answer, bytes_in, charge};
use pvm_step::{Exit, HostStep, Machine};
use std::alloc::{AllocError, Global};

// Whether the own balance is too low once the value is put under the key, or the key's is dropped.
fn overdraws<S: Scope>(scope: &S, key: &[u8], value: &[u8], drops: bool) -> bool
    ensures overdrawn { result ≡ is_overdrawn (own_account (written (S.pair scope.now) key.now value.now drops)) }
    ensures bound { result ≡ false → drops ≡ false → IsOwnWithinBound (put_value (S.pair scope.now) key.now value.now) }
{
    if drops {
        drop_overdraws(scope, key)
    } else {
        put_overdraws(scope, key, value)
    }
}

// The length of the own value under a key, or the result that there is none.
fn length_before<S: Scope>(scope: &S, key: &[u8]) -> u64
    ensures { result ≡ length_or_none (fin.get (own_account (S.pair scope.now)).storage key.now) }
{
    own_value_length(scope, key).unwrap_or(NONE)
}

/// 4, write: the value of r10 bytes at r9 is kept under the key of r8 bytes at r7; with r10 = 0 the key's value is dropped. The
/// result is the length of the value that stood there. FULL where the balance would be below the threshold then, and nothing is
/// written.
///
/// # Errors
/// Want of memory.
pub fn call_write<S: Scope>(
    alloc: Global,
    machine: &mut Machine,
    scope: &mut S,
) -> Result<HostStep, AllocError>
    ensures row { IfOk result (λ step. write_call (S.pair scope.old) machine.old ≡ record { answer = step; machine = machine.new; context = S.pair scope.new }) }
{
    if !charge(machine, CALL_CHARGE) {
        return Ok(HostStep::Unpaid);
    }
    let registers = machine.registers;
    let memory = &machine.memory;
    let Some(key) = bytes_in(alloc, memory, registers[7], registers[8])? else {
        return Ok(HostStep::End(Exit::Panic));
    };
    let Some(value) = bytes_in(alloc, memory, registers[9], registers[10])? else {
        return Ok(HostStep::End(Exit::Panic));
    };
    let drops = registers[10] == 0;
    if overdraws(scope, &key, &value, drops) {
        return Ok(answer(machine, FULL));
    }
    let before = length_before(scope, &key);
    if drops {
        scope.drop_value(&key)?;
    } else {
        scope.put_value(&key, &value)?;
    }
    Ok(answer(machine, before))
}
