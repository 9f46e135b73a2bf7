// The call that provides a preimage.
ghost use Rattle.std.specs.Prelude.{◌≡◌, IfOk};
ghost use Rattle.account_calls.specs.AccountCalls.{provide_call, is_provided, is_awaited};

use crate::found::{history_asked, service_there};
use account_context::{Provided, Scope};
use call_parts::{CALL_CHARGE, HUH, OK, WHO, answer, bytes_in, charge};
use preimage_store::History;
use pvm_step::{Exit, HostStep, Machine};
use std::alloc::{AllocError, Global};

// Whether a preimage was provided for a service already.
fn is_provided(provided: &[Provided], service: u32, bytes: &[u8]) -> bool
    ensures { result ≡ is_provided provided.now service bytes.now }
{
    provided
        .iter()
        .any(|p| p.service == service && p.bytes.as_slice() == bytes)
}

// Whether a preimage was asked for and never given.
fn is_awaited(history: Option<History>) -> bool
    ensures { result ≡ is_awaited history }
{
    match history {
        Some(history) => history.slots().is_empty(),
        None => false,
    }
}

/// 26, provide: provides the r9 bytes at r8 as a preimage for service r7. WHO where there is no such service; HUH where it does not
/// ask for them, or was given them, or they were provided already.
///
/// # Errors
/// Want of memory.
pub fn call_provide<S: Scope>(
    alloc: Global,
    machine: &mut Machine,
    scope: &mut S,
    _slot: u32,
) -> Result<HostStep, AllocError>
    ensures row { IfOk result (λ step. provide_call (S.pair scope.old) machine.old ≡ record { answer = step; machine = machine.new; context = S.pair scope.new }) }
{
    if !charge(machine, CALL_CHARGE) {
        return Ok(HostStep::Unpaid);
    }
    let registers = machine.registers;
    let Some(bytes) = bytes_in(alloc, &machine.memory, registers[8], registers[9])? else {
        return Ok(HostStep::End(Exit::Panic));
    };
    let Some((id, _account)) = service_there(scope, registers[7]) else {
        return Ok(answer(machine, WHO));
    };
    let hash = blake2b_core::digest(&bytes);
    let history = history_asked(scope, id, &hash, bytes.len() as u64);
    if !is_awaited(history) || is_provided(scope.provided(), id, &bytes) {
        return Ok(answer(machine, HUH));
    }
    scope.push_provided(id, &bytes)?;
    Ok(answer(machine, OK))
}
