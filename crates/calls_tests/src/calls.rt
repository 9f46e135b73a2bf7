//! The host calls, by name.
use account_calls::{
    call_checkpoint, call_eject, call_forget, call_new, call_provide, call_query, call_solicit,
    call_transfer, call_upgrade, call_yield,
};
use account_context::Scope;
use host_general::{
    Inputs, call_fetch, call_gas, call_info, call_lookup, call_read, call_unknown, call_write,
};
use pvm_step::{HostStep, Machine};
use std::alloc::{AllocError, Global};

// The entropy of nines, the payload 21, 22, 23 or none, and the pieces 4, 5, 6, nothing, and 7.
fn inputs(alloc: Global, has_payload: bool) -> Result<Inputs, AllocError> {
    let mut pieces = Vec::new(alloc);
    pieces.push(Vec::from_slice(alloc, &[4, 5, 6])?)?;
    pieces.push(Vec::new(alloc))?;
    pieces.push(Vec::from_slice(alloc, &[7])?)?;
    let payload = if has_payload {
        Some(Vec::from_slice(alloc, &[21, 22, 23])?)
    } else {
        None
    };
    Inputs::new(alloc, [9; 32], payload, pieces)
}

// The general call of a name; none where it is not one of these.
fn general_call<S: Scope>(
    alloc: Global,
    machine: &mut Machine,
    scope: &mut S,
    name: &str,
) -> Result<Option<HostStep>, AllocError> {
    let step = match name {
        "gas" => call_gas(machine),
        "unknown" => call_unknown(machine),
        "fetch" => call_fetch(machine, &inputs(alloc, true)?)?,
        "fetch-no-payload" => call_fetch(machine, &inputs(alloc, false)?)?,
        "lookup" => call_lookup(machine, scope)?,
        "read" => call_read(alloc, machine, scope)?,
        "write" => call_write(alloc, machine, scope)?,
        "info" => call_info(alloc, machine, scope)?,
        _ => return Ok(None),
    };
    Ok(Some(step))
}

// The account call of a name; none where it is not one of these.
fn account_call<S: Scope>(
    alloc: Global,
    machine: &mut Machine,
    scope: &mut S,
    slot: u32,
    name: &str,
) -> Result<Option<HostStep>, AllocError> {
    let step = match name {
        "checkpoint" => call_checkpoint(machine, scope, slot)?,
        "new" => call_new(alloc, machine, scope, slot)?,
        "upgrade" => call_upgrade(machine, scope, slot)?,
        "transfer" => call_transfer(machine, scope, slot)?,
        "eject" => call_eject(machine, scope, slot)?,
        "query" => call_query(machine, scope, slot)?,
        "solicit" => call_solicit(machine, scope, slot)?,
        "forget" => call_forget(machine, scope, slot)?,
        "yield" => call_yield(machine, scope, slot)?,
        "provide" => call_provide(alloc, machine, scope, slot)?,
        _ => return Ok(None),
    };
    Ok(Some(step))
}

/// Makes the host call of a name at a slot; none where there is no such call.
pub fn call<S: Scope>(
    alloc: Global,
    machine: &mut Machine,
    scope: &mut S,
    slot: u32,
    name: &str,
) -> Result<Option<HostStep>, AllocError> {
    match general_call(alloc, machine, scope, name)? {
        Some(step) => Ok(Some(step)),
        None => account_call(alloc, machine, scope, slot, name),
    }
}
