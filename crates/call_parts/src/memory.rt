// The memory that calls take in and give out.
ghost use Rattle.std.specs.Prelude.{◌≡◌, IfOk, OnErr, option_map, length};
ghost use Rattle.call_parts.specs.Calls.{readable_bytes, giving, no_context};

use crate::results::{NONE, answer};
use paged_memory::Memory;
use pvm_step::{Exit, HostStep, Machine};
use std::alloc::{AllocError, Global};

fn zeros(alloc: Global, count: u64) -> Result<Vec<u8>, AllocError>
    ensures { IfOk result (λ bytes. length bytes.items ≡ count) }
{
    vec![in alloc; 0u8; count as usize]
}

/// The n bytes at an address; none where they may not all be read.
///
/// # Errors
/// Want of memory.
pub fn bytes_in(
    alloc: Global,
    memory: &Memory,
    address: u64,
    n: u64,
) -> Result<Option<Vec<u8>>, AllocError>
    ensures { IfOk result (λ found. option_map (λ bytes. bytes.items) found ≡ readable_bytes memory.now address n) }
{
    if !memory.readable(address, n) {
        return Ok(None);
    }
    let mut bytes = zeros(alloc, n)?;
    memory.copy_out(address, &mut bytes);
    Ok(Some(bytes))
}

/// The 32 bytes at an address; none where they may not all be read.
pub fn hash_in(memory: &Memory, address: u64) -> Option<[u8; 32]>
    ensures { result ≡ readable_bytes memory.now address 32 }
{
    if !memory.readable(address, 32) {
        return None;
    }
    let mut hash = [0; 32];
    memory.copy_out(address, &mut hash);
    Some(hash)
}

// So many bytes of a value from a place on, as far as there are.
fn part(value: &[u8], from: u64, n: u64) -> &[u8]
    ensures { result.now ≡ Rattle.call_parts.specs.Calls.part value.now from n }
{
    let start = from.min(value.len() as u64) as usize;
    let rest = &value[start..];
    let count = n.min(rest.len() as u64) as usize;
    &rest[..count]
}

/// Gives a value: so many of its bytes from a place on, as far as there are, are written at an address, and its length is the result. Where
/// there is none, the result is `NONE`, and no memory is tested; where the bytes may not be written, the run panics.
///
/// # Errors
/// Want of memory; the machine is then as before.
pub fn give(
    machine: &mut Machine,
    value: Option<&[u8]>,
    address: u64,
    from: u64,
    n: u64,
) -> Result<HostStep, AllocError>
    ensures given { IfOk result (λ step. giving (option_map (λ bytes. bytes.now) value.entry) address from n machine.old no_context ≡ record { answer = step; machine = machine.new; context = no_context }) }
    ensures err { OnErr result (machine.new ≡ machine.old) }
{
    let Some(value) = value else {
        return Ok(answer(machine, NONE));
    };
    let bytes = part(value, from, n);
    if !machine.memory.writable(address, bytes.len() as u64) {
        return Ok(HostStep::End(Exit::Panic));
    }
    machine.memory.copy_in(address, bytes)?;
    Ok(answer(machine, value.len() as u64))
}
