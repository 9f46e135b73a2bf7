// How what a command makes is handed out.
ghost use Rattle.std.specs.Prelude.{◌≡◌, OnOk, IfErr, Some};
ghost use Rattle.jam_outside.specs.Causes.{Appends};
ghost use Rattle.jam_cli.specs.Parts.{plain_entry, entry_stored, NotPrinted, NotStored};

use crate::refusal::Refusal;
use crate::work::Entry;
use jam_outside::{OutsideError, Sink, Vault};

/// Prints a text.
pub fn print<S: Sink>(out: &mut S, text: &[u8]) -> Result<(), Refusal>
    ensures all { OnOk result (Appends (S.state out.old).taken (S.state out.new).taken text.now) }
    ensures kept { OnOk result ((S.state out.new).faults ≡ (S.state out.old).faults) }
    ensures refused { IfErr result (λ refusal. NotPrinted refusal (S.state out.old) (S.state out.new) text.now) }
{
    match out.put(text) {
        Ok(()) => Ok(()),
        Err(OutsideError::Failed) => Err(Refusal::SinkFault),
        Err(OutsideError::NoMemory) => Err(Refusal::NoMemory),
    }
}

fn store_entry<V: Vault>(vault: &mut V, entry: &Entry<'_>) -> Result<(), Refusal>
    ensures all { OnOk result (V.state vault.new ≡ entry_stored (Some (entry.now.name.now, entry.now.bytes.items)) (V.state vault.old)) }
    ensures refused { IfErr result (λ refusal. NotStored refusal (V.state vault.old) (V.state vault.new) (Some (entry.now.name.now, entry.now.bytes.items))) }
{
    match vault.store(entry.name, &entry.bytes) {
        Ok(()) => Ok(()),
        Err(OutsideError::Failed) => Err(Refusal::StoreFault),
        Err(OutsideError::NoMemory) => Err(Refusal::NoMemory),
    }
}

/// Stores an entry, if there is one.
pub fn store<V: Vault>(vault: &mut V, entry: &Option<Entry<'_>>) -> Result<(), Refusal>
    ensures all { OnOk result (V.state vault.new ≡ entry_stored (plain_entry entry.now) (V.state vault.old)) }
    ensures refused { IfErr result (λ refusal. NotStored refusal (V.state vault.old) (V.state vault.new) (plain_entry entry.now)) }
{
    match entry {
        None => Ok(()),
        Some(entry) => store_entry(vault, entry),
    }
}
