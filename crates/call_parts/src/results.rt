// What a call costs, and what it answers.
ghost use Rattle.std.specs.Prelude.{◌≡◌, ◌<◌, ◌^◌, ◌-◌, nat_le, if◌then◌else◌};
ghost use Rattle.pvm_step.specs.declared.exit.HostStep.TheVariants.{Go};
ghost use Rattle.call_parts.specs.Calls.{with_word, service_named};

use pvm_step::{HostStep, Machine};

/// What a call costs by itself.
pub const CALL_CHARGE: u64 = 10;

/// It was done.
pub const OK: u64 = 0;

/// There is no such thing.
pub const NONE: u64 = u64::MAX;

/// There is no such call.
pub const WHAT: u64 = u64::MAX - 1;

/// Outside the bounds.
pub const OOB: u64 = u64::MAX - 2;

/// There is no such service or machine.
pub const WHO: u64 = u64::MAX - 3;

/// There is no room, or the balance does not carry what is to be kept.
pub const FULL: u64 = u64::MAX - 4;

/// The balance is too low.
pub const CASH: u64 = u64::MAX - 6;

/// The gas is too low.
pub const LOW: u64 = u64::MAX - 7;

/// That makes no sense here.
pub const HUH: u64 = u64::MAX - 8;

/// Takes so much gas. Where less is left it answers false, and none is left.
pub fn charge(machine: &mut Machine, cost: u64) -> bool
    ensures paid { result ≡ nat_le cost machine.old.gas }
    ensures left { machine.new ≡ record machine.old { gas = if result then machine.old.gas - cost else 0 } }
{
    if machine.ledger.charge(cost) {
        return true;
    }
    machine.ledger.exhaust();
    false
}

/// Puts a result into register 7, and lets the machine run on.
pub fn answer(machine: &mut Machine, word: u64) -> HostStep
    ensures step { result ≡ Go }
    ensures word { machine.new ≡ with_word machine.old 7 word }
{
    machine.registers[7] = word;
    HostStep::Go
}

/// The service that a word names, for the service `own`: that one for 2^64 - 1, and none from 2^32
/// on.
pub fn service_named(own: u32, word: u64) -> Option<u32>
    ensures { result ≡ service_named own word }
{
    if word == u64::MAX {
        return Some(own);
    }
    if word < 1 << 32 {
        return Some(word as u32);
    }
    None
}
