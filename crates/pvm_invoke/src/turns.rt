// A run's units, one after another.
ghost use Rattle.std.specs.Prelude.{◌≡◌, ◌<◌, ◌≤◌, ◌-◌, ℕ, ◌↔◌, IsTrue, IfOk, OnOk, if◌then◌else◌};
ghost use Rattle.gas_ledger.specs.Schedule.{IsSchedule};
ghost use Rattle.pvm_isa.specs.declared.op.Op.TheVariants.{Ecalli};
ghost use Rattle.blob_decode.specs.Program.{op_at};
ghost use Rattle.pvm_step.specs.Machine.{exit_in};
ghost use Rattle.pvm_invoke.specs.Held.{Held};
ghost use Rattle.pvm_invoke.specs.HostCall.{HostEffect};
ghost use Rattle.pvm_invoke.specs.Turns.{stands, stage_after, charged, has_ended, IsTurn, Follows};
ghost use Rattle.pvm_invoke.specs.Invocation.{IsAtCall, HasMoved};

use crate::counter::Counter;
use crate::host::Host;
use crate::stage::Stage;
use pvm_step::{Exit, HostStep, Machine, Progress};
use std::alloc::AllocError;

// The stage of a machine whose run came to this.
fn stage_after(progress: Progress) -> Stage
    ensures { result ≡ stage_after (exit_in progress) }
{
    match progress {
        Progress::Paused => Stage::Runs,
        Progress::Ended(Exit::Host(number)) => Stage::Awaits(number),
        Progress::Ended(exit) => Stage::Ended(exit),
    }
}

// Takes so much gas. Where less is left it answers false, and takes none.
fn pay(machine: &mut Machine, n: u64) -> bool
    ensures paid { IsTrue result ↔ (n ≤ machine.old.gas) }
    ensures after { machine.new ≡ (if result then charged machine.old n else machine.old) }
{
    machine.ledger.charge(n)
}

// Takes all gas.
fn exhaust(machine: &mut Machine)
    ensures { machine.new ≡ record machine.old { gas = 0 } }
{
    machine.ledger.exhaust();
}

// Makes instructions, at most so many, up to one that ends the run or calls the host, and answers how many they were.
fn make_instructions(machine: &mut Machine, fuel: u64) -> Result<(u64, Stage), AllocError>
    ensures follows { IfOk result (λ run. (effect : HostEffect) (held : Held) → Follows effect fuel run.0 (stands machine.old held Stage.Runs) (stands machine.new held run.1)) }
    ensures at_call { IfOk result (λ run. IsAtCall machine.new run.1) }
    ensures moves { IfOk result (λ run. 0 < fuel → HasMoved run.0 run.1) }
{
    let mut counter = Counter::new();
    let progress = machine.run_watched(fuel, &mut counter)?;
    Ok((counter.made, stage_after(progress)))
}

// Makes the host call that is awaited, where the gas pays for it, and answers how many units that was.
fn make_call<H: Host>(
    machine: &mut Machine,
    host: &mut H,
    number: u64,
) -> Result<(u64, Stage), AllocError>
    requires { op_at machine.old.program machine.old.pc ≡ Ecalli }
    ensures turn { IfOk result (λ call. IsTurn H.effect 1 call.0 (stands machine.old (H.held host.old) (Stage.Awaits number)) (stands machine.new (H.held host.new) call.1)) }
    ensures at_call { IfOk result (λ call. IsAtCall machine.new call.1) }
{
    // The call takes 10 by itself.
    let surcharge = machine.costs.call_cost(number) - 10;
    if !pay(machine, surcharge) {
        exhaust(machine);
        return Ok((0, Stage::Ended(Exit::OutOfGas)));
    }
    match host.call(number, machine)? {
        HostStep::Go => {
            machine.pass_ecalli();
            Ok((1, Stage::Runs))
        }
        HostStep::End(exit) => Ok((1, Stage::Ended(exit))),
        HostStep::Unpaid => Ok((0, Stage::Ended(Exit::OutOfGas))),
    }
}

// Makes instructions or one host call, and answers how many units that was. There was one, unless it is the end.
fn make_more<H: Host>(
    machine: &mut Machine,
    host: &mut H,
    stage: Stage,
    fuel: u64,
) -> Result<(u64, Stage), AllocError>
    requires some { 0 < fuel }
    requires at_call { IsAtCall machine.old stage }
    ensures follows { IfOk result (λ turn. Follows H.effect fuel turn.0 (stands machine.old (H.held host.old) stage) (stands machine.new (H.held host.new) turn.1)) }
    ensures at_call { IfOk result (λ turn. IsAtCall machine.new turn.1) }
    ensures moves { IfOk result (λ turn. HasMoved turn.0 turn.1) }
{
    match stage {
        Stage::Runs => make_instructions(machine, fuel),
        Stage::Awaits(number) => make_call(machine, host, number),
        Stage::Ended(_) => Ok((0, stage)),
    }
}

// Whether a run has ended.
pub fn has_ended(stage: Stage) -> bool
    ensures { result ≡ has_ended stage }
{
    match stage {
        Stage::Runs | Stage::Awaits(_) => false,
        Stage::Ended(_) => true,
    }
}

/// Makes units, at most so many, up to the end of the run, and answers how many they were.
///
/// # Errors
/// Want of memory. Nothing is said then of the machine and of what the host holds.
pub fn make_units<H: Host>(
    machine: &mut Machine,
    host: &mut H,
    stage: &mut Stage,
    fuel: u64,
) -> Result<u64, AllocError>
    requires { IsAtCall machine.old stage.old }
    ensures turn { IfOk result (λ made. IsTurn H.effect fuel made (stands machine.old (H.held host.old) stage.old) (stands machine.new (H.held host.new) stage.new)) }
    ensures at_call { OnOk result (IsAtCall machine.new stage.new) }
    ensures schedule { IsSchedule machine.old.costs }
{
    let _costs = machine.costs.forms();
    let mut made = 0u64;
    'units: while made < fuel {
        let (more, next) = make_more(machine, host, *stage, fuel - made)?;
        made += more;
        *stage = next;
        if has_ended(next) {
            return Ok(made);
        }
    }
    Ok(made)
}
