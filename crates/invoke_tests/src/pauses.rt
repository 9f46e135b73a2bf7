//! Turns of any fuel.
use crate::teller::{Teller, invocation};
use blob_decode::ProgramRefusal;
use pvm_invoke::{Advance, Invocation, Outcome};
use pvm_step::{Exit, Progress};
use std::alloc::{AllocError, Global};
use std::process::Abort;
use std::test::Fail;

// load_imm r8, 5; ecalli 0; ecalli 9; ecalli 1.
pub(crate) const THREE_CALLS: [u8; 14] = [0, 0, 9, 0x33, 8, 5, 0x0a, 0, 0x0a, 9, 0x0a, 1, 0xa9, 0];

pub(crate) fn turn(invocation: &mut Invocation<Teller>, fuel: u64) -> Result<Advance, AllocError> {
    invocation.advance(fuel)
}

// A turn of this fuel makes so many units, comes to this, and leaves so much gas at this place.
pub(crate) fn advances(
    rt: &impl Abort,
    invocation: &mut Invocation<Teller>,
    fuel: u64,
    (units, progress, left, pc): (u64, Progress, u64, u64),
) -> Result<(), AllocError> {
    let turn = turn(invocation, fuel)?;
    assert_eq!(rt; turn, Advance { units, progress }, "fuel {fuel}");
    assert_eq!(rt; invocation.view(), (left, pc), "fuel {fuel}");
    assert_eq!(rt; invocation.has_ended(), progress != Progress::Paused);
    Ok(())
}

// The end of a run that has ended.
pub(crate) fn finish(
    rt: &impl Abort,
    invocation: Invocation<Teller>,
) -> Result<(Outcome, Teller), AllocError> {
    if !invocation.has_ended() {
        panic!(rt; "it has not ended");
    }
    invocation.finish()
}

// A run has come to this, after so many calls.
pub(crate) fn has_come_to(
    rt: &impl Abort,
    invocation: Invocation<Teller>,
    (exit, used, left, pc, calls): (Exit, u64, u64, u64, u64),
) -> Result<Outcome, AllocError> {
    let (outcome, teller) = finish(rt, invocation)?;
    assert_eq!(rt; outcome.exit, exit);
    assert_eq!(rt; (outcome.used, outcome.left, outcome.pc), (used, left, pc));
    assert_eq!(rt; teller.calls, calls);
    Ok(outcome)
}

const PANIC: Progress = Progress::Ended(Exit::Panic);

const OUT: Progress = Progress::Ended(Exit::OutOfGas);

#[test]
fn a_pause_stands_after_each_unit(rt: HostRuntime) -> Result<(), Fail> {
    let mut run = invocation(rt.alloc(), &THREE_CALLS, 100)?;
    advances(&rt, &mut run, 0, (0, Progress::Paused, 100, 0))?;
    let rows = [(99, 3), (98, 3), (88, 5), (87, 5), (77, 7), (76, 7)];
    for (left, pc) in rows {
        advances(&rt, &mut run, 1, (1, Progress::Paused, left, pc))?;
        advances(&rt, &mut run, 0, (0, Progress::Paused, left, pc))?;
    }
    advances(&rt, &mut run, 1, (1, PANIC, 66, 7))?;
    for fuel in 0..3 {
        advances(&rt, &mut run, fuel, (0, PANIC, 66, 7))?;
    }
    has_come_to(&rt, run, (Exit::Panic, 34, 66, 7, 3))?;
    Ok(())
}

fn ends_so_by_turns_of(rt: &impl Abort, alloc: Global, fuel: u64) -> Result<(), ProgramRefusal> {
    let mut run = invocation(alloc, &THREE_CALLS, 100)?;
    let mut units = 0u64;
    for _turn in 0..8 {
        let turn = turn(&mut run, fuel)?;
        units = units.wrapping_add(turn.units);
    }
    assert_eq!(rt; units, 7, "turns of {fuel}");
    let outcome = has_come_to(rt, run, (Exit::Panic, 34, 66, 7, 3))?;
    assert_eq!(rt;
        (outcome.registers[7], outcome.registers[8]),
        (2, 5),
        "turns of {fuel}"
    );
    Ok(())
}

#[test]
fn the_end_is_the_same_by_turns_of_any_fuel(rt: HostRuntime) -> Result<(), Fail> {
    for fuel in 1..10 {
        ends_so_by_turns_of(&rt, rt.alloc(), fuel)?;
    }
    ends_so_by_turns_of(&rt, rt.alloc(), u64::MAX)?;
    Ok(())
}

#[test]
fn a_cost_that_cannot_be_paid_is_no_unit(rt: HostRuntime) -> Result<(), Fail> {
    // With so much gas, so many units are made, and the next one would cost more.
    let rows = [
        (0, 0, 0, 0),
        (1, 1, 3, 0),
        (2, 2, 3, 0),
        (11, 2, 3, 0),
        (12, 3, 5, 1),
        (33, 6, 7, 2),
    ];
    for (gas, units, pc, calls) in rows {
        let mut run = invocation(rt.alloc(), &THREE_CALLS, gas)?;
        advances(&rt, &mut run, 100, (units, OUT, 0, pc))?;
        advances(&rt, &mut run, 100, (0, OUT, 0, pc))?;
        has_come_to(&rt, run, (Exit::OutOfGas, gas, 0, pc, calls))?;
    }
    Ok(())
}

#[test]
fn a_turn_of_just_so_many_units_pauses_before_it_is_out_of_gas(
    rt: HostRuntime,
) -> Result<(), Fail> {
    let mut run = invocation(rt.alloc(), &THREE_CALLS, 11)?;
    advances(&rt, &mut run, 2, (2, Progress::Paused, 9, 3))?;
    advances(&rt, &mut run, 1, (0, OUT, 0, 3))?;
    has_come_to(&rt, run, (Exit::OutOfGas, 11, 0, 3, 0))?;
    Ok(())
}
