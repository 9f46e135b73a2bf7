//! Runs whose calls cost more than 10.
use crate::pauses::{THREE_CALLS, advances, has_come_to};
use crate::teller::{Teller, machine};
use blob_decode::ProgramRefusal;
use gas_ledger::Schedule;
use pvm_invoke::Invocation;
use pvm_step::{Exit, Progress};
use std::alloc::Global;
use std::process::Abort;
use std::test::Fail;

// The forms 2 and 6 cost 3 and 4, and the others 1. Call 0 costs 15, 1 costs 10, and 9 costs 300; the others cost 12.
fn schedule() -> Option<Schedule> {
    let mut calls = [12; 28];
    calls[0] = 15;
    calls[1] = 10;
    calls[9] = 300;
    Schedule::of([1, 3, 1, 1, 1, 4, 1, 1, 1, 1, 1, 1, 1], calls)
}

fn scheduled(alloc: Global, gas: u64) -> Result<Invocation<Teller>, ProgramRefusal> {
    let mut machine = machine(alloc, &THREE_CALLS, gas)?;
    if let Some(costs) = schedule() {
        machine.set_costs(costs);
    }
    Ok(Invocation::new(machine, Teller { calls: 0 }))
}

#[test]
fn each_unit_costs_what_the_schedule_has(rt: HostRuntime) -> Result<(), Fail> {
    let mut run = scheduled(rt.alloc(), 1000)?;
    let rows = [(996, 3), (993, 3), (978, 5), (975, 5), (675, 7), (672, 7)];
    for (left, pc) in rows {
        advances(&rt, &mut run, 1, (1, Progress::Paused, left, pc))?;
    }
    advances(&rt, &mut run, 1, (1, Progress::Ended(Exit::Panic), 662, 7))?;
    has_come_to(&rt, run, (Exit::Panic, 338, 662, 7, 3))?;
    Ok(())
}

fn is_out_of_gas(
    rt: &impl Abort,
    alloc: Global,
    (gas, units, pc, calls): (u64, u64, u64, u64),
) -> Result<(), ProgramRefusal> {
    let mut run = scheduled(alloc, gas)?;
    advances(
        rt,
        &mut run,
        100,
        (units, Progress::Ended(Exit::OutOfGas), 0, pc),
    )?;
    has_come_to(rt, run, (Exit::OutOfGas, gas, 0, pc, calls))?;
    Ok(())
}

#[test]
fn a_run_ends_where_a_part_of_a_cost_cannot_be_paid(rt: HostRuntime) -> Result<(), Fail> {
    // The first instruction; the ecalli; what call 0 costs beyond 10; its 10; then the next ecalli; what call 9 costs beyond 10; its 10.
    let rows = [
        (3, 0, 0, 0),
        (6, 1, 3, 0),
        (11, 2, 3, 0),
        (21, 2, 3, 0),
        (22, 3, 5, 1),
        (24, 3, 5, 1),
        (25, 4, 5, 1),
        (314, 4, 5, 1),
        (324, 4, 5, 1),
        (325, 5, 7, 2),
    ];
    for row in rows {
        is_out_of_gas(&rt, rt.alloc(), row)?;
    }
    Ok(())
}
