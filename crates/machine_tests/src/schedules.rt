//! Runs under a schedule.
use crate::runs::{has_registers, is_at, machine, pass_ecalli, runs};
use blob_decode::ProgramRefusal;
use gas_ledger::Schedule;
use pvm_step::{Exit, Machine, Progress};
use std::alloc::Global;
use std::process::Abort;
use std::test::Fail;

// load_imm r7, 42; jump to the next; add_64 r8, r7, r7; ecalli 5.
const FOUR_FORMS: [u8; 15] = [
    0, 0, 10, 0x33, 7, 42, 0x28, 2, 0xc8, 0x77, 8, 0x0a, 5, 0x29, 0x01,
];

// The forms 2, 5 and 6 cost 3, 2 and 4, and the others 1: the program's instructions cost 4, 2, 1 and 3.
fn schedule() -> Option<Schedule> {
    Schedule::of([1, 3, 1, 1, 2, 4, 1, 1, 1, 1, 1, 1, 1], [10; 28])
}

fn scheduled(alloc: Global, gas: u64) -> Result<Machine, ProgramRefusal> {
    let mut machine = machine(alloc, &FOUR_FORMS, gas)?;
    if let Some(costs) = schedule() {
        machine.set_costs(costs);
    }
    Ok(machine)
}

type Row = (u64, u64, Progress, u64, u64, u64);

fn ends_so(
    rt: &impl Abort,
    alloc: Global,
    (gas, fuel, wanted, pc, left, sum): Row,
) -> Result<(), ProgramRefusal> {
    let mut machine = scheduled(alloc, gas)?;
    runs(rt, &mut machine, fuel, wanted)?;
    is_at(rt, &machine, pc, left);
    has_registers(rt, &machine, &[(8, sum)]);
    Ok(())
}

#[test]
fn each_form_is_paid(rt: HostRuntime) -> Result<(), Fail> {
    let out = Progress::Ended(Exit::OutOfGas);
    let host = Progress::Ended(Exit::Host(5));
    let rows: [Row; 9] = [
        (50, 100, host, 8, 40, 84),
        (50, 4, host, 8, 40, 84),
        (50, 3, Progress::Paused, 8, 43, 84),
        (50, 2, Progress::Paused, 5, 44, 0),
        (10, 100, host, 8, 0, 84),
        (9, 100, out, 8, 0, 84),
        (6, 100, out, 5, 0, 0),
        (5, 100, out, 3, 0, 0),
        (3, 100, out, 0, 0, 0),
    ];
    for row in rows {
        ends_so(&rt, rt.alloc(), row)?;
    }
    Ok(())
}

// Past the code a trap acts, of form 1.
fn past_the_code(rt: &impl Abort, alloc: Global) -> Result<(), ProgramRefusal> {
    let mut machine = scheduled(alloc, 11)?;
    runs(rt, &mut machine, 100, Progress::Ended(Exit::Host(5)))?;
    pass_ecalli(&mut machine);
    runs(rt, &mut machine, 100, Progress::Ended(Exit::Panic))?;
    is_at(rt, &machine, 10, 0);
    runs(rt, &mut machine, 100, Progress::Ended(Exit::OutOfGas))?;
    is_at(rt, &machine, 10, 0);
    Ok(())
}

// With the plain schedule again, each instruction costs 1.
fn plain_again(rt: &impl Abort, alloc: Global) -> Result<(), ProgramRefusal> {
    let mut machine = scheduled(alloc, 50)?;
    runs(rt, &mut machine, 1, Progress::Paused)?;
    is_at(rt, &machine, 3, 46);
    machine.set_costs(Schedule::plain());
    runs(rt, &mut machine, 100, Progress::Ended(Exit::Host(5)))?;
    is_at(rt, &machine, 8, 43);
    Ok(())
}

#[test]
fn schedules_are_changed_on_the_way(rt: HostRuntime) -> Result<(), Fail> {
    past_the_code(&rt, rt.alloc())?;
    plain_again(&rt, rt.alloc())?;
    Ok(())
}

fn step_so(rt: &impl Abort, alloc: Global) -> Result<(), ProgramRefusal> {
    let mut machine = scheduled(alloc, 5)?;
    let went = machine.step()?;
    assert_eq!(rt; went, None);
    is_at(rt, &machine, 3, 1);
    let short = machine.step()?;
    assert_eq!(rt; short, Some(Exit::OutOfGas));
    is_at(rt, &machine, 3, 0);
    Ok(())
}

#[test]
fn a_step_is_paid(rt: HostRuntime) -> Result<(), Fail> {
    step_so(&rt, rt.alloc())?;
    Ok(())
}
