//! The ends of runs.
use crate::pauses::{advances, has_come_to, turn};
use crate::teller::{Teller, invocation, machine};
use blob_decode::ProgramRefusal;
use paged_memory::Rights;
use pvm_invoke::Invocation;
use pvm_step::{Exit, Progress};
use std::alloc::Global;
use std::process::Abort;
use std::test::Fail;

// load_imm r0, 2^64 - 65536; jump_ind r0.
const HALTS: [u8; 11] = [0, 0, 7, 0x33, 0, 0, 0, 0xff, 0x32, 0, 0x21];

// ecalli 2; trap.
const CALLS_2: [u8; 7] = [0, 0, 3, 0x0a, 2, 0, 5];

// ecalli 3; trap.
const CALLS_3: [u8; 7] = [0, 0, 3, 0x0a, 3, 0, 5];

// ecalli 4; trap.
const CALLS_4: [u8; 7] = [0, 0, 3, 0x0a, 4, 0, 5];

#[test]
fn a_call_may_end_out_of_gas_and_is_a_unit(rt: HostRuntime) -> Result<(), Fail> {
    let mut run = invocation(rt.alloc(), &CALLS_2, 100)?;
    advances(&rt, &mut run, 1, (1, Progress::Paused, 99, 0))?;
    advances(&rt, &mut run, 9, (1, Progress::Ended(Exit::OutOfGas), 0, 0))?;
    has_come_to(&rt, run, (Exit::OutOfGas, 100, 0, 0, 1))?;
    Ok(())
}

#[test]
fn a_call_that_is_not_paid_is_no_unit(rt: HostRuntime) -> Result<(), Fail> {
    let mut run = invocation(rt.alloc(), &CALLS_3, 100)?;
    advances(&rt, &mut run, 9, (1, Progress::Ended(Exit::OutOfGas), 0, 0))?;
    has_come_to(&rt, run, (Exit::OutOfGas, 100, 0, 0, 0))?;
    Ok(())
}

#[test]
fn after_want_of_memory_there_is_no_turn(rt: HostRuntime) -> Result<(), Fail> {
    for fuel in 1..3 {
        let mut run = invocation(rt.alloc(), &CALLS_4, 100)?;
        advances(&rt, &mut run, 1, (1, Progress::Paused, 99, 0))?;
        for next in [fuel, 0, 5] {
            assert!(rt; turn(&mut run, next).is_err(), "fuel {next}");
            assert!(rt; !run.has_ended());
        }
    }
    Ok(())
}

fn hands_out(rt: &impl Abort, alloc: Global) -> Result<(), ProgramRefusal> {
    let mut machine = machine(alloc, &HALTS, 10)?;
    machine.memory.set_pages(16, 1, Rights::Read, false)?;
    if machine.memory.readable(65_536, 3) {
        machine.memory.fill(65_536, &[7, 8, 9])?;
    }
    machine.registers[7] = 65_537;
    machine.registers[8] = 3;
    let mut run = Invocation::new(machine, Teller { calls: 0 });
    advances(
        rt,
        &mut run,
        u64::MAX,
        (2, Progress::Ended(Exit::Halt), 8, 5),
    )?;
    let outcome = has_come_to(rt, run, (Exit::Halt, 2, 8, 5, 0))?;
    assert_eq!(rt; outcome.output.as_slice(), &[8, 9, 0][..]);
    assert_eq!(rt; outcome.registers[0], 18_446_744_073_709_486_080);
    Ok(())
}

#[test]
fn a_run_that_halts_hands_out_bytes(rt: HostRuntime) -> Result<(), Fail> {
    hands_out(&rt, rt.alloc())?;
    Ok(())
}
