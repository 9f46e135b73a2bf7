//! Runs of whole programs.
use blob_decode::{Program, ProgramRefusal};
use paged_memory::Rights;
use pvm_isa::Op;
use pvm_step::{Exit, Heap, Machine, Progress};
use std::alloc::{AllocError, Global};
use std::process::Abort;
use std::rc::Rc;
use std::test::Fail;

// load_imm r7, 42; load_imm r0, 2^64 - 65536; jump_ind r0.
const HALTS: [u8; 15] = [
    0, 0, 10, 0x33, 7, 42, 0x33, 0, 0, 0, 0xff, 0x32, 0, 0x09, 0x01,
];

// load_imm r0, 5000; sbrk r1, r0; store_ind_u64 r0, r1; load_ind_u64 r2, r1; trap.
const GROWS: [u8; 16] = [
    0, 0, 11, 0x33, 0, 0x88, 0x13, 0x65, 0x01, 0x7b, 0x10, 0x82, 0x12, 0, 0x51, 0x05,
];

// load_imm r0, 20480; sbrk r1, r0; store_ind_u8 r0 at r1 and at each of the four pages after it; load_ind_u8 r2 from
// the last; trap.
const FIVE_PAGES: [u8; 36] = [
    0x00, 0x00, 0x1d, 0x33, 0x00, 0x00, 0x50, 0x65, 0x01, 0x78, 0x10, 0x78, 0x10, 0x00, 0x10, 0x78,
    0x10, 0x00, 0x20, 0x78, 0x10, 0x00, 0x30, 0x78, 0x10, 0x00, 0x40, 0x7c, 0x12, 0x00, 0x40, 0x00,
    0x51, 0x11, 0x11, 0x11,
];

fn shared(alloc: Global, program: Program) -> Result<Rc<Program>, AllocError> {
    let shared = Rc::new(alloc, program)?;
    Ok(shared)
}

pub(crate) fn machine(alloc: Global, blob: &[u8], gas: u64) -> Result<Machine, ProgramRefusal> {
    let program = Program::deblob(alloc, blob)?;
    let program = shared(alloc, program)?;
    Ok(Machine::raw(alloc, program, 0, gas))
}

pub(crate) fn with_heap(
    alloc: Global,
    blob: &[u8],
    gas: u64,
    heap: Heap,
) -> Result<Machine, ProgramRefusal> {
    let mut machine = machine(alloc, blob, gas)?;
    machine.heap = heap;
    Ok(machine)
}

fn run(machine: &mut Machine, fuel: u64) -> Result<Progress, AllocError> {
    machine.run(fuel)
}

// A run of so many steps at most goes so.
pub(crate) fn runs(
    rt: &impl Abort,
    machine: &mut Machine,
    fuel: u64,
    wanted: Progress,
) -> Result<(), AllocError> {
    let progress = run(machine, fuel)?;
    assert_eq!(rt; progress, wanted);
    Ok(())
}

// The machine is at this place and has so much gas left.
pub(crate) fn is_at(rt: &impl Abort, machine: &Machine, pc: u64, left: u64) {
    assert_eq!(rt; (machine.pc, machine.ledger.left()), (pc, left));
}

fn has_heap(rt: &impl Abort, machine: &Machine, next: u64, end: u64) {
    assert_eq!(rt; (machine.heap.next(), machine.heap.end()), (next, end));
}

pub(crate) fn has_registers(rt: &impl Abort, machine: &Machine, wanted: &[(usize, u64)]) {
    for &(register, value) in wanted {
        assert!(rt; register < 13);
        assert_eq!(rt; machine.registers[register], value, "register {register}");
    }
}

fn ends(
    rt: &impl Abort,
    alloc: Global,
    (blob, gas, exit, pc, left): (&[u8], u64, Exit, u64, u64),
) -> Result<(), ProgramRefusal> {
    let mut machine = machine(alloc, blob, gas)?;
    runs(rt, &mut machine, u64::MAX, Progress::Ended(exit))?;
    is_at(rt, &machine, pc, left);
    has_registers(rt, &machine, &[(2, 0)]);
    Ok(())
}

#[test]
fn runs_end_so(rt: HostRuntime) -> Result<(), Fail> {
    let rows: [(&[u8], u64, Exit, u64, u64); 5] = [
        (&HALTS, 100, Exit::Halt, 8, 97),
        (&[0, 0, 3, 0x38, 1, 0xfe, 1], 10, Exit::Panic, 0, 9),
        (
            &[0, 0, 5, 0x34, 1, 0, 0, 1, 1],
            10,
            Exit::Fault(65_536),
            0,
            9,
        ),
        (&[0, 0, 2, 0x0a, 7, 1], 10, Exit::Host(7), 0, 9),
        (&[0, 0, 2, 0x65, 0x82, 1], 10, Exit::Panic, 2, 8),
    ];
    for row in rows {
        ends(&rt, rt.alloc(), row)?;
    }
    Ok(())
}

#[test]
fn a_run_pauses_and_goes_on(rt: HostRuntime) -> Result<(), Fail> {
    let mut paused = machine(rt.alloc(), &HALTS, 100)?;
    runs(&rt, &mut paused, 2, Progress::Paused)?;
    is_at(&rt, &paused, 8, 98);
    runs(&rt, &mut paused, 2, Progress::Ended(Exit::Halt))?;
    has_registers(&rt, &paused, &[(0, 18_446_744_073_709_486_080), (7, 42)]);
    let mut spent = machine(rt.alloc(), &HALTS, 2)?;
    runs(&rt, &mut spent, 2, Progress::Paused)?;
    runs(&rt, &mut spent, 1, Progress::Ended(Exit::OutOfGas))?;
    is_at(&rt, &spent, 8, 0);
    Ok(())
}

fn has_rights(rt: &impl Abort, machine: &Machine, page: u32, rights: Rights) {
    assert_eq!(rt; machine.memory.rights(page), rights, "of page {page}");
}

// The output is what the registers 7 and 8 say: its place and its length.
pub(crate) fn gives_output(
    rt: &impl Abort,
    machine: &mut Machine,
    (place, length): (u64, u64),
    wanted: &[u8],
) -> Result<(), AllocError> {
    machine.registers[7] = place;
    machine.registers[8] = length;
    let output = machine.output()?;
    assert_eq!(rt; output.as_slice(), wanted);
    Ok(())
}

fn has_grown(rt: &impl Abort, machine: &Machine) {
    is_at(rt, machine, 10, 5);
    has_registers(rt, machine, &[(1, 69_630), (2, 5000)]);
    has_heap(rt, machine, 74_630, 1 << 20);
    let rights = [
        (15, Rights::No),
        (16, Rights::Write),
        (17, Rights::Write),
        (18, Rights::Write),
        (19, Rights::No),
    ];
    for (page, right) in rights {
        has_rights(rt, machine, page, right);
    }
}

fn the_heap_grows(rt: &impl Abort, alloc: Global) -> Result<(), ProgramRefusal> {
    let heap = Heap::new(69_630, 1 << 20);
    let mut grown = with_heap(alloc, &GROWS, 10, heap)?;
    runs(rt, &mut grown, 10, Progress::Ended(Exit::Panic))?;
    has_grown(rt, &grown);
    gives_output(rt, &mut grown, (69_630, 4), &[0x88, 0x13, 0, 0])?;
    gives_output(rt, &mut grown, (69_630, 1 << 40), &[])?;
    Ok(())
}

fn a_full_heap_stays(rt: &impl Abort, alloc: Global) -> Result<(), ProgramRefusal> {
    let heap = Heap::new(65_536, 70_535);
    let mut full = with_heap(alloc, &GROWS, 10, heap)?;
    runs(rt, &mut full, 2, Progress::Paused)?;
    has_registers(rt, &full, &[(1, 0)]);
    has_heap(rt, &full, 65_536, 70_535);
    has_rights(rt, &full, 16, Rights::No);
    Ok(())
}

#[test]
fn the_heap_grows_by_pages(rt: HostRuntime) -> Result<(), Fail> {
    the_heap_grows(&rt, rt.alloc())?;
    a_full_heap_stays(&rt, rt.alloc())?;
    Ok(())
}

fn steps(rt: &impl Abort, machine: &mut Machine, wanted: Option<Exit>) -> Result<(), AllocError> {
    let exit = machine.step()?;
    assert_eq!(rt; exit, wanted);
    Ok(())
}

pub(crate) fn pass_ecalli(machine: &mut Machine) {
    if let Op::Ecalli = machine.program.op_at(machine.pc) {
        machine.pass_ecalli();
    }
}

#[test]
fn a_host_call_is_passed(rt: HostRuntime) -> Result<(), Fail> {
    let mut machine = machine(rt.alloc(), &[0, 0, 2, 0x0a, 7, 1], 10)?;
    steps(&rt, &mut machine, Some(Exit::Host(7)))?;
    pass_ecalli(&mut machine);
    is_at(&rt, &machine, 2, 9);
    Ok(())
}

// tests/failing-stores runs it with each allocation failing in turn.
#[test]
fn five_pages_are_stored_to(rt: HostRuntime) -> Result<(), Fail> {
    let heap = Heap::new(65_536, 1 << 20);
    let mut grown = with_heap(rt.alloc(), &FIVE_PAGES, 100, heap)?;
    runs(&rt, &mut grown, 100, Progress::Ended(Exit::Panic))?;
    is_at(&rt, &grown, 28, 91);
    has_registers(&rt, &grown, &[(1, 65_536), (2, 0)]);
    has_heap(&rt, &grown, 86_016, 1 << 20);
    Ok(())
}

// sbrk r2, r1.
const SBRK: [u8; 6] = [0, 0, 2, 0x65, 0x12, 1];

// tests/failing-stores runs it with each allocation failing in turn.
#[test]
fn a_heap_grows_or_all_is_as_before(rt: HostRuntime) -> Result<(), Fail> {
    let heap = Heap::new(65_536, 1 << 20);
    let mut grown = with_heap(rt.alloc(), &SBRK, 100, heap)?;
    grown.registers[1] = 4096;
    match grown.step() {
        Ok(exit) => {
            assert!(rt; exit.is_none());
            is_at(&rt, &grown, 2, 99);
            has_registers(&rt, &grown, &[(1, 4096), (2, 65_536)]);
            has_heap(&rt, &grown, 69_632, 1 << 20);
            Ok(())
        }
        Err(error) => {
            is_at(&rt, &grown, 0, 100);
            has_registers(&rt, &grown, &[(1, 4096), (2, 0)]);
            has_heap(&rt, &grown, 65_536, 1 << 20);
            Err(Fail::from(error))
        }
    }
}
