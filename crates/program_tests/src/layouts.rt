//! The memory, registers and heap of first machines.
use paged_memory::{Access, Memory, Rights};
use program_init::{read_standard, split, start};
use std::alloc::AllocError;
use std::process::Abort;

/// 5 bytes to read, 3 to write, 2 pages of heap, 4,097 bytes of stack; trap.
const LAID_OUT: [u8; 28] = [
    5, 0, 0, 3, 0, 0, 2, 0, 1, 16, 0, 11, 12, 13, 14, 15, 21, 22, 23, 5, 0, 0, 0, 0, 0, 1, 0, 1,
];

fn has_byte(rt: &impl Abort, memory: &Memory, addr: u32, wanted: Result<u64, Access>) {
    assert_eq!(rt; memory.load(addr, 1), wanted, "at {addr}");
}

fn has_rights(rt: &impl Abort, memory: &Memory, first: u32, rights: [Rights; 3]) {
    for k in 0..3u32 {
        assert_eq!(rt;
            memory.rights(first.wrapping_add(k)),
            rights[k as usize],
            "page {k} from {first}"
        );
    }
}

#[test]
fn each_area_has_its_bounds_and_bytes(rt: HostRuntime) -> Result<(), AllocError> {
    let Ok(machine) = start(rt.alloc(), &LAID_OUT, 3, 77, &[9, 8]) else {
        panic!(rt; "no machine");
    };
    let (no, read, write) = (Rights::No, Rights::Read, Rights::Write);
    let rights: [(u32, [Rights; 3]); 7] = [
        (15, [no, read, no]),
        (47, [no, write, write]),
        (50, [write, no, no]),
        (1_044_445, [no, write, write]),
        (1_044_447, [write, no, no]),
        (1_044_463, [no, read, no]),
        (1_048_573, [no, no, no]),
    ];
    for (first, rights) in rights {
        has_rights(&rt, &machine.memory, first, rights);
    }
    let rows: [(u32, u64); 10] = [
        (65_536, 11),
        (65_540, 15),
        (65_541, 0),
        (196_608, 21),
        (196_610, 23),
        (196_611, 0),
        (208_895, 0),
        (4_278_059_007, 0),
        (4_278_124_544, 9),
        (4_278_124_546, 0),
    ];
    for (addr, byte) in rows {
        has_byte(&rt, &machine.memory, addr, Ok(byte));
    }
    has_byte(&rt, &machine.memory, 208_896, Err(Access::Fault(208_896)));
    assert_eq!(rt; (machine.pc, machine.ledger.left()), (3, 77));
    assert_eq!(rt;
        (machine.heap.next(), machine.heap.end()),
        (208_896, 4_277_927_936)
    );
    assert_eq!(rt;
        machine.registers,
        [
            4_294_901_760,
            4_278_059_008,
            0,
            0,
            0,
            0,
            0,
            4_278_124_544,
            2,
            0,
            0,
            0,
            0
        ]
    );
    Ok(())
}

#[test]
fn a_program_that_was_read_starts_as_its_bytes(rt: HostRuntime) -> Result<(), AllocError> {
    let alloc = rt.alloc();
    let Ok(program) = read_standard(alloc, &LAID_OUT) else {
        panic!(rt; "not read");
    };
    let Ok(machine) = program.start(alloc, 4, 5, &[1]) else {
        panic!(rt; "no machine");
    };
    has_byte(&rt, &machine.memory, 65_536, Ok(11));
    has_byte(&rt, &machine.memory, 196_609, Ok(22));
    assert_eq!(rt; (machine.pc, machine.ledger.left()), (4, 5));
    assert_eq!(rt; machine.registers[8], 1);
    let Ok(parts) = split(&LAID_OUT) else {
        panic!(rt; "not split");
    };
    assert_eq!(rt; parts.ro, &[11, 12, 13, 14, 15][..]);
    assert_eq!(rt; parts.rw, &[21, 22, 23][..]);
    assert_eq!(rt; parts.code, &[0, 0, 1, 0, 1][..]);
    assert_eq!(rt; (parts.heap_pages, parts.stack), (2, 4097));
    Ok(())
}
