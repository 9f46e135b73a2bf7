// The first registers and the first heap.
ghost use Rattle.std.specs.Prelude.{◌≡◌};
ghost use Rattle.program_init.specs.Read.{plain_parts};
ghost use Rattle.program_init.specs.FirstState.{first_registers, first_heap};

use crate::layout::{ARGUMENTS_START, STACK_END, ZONE, in_zones, writable_size, writable_start};
use crate::parts::Parts;
use pvm_step::Heap;

/// The registers where there are so many bytes of arguments.
pub fn first_registers(args: &[u8]) -> [u64; 13]
    ensures { result ≡ first_registers args.now }
{
    let mut registers = [0; 13];
    registers[0] = (1 << 32) - ZONE;
    registers[1] = STACK_END;
    registers[7] = ARGUMENTS_START;
    registers[8] = args.len() as u64;
    registers
}

/// The heap.
pub fn first_heap(parts: &Parts<'_>) -> Heap
    ensures { result ≡ first_heap (plain_parts parts.now) }
{
    let next = writable_start(parts) + writable_size(parts);
    let end = (1 << 32) - 3 * ZONE - (1 << 24) - in_zones(u64::from(parts.stack));
    Heap::new(next, end)
}
