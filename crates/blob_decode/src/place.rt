// What a program keeps of each place of its code.
use pvm_isa::Op;

/// What stands at a place of the code, found once for all when the program is read.
#[derive(Clone, Copy)]
pub struct Place {
    /// The opcode of the instruction there; `Trap` where none with a defined opcode begins.
    pub op: Op,
    /// How many bytes of arguments it has, at most 24.
    pub skip: u8,
    /// The numbers of registers A and B, and the lower half of the immediate X, as an instruction of two registers and
    /// an immediate has them.
    pub a: u8,
    pub b: u8,
    pub x: u32,
    /// Whether a block begins there.
    pub starts: bool,
}
