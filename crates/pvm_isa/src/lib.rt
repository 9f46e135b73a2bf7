//! The instruction set of the Polkadot Virtual Machine: its opcodes and their arguments.
#![tactic(auto)]

mod arguments;
mod bytes;
mod form;
mod laws;
mod op;
mod opcodes;
mod windows;

pub use arguments::{
    Args, args_of, no_arguments, one_immediate, one_offset, register_and_immediate,
    register_and_two_immediates, register_and_wide_immediate, register_immediate_and_offset,
    three_registers, two_immediates, two_registers, two_registers_and_immediate,
    two_registers_and_offset, two_registers_and_two_immediates,
};
pub use bytes::at_distance;
pub use form::Form;
pub use laws::opcode_laws;
pub use op::Op;
pub use opcodes::{form_of, is_terminator, name_of, number_of, op_named, op_of, op_or_trap};
pub use windows::{
    code_window, extended, immediate_before_offset_in, register_and_immediate_in,
    register_immediate_and_offset_in, short_immediate_in, target_of_offset_in, third_register_in,
    three_registers_in, two_registers_and_immediate_in, two_registers_and_offset_in,
    two_registers_in, whole_window,
};
