//! The values of the operations of the Polkadot Virtual Machine.
#![tactic(auto)]

mod alu;
mod arithmetic;
mod bits;
mod shifts;
mod words;

pub use alu::{binary, test, unary, widen};
