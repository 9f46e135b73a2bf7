//! A machine of the Polkadot Virtual Machine: one step, and a run.
#![tactic(auto)]

mod accesses;
mod act;
mod address;
mod attempt;
mod control;
mod effects;
mod ending;
mod exit;
mod form;
mod heap;
mod laws;
mod machine;
mod operations;
mod watcher;

pub use exit::{Exit, HostStep, Progress};
pub use heap::Heap;
pub use laws::{effect_laws, history_laws, run_laws};
pub use machine::Machine;
pub use watcher::{Blind, PaidInstruction, Watcher};
