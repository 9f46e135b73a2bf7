//! The general host calls: gas, fetch, lookup, read, write, info, and what every other number answers.
#![tactic(auto)]

mod deposits;
mod general;
mod info;
mod inputs;
mod named;
mod write;

pub use deposits::{drop_overdraws, history_overdraws, own_view, put_overdraws};
pub use general::{call_fetch, call_gas, call_info, call_lookup, call_read, call_unknown};
pub use inputs::Inputs;
pub use write::call_write;
