//! Files of states.
#![tactic(auto)]

mod account;
mod file;
mod laws;
mod lookups;
mod preimages;
mod storage;

pub use file::{read_state, write_state};
pub use laws::state_laws;
