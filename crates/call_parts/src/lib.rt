//! What host calls have in common: their results, what they cost, and the memory that they take in and give out.
#![tactic(auto)]

mod memory;
mod results;

pub use memory::{bytes_in, give, hash_in};
pub use results::{
    CALL_CHARGE, CASH, FULL, HUH, LOW, NONE, OK, OOB, WHAT, WHO, answer, charge, service_named,
};
