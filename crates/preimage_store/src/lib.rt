//! The history of a preimage: at most three time slots.
#![tactic(auto)]

mod history;

pub use history::{EXPUNGE_PERIOD, Forgot, History, Huh, forget, solicit};
