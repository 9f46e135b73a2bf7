//! What a batch makes of a state.
#![tactic(auto)]

mod deliveries;
mod laws;
mod posterior;

pub use laws::deliveries_law;
pub use posterior::{Posterior, accumulate_batch};
