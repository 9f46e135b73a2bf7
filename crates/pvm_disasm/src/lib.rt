//! The listing: program blobs to texts that assemble to them.
#![tactic(auto)]

mod laws;
mod listing;
mod operands;
mod unit;

pub use laws::listing_law;
pub use listing::{ListRefusal, list, list_program};
