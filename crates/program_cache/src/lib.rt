//! Programs that were read before.
#![tactic(auto)]

mod cache;

pub use cache::Cache;
