//! Gas, which is neither made nor lost, and what costs it.
#![tactic(auto)]

mod laws;
mod ledger;
mod schedule;

pub use laws::schedule_laws;
pub use ledger::Ledger;
pub use schedule::Schedule;
