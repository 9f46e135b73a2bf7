//! Invocations: a machine with a host, unit by unit, and what its run comes to.
#![tactic(auto)]

mod advance;
mod counter;
mod finished;
mod host;
mod invocation;
mod laws;
mod outcome;
mod stage;
mod turns;

pub use advance::Advance;
pub use finished::{Finished, Ran};
pub use host::Host;
pub use invocation::Invocation;
pub use laws::{turn_laws, unit_laws};
pub use outcome::Outcome;
pub use stage::Stage;
