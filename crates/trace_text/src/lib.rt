//! The lines that commands print, as data, and the bytes that they are.
#![tactic(auto)]

mod front;
mod last;
mod line;
mod outcome;
mod spelling;
mod state;
mod tracing;

pub use front::Front;
pub use line::Line;
pub use outcome::outcome_lines;
pub use spelling::spell_lines;
pub use state::{spell_state, state_lines};
pub use tracing::{TraceOutcome, trace};
