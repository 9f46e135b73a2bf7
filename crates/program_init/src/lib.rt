//! Standard programs: what they are made of, and the machine that each begins with.
#![tactic(auto)]

mod decoding;
mod head;
mod laws;
mod layout;
mod parts;
mod reading;
mod refusal;
mod registers;
mod standard;
mod starting;

pub use decoding::read_standard;
pub use laws::standard_laws;
pub use parts::Parts;
pub use reading::split;
pub use refusal::{NotStandard, StartRefusal};
pub use standard::StandardProgram;
pub use starting::{start, start_with};
