//! The numbers that bytes spell, with the least significant byte first, and their signs.
#![tactic(auto)]

mod laws;

pub use laws::{number_laws, place_laws, sign_laws};
