//! The rights of a machine's pages, kept in few runs of pages with one right.
#![tactic(auto)]

mod changes;
mod laws;
mod parts;
mod rights;
mod runs;
mod span;

pub use laws::range_laws;
pub use rights::Rights;
pub use runs::Runs;
