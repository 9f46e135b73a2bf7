//! The bytes of a machine's pages. A page has a frame only where it was written.
#![tactic(auto)]

mod frame;
mod frames;
mod pages;
mod ranges;
mod table;

pub use frames::Frames;
