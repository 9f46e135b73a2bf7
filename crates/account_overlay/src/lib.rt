//! The context of an invocation as changes over the state, with a journal by which they are undone.
#![tactic(auto)]

mod histories;
mod issued;
mod kept;
mod layer;
mod others;
mod overlay;
mod own;
mod values;

pub use overlay::Overlay;
