//! Program blobs: the code, its mask and its jump table.
#![tactic(auto)]

mod laws;
mod parts;
mod place;
mod program;

pub use laws::{blob_laws, skip_law, start_law};
pub use program::{Fetched, Program, ProgramRefusal};
