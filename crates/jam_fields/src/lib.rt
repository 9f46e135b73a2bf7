//! Fields of files: readers and writers of values, of lists and of maps, by their formats.
#![tactic(auto)]

mod blob;
mod field;
mod file;
mod list;
mod number;
mod option;
mod row;

pub use blob::Blob;
pub use field::{Field, Spell};
pub use file::{read_file, read_file_with_tail, write_file};
pub use list::{read_list, write_items, write_list};
pub use number::read_natural;
pub use row::{Row, read_rows};
