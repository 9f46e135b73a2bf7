//! Spellings of numbers, bytes and bits, and a cursor that reads them.
#![tactic(auto)]

mod cursor;
mod laws;
mod natural;
mod refusal;
mod spare;
mod writing;

pub use cursor::{Cursor, Malformed};
pub use laws::{field_laws, joined_laws, natural_spelling_laws, one_spelling_laws};
pub use natural::number_of;
pub use refusal::FileRefusal;
pub use writing::{push_bits, push_blob, push_fixed, push_natural, spell_natural};
