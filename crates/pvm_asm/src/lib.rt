//! The assembler: texts to program blobs, standard programs and code preimages.
#![tactic(auto)]

mod alone;
mod assembly;
mod encode;
mod fits;
mod given;
mod image;
mod instruction;
mod keyword;
mod kind;
mod labels;
mod laws;
mod line;
mod numeral;
mod opcode;
mod refusal;
mod survey;
mod word;
mod words;

pub use alone::operands_code;
pub use assembly::assemble;
pub use instruction::{Operand, form_operands};
pub use kind::{AsmKind, kind_text};
pub use laws::size_law;
pub use refusal::AsmRefusal;
