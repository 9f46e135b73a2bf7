//! Tests of the assembler and of the listing by their public calls.
#![tactic(auto)]

#[cfg(test)]
mod listings;
#[cfg(test)]
mod texts;
