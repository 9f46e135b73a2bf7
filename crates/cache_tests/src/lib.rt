//! Tests of the program cache by its public calls.
#![tactic(auto)]

#[cfg(test)]
mod programs;
