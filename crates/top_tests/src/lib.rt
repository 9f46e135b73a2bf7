//! Tests of whole calls.
#![tactic(auto)]

#[cfg(test)]
mod arguments;
#[cfg(test)]
mod calls;
#[cfg(test)]
mod states;
