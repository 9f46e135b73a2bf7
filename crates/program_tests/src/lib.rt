//! Tests of standard programs by their public calls.
#![tactic(auto)]

#[cfg(test)]
mod layouts;
#[cfg(test)]
mod refusals;
