//! Tests of accounts and states by their public calls.
#![tactic(auto)]

#[cfg(test)]
mod accounts;
#[cfg(test)]
mod histories;
#[cfg(test)]
mod states;
