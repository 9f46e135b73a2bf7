//! Tests of contexts by their public calls.
#![tactic(auto)]

#[cfg(test)]
mod new_ids;
