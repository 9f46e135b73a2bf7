//! Tests of invocations by their public calls, over a small host of their own.
#![tactic(auto)]

#[cfg(test)]
mod ends;
#[cfg(test)]
mod pauses;
#[cfg(test)]
mod schedules;
#[cfg(test)]
mod teller;
