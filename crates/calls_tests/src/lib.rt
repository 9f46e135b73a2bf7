//! Tests of contexts and of host calls, each call by itself, as scripts that are played over each kind of scope.
#![tactic(auto)]

#[cfg(test)]
mod accounts;
#[cfg(test)]
mod calls;
#[cfg(test)]
mod changes;
#[cfg(test)]
mod contexts;
#[cfg(test)]
mod deltas;
#[cfg(test)]
mod examples;
#[cfg(test)]
mod general;
#[cfg(test)]
mod histories;
#[cfg(test)]
mod machines;
#[cfg(test)]
mod plays;
#[cfg(test)]
mod starts;
#[cfg(test)]
mod views;
#[cfg(test)]
mod words;
#[cfg(test)]
mod writes;
