//! Tests of the machine and its parts by their public calls.
#![tactic(auto)]

#[cfg(test)]
mod accesses;
#[cfg(test)]
mod blobs;
#[cfg(test)]
mod gas;
#[cfg(test)]
mod instructions;
#[cfg(test)]
mod lengths;
#[cfg(test)]
mod operations;
#[cfg(test)]
mod pages;
#[cfg(test)]
mod refusals;
#[cfg(test)]
mod runs;
#[cfg(test)]
mod schedules;
