//! Tests of the files of the system, of standard output and of the words of the command line.
#![tactic(auto)]

#[cfg(test)]
mod adapters;
#[cfg(test)]
mod calls;
#[cfg(test)]
mod reads;
#[cfg(test)]
mod stores;
#[cfg(test)]
mod watched;
#[cfg(test)]
mod words;
