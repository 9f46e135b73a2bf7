//! Tests of the codec, the files of batches, the digest and the outside by their public calls.
#![tactic(auto)]

#[cfg(test)]
mod batches;
#[cfg(test)]
mod devices;
#[cfg(test)]
mod digests;
#[cfg(test)]
mod rows;
#[cfg(test)]
mod small_files;
#[cfg(test)]
mod spellings;
