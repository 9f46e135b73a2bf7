//! Rights in runs and bytes in frames, beside plain lists.
#![tactic(auto)]

#[cfg(test)]
mod tests;
