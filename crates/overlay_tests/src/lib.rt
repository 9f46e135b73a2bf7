//! Tests of overlays by their public calls, beside contexts of whole copies.
#![tactic(auto)]

#[cfg(test)]
mod by_hand;
#[cfg(test)]
mod play;
#[cfg(test)]
mod script;
#[cfg(test)]
mod shown;
#[cfg(test)]
mod side_by_side;
