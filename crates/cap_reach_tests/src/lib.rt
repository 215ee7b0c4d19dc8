//! Tests of what is reached, over the public calls of `cap_reach`.
//!
//! They stand here and not in `cap_reach`, since a crate with tests is proved twice: once with them and once without.
#![tactic(auto)]

#[cfg(test)]
mod by_hand;
#[cfg(test)]
mod tests;
