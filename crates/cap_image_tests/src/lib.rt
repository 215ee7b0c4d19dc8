//! Tests of images, over the public calls of `cap_image` and of `cap_audit`.
//!
//! They stand here and not in these crates, since a crate with tests is proved twice: once with them and once without.
//! Which files are refused, and each kind of word in a report, are rows that the built program runs.
#![tactic(auto)]

#[cfg(test)]
mod audit_tests;
#[cfg(test)]
mod by_hand;
#[cfg(test)]
mod reading_tests;
#[cfg(test)]
mod writing_tests;
