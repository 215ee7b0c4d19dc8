//! Tests of the readers of ELF files, over their public calls.
//!
//! They stand here and not beside the readers, since a crate with tests is proved twice: once with them and once without.
#![tactic(auto)]

#[cfg(test)]
mod dyn_tests;
#[cfg(test)]
mod rel_tests;
