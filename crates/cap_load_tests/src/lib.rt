//! Tests of the rooms of the load wing, over their public calls.
//!
//! They stand here and not in the rooms, since a room with tests is proved twice: once with them and once without.
#![tactic(auto)]

#[cfg(test)]
mod map_tests;
#[cfg(test)]
mod reloc_tests;
#[cfg(test)]
mod scope_tests;
#[cfg(test)]
mod session_tests;
