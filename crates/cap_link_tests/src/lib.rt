//! Tests of the rooms of the link wing, and their definitions on known pieces, layouts, relocations and instructions.
//!
//! They stand here and not in the rooms, since a room with tests is proved twice: once with them and once without.
#![tactic(auto)]

#[cfg(test)]
mod tests;
