//! Look-up of names by the hash table of the System V gABI (DT_HASH): chains of indices, one for each bucket.
//!
//! - `words_of_hashes` makes the words of a new table, in which each chain descends, from the hashes of its names alone;
//!   `build` makes the table of these words and the names.
//! - `count_chains` takes the words that a file has. They may lead anywhere: past the names, in a ring, from one chain into
//!   another, or past a defined name. It goes through all chains once, with a mark for each index, so that its work is in
//!   proportion to the words, and accepts exactly the sound tables. Of these it counts how long each chain is, and on which
//!   place of its chain each index stands. `adopt` does the same, and makes the table of the words and the names.
//! - `Chains::find` answers for the whole list of names: with the first index that has the name and is defined, or none. It
//!   goes by an index of the names (`cap_names`) and not along the chain: a table that is sound may have all its names on
//!   one chain. `Chains::walk` tells how many indices a look-up along the chain would pass, by what was counted, and takes
//!   no step of it. `ChainCounts::passed` tells the same of a name that was looked up elsewhere.
//! - `built_are_sound` is the law that what `build` makes can be adopted.
//!
//! A table knows names and which of them are defined, and nothing else of symbols. Where the words stand in a file, and
//! that there are as many as they tell of, is checked in `cap_elf`; which symbols count as defined, and in which objects
//! a name is sought, is decided in `cap_scope`.
#![tactic(auto)]

mod adopting;
mod building;
mod chains;
mod counting;
mod laws;

pub use adopting::{AdoptRefusal, adopt, count_chains};
pub use building::{build, words_of_hashes};
pub use chains::Chains;
pub use counting::ChainCounts;
pub use laws::built_are_sound;

#[cfg(test)]
mod tests;
