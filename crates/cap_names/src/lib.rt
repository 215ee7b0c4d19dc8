//! An index of the defined names of a list, made once: look-up by name, and names that are defined twice.
//!
//! Whoever writes a file chooses its names and its hash table. So a look-up goes by this index and not by the table, and
//! what it costs does not depend on how either looks: a million names in one bucket, names of one hash, or long names that
//! differ in their last byte. It serves both tables, DT_HASH and DT_GNU_HASH: `NameHash` says which hash orders the names,
//! so that who looks a name up in many lists hashes it once.
//!
//! The defined indices stand in one vector of keys, ordered by the hash of the name, then its bytes, then the index. A key
//! is the hash, spread over 32 bits, and below it the index, so that a sort of numbers brings nearly all into order; what
//! has one hash is then put in order by name (`sorting`). Equal names stand beside each other, the least index first.
//!
//! - `NameIndex::find` is a bisection over the keys (`searching`), begun in a window that a table of starts guesses from
//!   the leading bits of the hash (`starts`). The guess is tested and not trusted: it bears on time alone.
//! - `NameIndex::first_repeated` goes through neighbours once (`repeating`).
//!
//! To make the index takes as many comparisons of names as the names of one hash need to be sorted; to find a name, one
//! for each halving. Names are not copied, and none takes an allocation. These bounds on time are by the form of the loops,
//! and in no clause. Whether a table of a file is sound is no question here: that is decided by the crate of each table.
#![tactic(auto)]

mod hashing;
mod index;
mod keys;
mod repeating;
mod searching;
mod sorting;
mod starts;

pub use hashing::{NameHash, gnu_hash, system_v_hash};
pub use index::NameIndex;

#[cfg(test)]
mod tests;
