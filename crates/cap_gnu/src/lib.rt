//! The hash table of DT_GNU_HASH, a format of GNU binutils and glibc: runs of indices, one for each bucket.
//!
//! - `gnu_hash` is the hash of a name.
//! - `adopt` takes the words that a file has. Whoever writes a file chooses its table: its buckets may lead before the
//!   first index that has a word, or past the last, into one run together, or to a run that does not end; a defined name
//!   may stand outside the run of its bucket, or its word may have another hash. The lengths of all runs are counted in one
//!   pass from the end, so that the work is in proportion to the words and the names, and exactly the sound tables are
//!   accepted.
//! - `GnuChains::find` answers for the whole list of names: with the least index that has the name and is defined, or none.
//!   It goes by an index of the names (`cap_names`) and not along the run, so that what a look-up costs does not depend on
//!   the table. `GnuChains::walk` tells how many indices a look-up along the run would pass, and takes no step of it: the
//!   indices of a run are consecutive, and its length is known.
//!
//! The filter is passed over: it may be false, and a false filter must not hide a name. No table is made here. That there
//! are the words of the filter and of all buckets, and where they stand in a file, is checked in `cap_elf`; which symbols
//! count as defined, and in which objects a name is sought, is decided in `cap_scope`.
#![tactic(auto)]

mod adopting;
mod chains;
mod lengths;
mod runs;
mod table;

pub use adopting::{GnuRefusal, adopt};
pub use cap_names::gnu_hash;
pub use chains::GnuChains;

#[cfg(test)]
mod tests;
