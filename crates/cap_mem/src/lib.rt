//! Memory as CHERI has it: bytes, and one tag for each granule of 16 bytes.
//!
//! - A granule's tag says that its bytes are a capability. `store_cap` sets it, and takes a derived capability by value:
//!   no tag can stand at bytes that were not derived from a mapping. Any other store clears the tag of each granule of
//!   which it takes a byte.
//! - Contracts see the bytes and one list of the tagged words, each with its capability and a note: the owners ascend,
//!   and the words of one owner stand in the order of their stores. No capability is kept beside the bytes: the value
//!   decodes it back, and the invariant says that these bytes are its word.
//! - The list is one chain of granules, linked by index both ways, with a mark before and behind the words of each of
//!   256 owners. So a granule leaves or enters it in a few writes, wherever it stands, with no list ends to mend.
//!   `bits` are the tags, `links` the chain, `memory` the rest: it names no link.
//! - `map` makes all tables; no other call takes memory, and each store takes constant time for each granule.
//! - `order_laws` says what the lists are after a run of stores.
//!
//! It derives no capability (`cap_own` does), and knows neither objects nor relocations: an owner and a note are numbers.
#![tactic(auto)]

mod bits;
mod laws;
mod links;
mod memory;

pub use laws::order_laws;
pub use memory::{Memory, Note};

#[cfg(test)]
mod tests;
