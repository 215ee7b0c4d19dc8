//! The 128-bit capability word of CHERI for 64-bit RISC-V: an address, and metadata that holds permissions, a flag, an
//! object type and bounds in the compressed form that CHERI calls Concentrate.
//!
//! The hard part is the bounds. A word keeps 14 bits of the base and 12 of the top, at an exponent; the rest of both
//! comes from the address, so the same metadata means other bounds at another address. `decode` answers for all 2^128
//! words, whether or not a processor could make them. `encode` writes the word of bounds that can be had exactly, and
//! of no others: nothing here rounds bounds. `exact`, `repr_len` and `repr_align` say which bounds those are, and how
//! long and how aligned an object must be to have them.
//!
//! The definitions follow the CHERI instruction-set architecture, version 9 (UCAM-CL-TR-987). Each stands twice: as a
//! relation, in the standard's terms, and as a function that computes; the public calls promise both.
//!
//! Which capabilities may be derived from which is the business of `cap_own`, and tags that of `cap_mem`.
#![tactic(auto)]

mod decoding;
mod encoding;
mod laws;
mod representable;
mod word;

pub use decoding::decode;
pub use encoding::encode;
pub use laws::{computed_laws, encoding_laws, rounding_laws};
pub use representable::{exact, repr_align, repr_len};
pub use word::{Fields, Word};

#[cfg(test)]
mod tests;
