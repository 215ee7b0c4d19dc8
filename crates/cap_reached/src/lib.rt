//! The law of what can be reached in the image of a loaded program: along relocations that the loaded objects name.
//!
//! `cap_reach` says which tagged words of an image can be loaded, step by step, from one of them, and knows nothing of how
//! the image came to be. `cap_loaded` says what the image of a state holds. Together: each step goes from a word that a
//! relocation of some object names into the mapping of the object in which the named definition stands, and within the
//! definition's bounds; so nothing in an object is reached from another that no chain of relocations leads to. The crate
//! has no code.
#![tactic(auto)]

mod laws;

pub use laws::reached_laws;
