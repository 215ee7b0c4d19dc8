//! Binding the relocations of one loaded object: `relocate` decides what the slot of each is to hold, or tells the first
//! check that one fails, and then stores all of it.
//!
//! - A plan is made first: for each entry of `__cap_relocs` and each record, in order, its slot and a number, an untagged
//!   word or a capability. Capabilities are derived from the mapping of the object in which their definition stands, and
//!   from nothing else; bounds that can't be had exactly are refused there, and never rounded.
//! - Then it is stored, which takes no memory and can't fail: a refusal leaves the memory as it was.
//!
//! What is hard is to stay near-linear and still say what the definition says, which looks at all segments and at all
//! earlier slots for each relocation. Segments ascend, so that the last one that begins at an address or below it decides
//! what the address is in; taken slots stand in a map by their places, so that the last one that begins before a slot's
//! end decides whether they share a byte; the ranges of code are found once a call.
//!
//! Which definition a name has is decided in `cap_scope`, which bounds are exact in `cap_conc`, and which objects are
//! relocated when, and in which scope, in `cap_session`.
#![tactic(auto)]

mod binding;
mod code;
mod content;
mod derive;
mod laws;
mod loaded;
mod meaning;
mod plan;
mod planned;
mod refusal;
mod segments;
mod slot;
mod step;
mod storing;
mod taken;
mod target;

pub use binding::relocate;
pub use laws::{binding_laws, storing_laws};
pub use refusal::RelocRefusal;
