//! Placing one shared object in tagged memory (gABI, "Program Loading").
//!
//! - `place` carves the object's span from the free addresses at the next multiple of its alignment, makes the root
//!   of all capabilities to it, and maps its memory: each PT_LOAD's bytes of the file at its p_vaddr, zeros elsewhere,
//!   and no tag.
//! - What is hard about it: memory may run out after the addresses were carved. Then pad and body are joined and given
//!   back, so that a refusal leaves the space as it was; neither can be dropped, so none is ever lost.
//! - The definition says what stands at each address, `mapped_byte`; the code stores segment by segment. Both agree
//!   since segments ascend and share no address.
//!
//! It reads no file (`cap_elf` does), and relocates nothing: the words that need a capability still are the file's
//! bytes, without tags.
#![tactic(auto)]

mod placing;

pub use placing::{Placed, place};
