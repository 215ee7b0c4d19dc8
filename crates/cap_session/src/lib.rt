//! A session of the run-time linker: a program, its libraries, and the libraries that are opened later.
//!
//! - A `Roster` has the loaded objects in load order, each with all that belongs to it. It loads an object and all that it
//!   needs, breadth first, and relocates all objects from a place on.
//! - A `Session` is a roster, the libraries that were opened, and the rule by which names are looked up. `start` loads and
//!   relocates the program; `open` does so for one library more, and keeps the tree and the mode of each that was opened.
//!
//! What is hard is that a refusal, want of memory too, leaves a session exactly as it was. So a call takes what it needs
//! in an order in which all that was done can be taken off again without memory: the objects last, their addresses with
//! them.
//!
//! What a slot is to hold, and which definition a name has, is decided in `cap_reloc` and `cap_scope`.
#![tactic(auto)]

mod adding;
mod binding;
mod closing;
mod fetching;
mod form;
mod laws;
mod opening;
mod refusal;
mod roster;
mod scope;
mod session;
mod spans;

pub use form::Form;
pub use laws::state_laws;
pub use refusal::{Mode, OpenCause, OpenRefusal, Ready};
pub use session::Session;
