//! The initial calls of loaded objects: in which order, and of which slots.
//!
//! - `order` gives the objects of a group in depth-first post-order: an object comes behind those of the group that it
//!   needs, and rings are broken where the walk comes back to an object that it began. `initial_order` goes through the
//!   groups of a session: the objects of the start, and those of each call that loaded any.
//! - `calls` lists the slots of the arrays of initial calls (DT_INIT_ARRAY) that hold a sentry, object by object. A slot
//!   that isn't tagged, or whose capability isn't sealed, is passed over: nothing can be called by it.
//! - `order_laws` says what such an order is by the dependencies alone, and `call_laws` what each call is in memory.
//!
//! What is hard is that dependencies may be a chain of all objects, or a ring. So the walk keeps its path itself, and
//! its time is that of the lists of the group, whatever they say.
//!
//! It calls nothing and prints nothing, and the arrays of final calls are no business of it. Which objects a group has
//! is decided in `cap_session`, and what the slots hold in `cap_reloc`.
#![tactic(auto)]

mod arrays;
mod call;
mod groups;
mod laws;
mod walk;

pub use arrays::calls;
pub use call::{Call, Calls};
pub use groups::initial_order;
pub use laws::{call_laws, order_laws};
pub use walk::order;

#[cfg(test)]
mod tests;
