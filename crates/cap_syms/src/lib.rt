//! The names of the relocatable inputs, what each one is, and how references to it are bound.
//!
//! - `resolve` decides on each name that isn't local: which of its occurrences defines it, what its common symbols merge
//!   to, or that it is absent; and whether it is bound in the linked file, to nothing, or when that is loaded. It refuses
//!   a name with two definitions, and one that is missing.
//! - `Table` has the names in order of first appearance, each with the tally that its decision is read from, and finds
//!   them by hash.
//!
//! The definition (specs/Resolved) takes all occurrences of a name together; the code passes over the inputs once, with
//! one look-up an occurrence, and keeps of each name a tally of what the decision needs. What is hard is that the tallies
//! decide as the definition does, and that all names are tried for a second definition before any is found missing.
//! What holds of every table (specs/IsResolved) is a law over the definition.
//!
//! Where definitions are placed is decided in `cap_layout`, and what references to them become in the crates above it;
//! the choice among loaded objects is in `cap_scope`.
#![tactic(auto)]

mod decision;
mod entries;
mod laws;
mod names;
mod offered;
mod places;
mod seen;
mod table;
mod tally;

pub use entries::{Bound, Entry, Shape};
pub use laws::resolve_laws;
pub use table::{Table, resolve};
