//! The capability table, and the lists of the linked file.
#![tactic(auto)]

mod arrays;
mod bodies;
mod checks;
mod describing;
mod dynamics;
mod entering;
mod filling;
mod gathering;
mod kinds;
mod meaning;
mod names;
mod naming;
mod numbers;
mod planned;
mod planning;
mod records;
mod relocating;
mod sources;
mod symbols;
mod target;
mod target_set;
mod walked;
mod walking;
mod wants;

pub use bodies::{Bodies, plain};
pub use describing::Described;
pub use filling::{CapTable, fill};
pub use planned::Plan;
pub use planning::plan;
pub use records::{DynEntry, DynSymbol};
pub use sources::Sources;
pub use target::{Step, Target};
