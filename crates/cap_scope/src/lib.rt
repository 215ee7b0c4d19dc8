//! Objects that were read and whose hash tables were adopted, what they depend on, and which definition a name has.
//!
//! - `Object` is a file with the counts of its hash chains. It is made exactly where its hash table is sound.
//! - `Deps` are the numbers of the objects on which each object depends; `breadth` is the list of those that are reached
//!   from one, in breadth-first order (System V gABI, dependency order).
//! - `choose` is the look-up of a name in a scope, a list of objects. By the rule `NonWeak` the first definition that
//!   isn't weak is chosen, else the first; by the rule `First` the first. It takes no memory, and tells how many entries
//!   of hash chains a look-up along them passes.
//!
//! What is hard is that no look-up may depend on the table: whoever writes a file may put a million names on one chain, and
//! refer to the last of them a million times. So the name is hashed once, each file tells by its own index (`cap_elf`) which
//! exported symbol has the name, and how many entries stand before it on its chain was counted when the object was made
//! (`cap_chain`). The choice is stated over the symbols, in their order, and the number of entries over the chains.
//!
//! In which order objects are loaded and what a scope is, is decided in `cap_session`; what a chosen definition is worth,
//! in `cap_reloc`.
#![tactic(auto)]

mod choice;
mod choosing;
mod deps;
mod object;
mod queue;

pub use choice::{Choice, Found, Hit, Rule};
pub use choosing::choose;
pub use deps::{Deps, breadth};
pub use object::Object;
