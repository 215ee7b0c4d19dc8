//! The objects of a demonstration: relocatable ELF objects (System V gABI, RISC-V, pure-capability) made from a number.
//!
//! Each of the eight has a function, a table of 65 capabilities and 64 data of one to 9,000 bytes. What the capabilities
//! refer to, and how large the data are, comes from a generator of numbers whose state goes from one object to the next.
//! The first six refer to one another alone, so that they can be linked without the last two.
//!
//! `object` makes the next object. Its bytes are a stated function of the generator's state and the object's number
//! (`demo_object` of the definitions). Nothing here knows how objects are linked or loaded, and none is read back.
#![tactic(auto)]

mod choices;
mod names;
mod numbers;
mod objects;
mod records;
mod sections;
mod symbols;

pub use numbers::Numbers;
pub use objects::object;

#[cfg(test)]
mod tests;
