//! Owned intervals of addresses, and capabilities that are derived from them and from nothing else.
//!
//! A `Span` is an interval that has one owner. A `Space` carves spans from its free addresses and takes them back; spans
//! split and join. They can be neither copied nor dropped, so no address is ever lost or has two owners, and a `Space`
//! ends only when all of it came back.
//!
//! A `Root` is the whole mapping of one object. It gives parts (`Seg`) with rights to data or to code, a part narrows to
//! a capability (`Derived`) with bounds that are exact, and a capability gives the word that memory holds. All three
//! borrow the `Root`, and their fields are private: there is no other way to a `Derived`. Bounds that can't be had
//! exactly are refused and never rounded.
//!
//! The word itself is the business of `cap_conc`, memory and its tags that of `cap_mem`; a `Root` is never stored.
#![tactic(auto)]

mod derive;
mod laws;
mod perms;
mod space;

pub use derive::{Derived, Inexact, Root, Seg};
pub use laws::grant_laws;
pub use perms::Perms;
pub use space::{Full, Space, Span};

#[cfg(test)]
mod tests;
