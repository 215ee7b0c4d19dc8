//! Where intervals stand in a shared object, and when they fit the bounds that capabilities can have.
//!
//! It has definitions alone, and no calls: the linker promises that what it writes fits, and the run-time linker that it
//! refuses bounds only of what doesn't fit. Both speak of these words.
#![tactic(auto)]
