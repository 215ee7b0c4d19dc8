//! A written file is read back as it was planned.
#![tactic(auto)]

mod laws;

pub use laws::readback_laws;
