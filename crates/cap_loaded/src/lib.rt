//! The law of images over all layers of the load wing: what the image of loaded objects holds, and that it is read back.
//!
//! The loader says which state a start and calls lead to, and what holds of its memories (`cap_session::state_laws`); the
//! image of memories has their bytes, tags and word records, and is read back from its bytes (`cap_image`). So the image of
//! each such state is one that a reader accepts, with exactly the words of its memories. The crate has no code.
#![tactic(auto)]

mod laws;

pub use laws::loaded_laws;
