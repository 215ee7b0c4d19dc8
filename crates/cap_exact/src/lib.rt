//! The law of exact bounds over all layers: what the loader says of files that the linker wrote.
//!
//! The linker gives each definition bounds that a capability can have exactly, wherever the file is placed
//! (`cap_link::link_laws`), and its file is read back as it was planned; the loader refuses bounds only of what doesn't fit
//! (`cap_session::state_laws`). So no definition in such a file is refused as inexact, and no byte of data of one is in the
//! bounds of another. The crate has no code: both wings meet here, and nowhere else but in the program.
#![tactic(auto)]

mod laws;

pub use laws::exact_laws;
