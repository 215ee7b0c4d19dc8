//! Why inputs are not linked.

use cap_base::{Name, Refusal};

/// Why inputs are not linked. The number of a file is its place among the inputs.
#[derive(Debug, Drop)]
pub struct LinkRefusal {
    pub refusal: Refusal,
    /// The name of the symbol that is unresolved, where it is that; else empty.
    pub name: Name,
}
