//! Where an image isn't the wanted one.
//!
//! `compare` lists what differs between an image and the image that it should be: the version, an object, and then by
//! granule the tag, the word, the bytes or the word's owner and name, and last the order of an object's word records.
//! `report` prints the list, a line each. `audit_laws` says that the list is empty exactly where the two images were
//! read from the same bytes, so that nothing is passed over.
//!
//! The hard part is that an image may differ anywhere and has millions of granules. An object whose parts are the same in
//! both images is done with once its bytes, its tags and its word records were compared; in any other, eight granules
//! without tags are passed over at a time where their bytes are the same, and a table leads from a granule to its word
//! record.
//!
//! Nothing here loads a program, or says where the wanted image comes from: that is the business of the crate above.
#![tactic(auto)]

mod comparing;
mod differing;
mod finding;
mod laws;
mod object;
mod reporting;

pub use comparing::compare;
pub use finding::{Finding, Findings, What};
pub use laws::audit_laws;
pub use reporting::report;
