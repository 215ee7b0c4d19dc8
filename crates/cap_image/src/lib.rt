//! Images of loaded programs: writing one, reading one, and its report.
//!
//! An image is a file: a header, a record for each object that was mapped, and then the body of each: its bytes, its
//! tags, and in version 2 a word record for each tagged granule, which names the object and the symbol that the word
//! there is made from. `write` makes the image of memories, in version 2. `read` accepts exactly the files of the two
//! versions, and says of any other which check fails first. `report` prints what `purecap show` shows: a line for each
//! object, a line for each tagged word, by the decoding of `cap_conc` and by its word record, and how many there were of
//! both. `image_laws` says that the tags and the word records of a written image are those of its memories, and that an
//! accepted file has the bytes of its parts, so that two files with the same parts are the same; `reading_laws` that
//! `read` gives back exactly what `write` made.
//!
//! The hard part is size. An image has up to 2^26 bytes of memory, and its word records may be longer than that, so
//! `Image` keeps the file as it came, and of each object and word record only where its parts stand. Word records stand
//! by owner and the report's lines by address: marks for all granules of an object show a granule that is listed twice,
//! and a table of them leads the report from a granule to its record. The report passes over eight granules without tags
//! at a time.
//!
//! Nothing here asks whether a word could have been derived, or from what: that is the business of the crates above.
#![tactic(auto)]

mod bodies;
mod digits;
mod entries;
mod granules;
mod header;
mod image;
mod laws;
mod laws_of_reading;
mod lines;
mod records;
mod reporting;
mod size;
mod tags;
mod word_lines;
mod word_walk;
mod words;
mod writing;

pub use digits::{push_decimal, push_hex, push_number};
pub use entries::entries_of;
pub use granules::{count_tagged, granule_laws, granules_below, tagged_in, word_at};
pub use header::Version;
pub use image::{Image, read};
pub use laws::image_laws;
pub use laws_of_reading::reading_laws;
pub use lines::{SENTRY, UNSEALED};
pub use reporting::report;
pub use tags::has_tag;
pub use word_lines::push_word_lines;
pub use words::WordNote;
pub use writing::write;
