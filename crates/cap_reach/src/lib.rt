//! What can be loaded, step by step, from one tagged word of an image.
//!
//! A capability that isn't sealed, and may load capabilities, gives whoever has it each tagged word in its bounds, and
//! these give more. A sealed entry gives what is in its bounds to the code that it enters, and counts as entered. `reach`
//! finds all that one word gives in the end: the least set of granules that has the word's own and is closed under such
//! loading. `report` prints the word of each, as the image's report has it, and how many they are. `reach_laws` says that
//! the set is one alone, the least, and what `reach_of` computes.
//!
//! The hard part is that words may cover each other: 2^22 words that each cover all of an image have 2^44 pairs. So each
//! place that was found leads past those behind it that were found too (`work`), and a word's bounds cost one search for
//! their low end and a hop over what is found already.
//!
//! Nothing here asks what code would do with a word, what it could store, or what it could unseal. What is loaded keeps
//! its own permissions, whatever those of the word are that loads it.
#![tactic(auto)]

mod laws;
mod loading;
mod places;
mod reaching;
mod reporting;
mod searching;
mod slots;
mod words;
mod work;

pub use laws::reach_laws;
pub use reaching::{ReachRefusal, reach};
pub use reporting::report;
pub use slots::Slots;
