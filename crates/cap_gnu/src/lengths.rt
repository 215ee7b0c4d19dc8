//! The lengths of the runs, counted once.

ghost use Rattle.std.specs.Prelude.{◌≡◌, ◌+◌, ◌<◌, ◌^◌, IfOk, length};
ghost use Rattle.cap_gnu.specs.Lengths.{AreLengths, AreLengthsFrom, length_with};

use crate::table::number_at;
use cap_base::NoMemory;
use std::alloc::Global;

/// How long the run is that begins with a word, by the length of the one from the next word on; 0 is a run without an end.
fn with_word(word: u32, next: u32) -> u32
    requires { next + 1 < 2 ^ 32 }
    ensures { result ≡ length_with word next }
{
    if word % 2 == 1 {
        1
    } else if next == 0 {
        0
    } else {
        next + 1
    }
}

/// Enters the length of the run from a word on, where those of all later words are entered.
#[tactic(auto, using(crate::proofs::RunLemmas::next_fits, crate::proofs::RunLemmas::entered))]
fn enter(lengths: &mut Vec<u32>, words: &[u32], k: usize)
    requires inside { k < length words.now }
    requires few { length words.now < 2 ^ 32 }
    requires long { length lengths.old.items ≡ length words.now }
    requires later { AreLengthsFrom (k + 1) words.now lengths.old.items }
    ensures long { length lengths.new.items ≡ length words.now }
    ensures entered { AreLengthsFrom k words.now lengths.new.items }
{
    lengths[k] = with_word(words[k], number_at(lengths, k + 1));
}

/// For each word, how long the run from it on is. The words are gone through backwards, each once.
#[tactic(auto, using(crate::proofs::RunLemmas::none_entered))]
pub(crate) fn lengths_of(alloc: Global, words: &[u32]) -> Result<Vec<u32>, NoMemory>
    requires { length words.now < 2 ^ 32 }
    ensures { IfOk result (λ lengths. AreLengths words.now lengths.items) }
{
    let mut lengths = vec![in alloc; 0u32; words.len()]?;
    for k in (0..words.len()).rev() {
        enter(&mut lengths, words, k);
    }
    Ok(lengths)
}
