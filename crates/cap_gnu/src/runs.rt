//! Runs: which indices stand in one, and how many are passed in it. No step along a run is taken.

ghost use Rattle.std.specs.Prelude.{◌≡◌, ◌+◌, ◌<◌, ◌^◌, IfSome};
ghost use Rattle.cap_gnu.specs.Adopted.{IsLaidOut, index_words, is_run, length_from, passed, place_of, run_of};
ghost use Rattle.cap_gnu.specs.Lengths.{AreLengths};

use crate::table::{bucket_for, least_index, number_at};
use std::marker::Model;

/// How many indices the run has that begins at one; 0 where it leaves the words.
fn length_at(words: &[u32], lengths: &[u32], first: u32) -> u32
    requires laid { IsLaidOut words.now }
    requires lengths { AreLengths (index_words words.now) lengths.now }
    ensures { result ≡ length_from words.now first }
{
    number_at(lengths, first.saturating_sub(least_index(words)) as usize)
}

/// Whether a bucket's word is 0, or leads to a run that ends within the words.
pub(crate) fn is_empty_or_run(words: &[u32], lengths: &[u32], first: u32) -> bool
    requires laid { IsLaidOut words.now }
    requires lengths { AreLengths (index_words words.now) lengths.now }
    ensures { result ≡ is_run words.now first }
{
    first == 0 || least_index(words) <= first && 0 < length_at(words, lengths, first)
}

/// A run of indices, one after the other. Contracts see the indices.
#[derive(Debug, Drop)]
pub(crate) struct Run {
    first: u32,
    length: u32,
}

impl Model for Run {
    ghost use Rattle.std.specs.Prelude.{List, ℕ, ◌<◌, ◌^◌};
    ghost use Rattle.std.specs.List.{range_with_len};

    ghost Value = { List ℕ };

    ghost view = { λ run. range_with_len run.first run.length };

    ghost invariant = { λ run. run.length < 2 ^ 32 };
}

impl Run {
    /// The run of the bucket into which a hash falls.
    pub(crate) fn of_hash(words: &[u32], lengths: &[u32], hash: u32) -> Run
        requires laid { IsLaidOut words.now }
        requires lengths { AreLengths (index_words words.now) lengths.now }
        ensures { result ≡ run_of words.now hash }
    {
        let first = bucket_for(words, hash);
        if first == 0 {
            return Run {
                first: 0,
                length: 0,
            };
        }
        Run {
            first,
            length: length_at(words, lengths, first),
        }
    }

    /// The place of an index in the run; none where it isn't in it.
    #[tactic(auto, using(crate::proofs::RunLemmas::place_here, crate::proofs::RunLemmas::place_before, crate::proofs::RunLemmas::place_behind))]
    pub(crate) fn place(&self, i: u32) -> Option<u32>
        ensures place { result ≡ place_of i self.now }
        ensures small { IfSome result (λ k. k + 1 < 2 ^ 32) }
    {
        if i < self.first {
            return None;
        }
        let k = i - self.first;
        if k < self.length { Some(k) } else { None }
    }

    /// How many indices are passed up to the one that is found, that one too; all of them where none is found.
    #[tactic(auto, using(crate::proofs::RunLemmas::run_long))]
    pub(crate) fn passed(&self, found: Option<u32>) -> u32
        ensures { result ≡ passed self.now found }
    {
        let Some(i) = found else {
            return self.length;
        };
        match self.place(i) {
            Some(k) => k + 1,
            None => self.length,
        }
    }
}
