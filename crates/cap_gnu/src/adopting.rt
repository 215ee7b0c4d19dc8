//! Tables that are read from files: whether they are sound, seen in one pass over buckets and names.

ghost use Rattle.std.specs.Prelude.{◌≡◌, ◌<◌, ◌&&◌, ◌^◌, IfOk, length, slice_index_or, false, []};
ghost use Rattle.std.specs.Option.{is_some};
ghost use Rattle.std.specs.List.{list_all, enumerate_from};
ghost use Rattle.cap_names.specs.Named.{AreDistinct, name_at};
ghost use Rattle.cap_names.specs.Hash.{gnu_hash_of};
ghost use Rattle.cap_gnu.specs.Adopted.{Adopts, IsLaidOut, IsTableOf, bucket_words, has_hash, index_words, is_held, is_run, is_sound, place_of, run_of};
ghost use Rattle.cap_gnu.specs.Lengths.{AreLengths};

use crate::chains::GnuChains;
use crate::lengths::lengths_of;
use crate::runs::{Run, is_empty_or_run};
use crate::table::{buckets, indices, is_hash_at};
use cap_base::{NameList, NoMemory};
use cap_names::{NameHash, NameIndex, gnu_hash};
use std::alloc::Global;

/// Why words are not adopted.
#[derive(Clone, Copy, Debug, PartialEq, Eq)]
pub enum GnuRefusal {
    /// The table isn't sound.
    Fault,
    /// There was not enough memory.
    NoMemory,
}

impl From<NoMemory> for GnuRefusal {
    ghost use Rattle.cap_gnu.specs.declared.adopting.GnuRefusal.TheVariants.{NoMemory};

    ghost from_gives = { λ _ e. e ≡ NoMemory };

    fn from(_: NoMemory) -> GnuRefusal {
        GnuRefusal::NoMemory
    }
}

/// Whether each bucket is empty or leads to a run that ends within the words.
#[tactic(auto, using(crate::proofs::AllLemmas::all_more, crate::proofs::AllLemmas::all_fails, crate::proofs::AllLemmas::all_done))]
fn are_runs(words: &[u32], lengths: &[u32]) -> bool
    requires laid { IsLaidOut words.now }
    requires lengths { AreLengths (index_words words.now) lengths.now }
    ensures { result ≡ list_all (is_run words.now) (bucket_words words.now) }
{
    for first in buckets(words) {
        if !is_empty_or_run(words, lengths, *first) {
            return false;
        }
    }
    true
}

/// Whether the index of a name stands in the run of the name's bucket, and its word has the name's hash.
fn is_placed(words: &[u32], lengths: &[u32], name: &[u8], i: u32) -> bool
    requires laid { IsLaidOut words.now }
    requires lengths { AreLengths (index_words words.now) lengths.now }
    ensures { result ≡ (is_some (place_of i (run_of words.now (gnu_hash_of name.now))) && has_hash words.now i (gnu_hash_of name.now)) }
{
    let hash = gnu_hash(name);
    Run::of_hash(words, lengths, hash).place(i).is_some() && is_hash_at(words, i, hash)
}

/// Whether an index isn't defined, or is placed by its name.
fn is_name_held(words: &[u32], lengths: &[u32], names: &NameList, i: u32) -> bool
    requires laid { IsLaidOut words.now }
    requires lengths { AreLengths (index_words words.now) lengths.now }
    requires inside { i < length names.now }
    ensures { result ≡ is_held words.now (i, slice_index_or names.now i ([], false)) }
{
    !names.defined(i as usize) || is_placed(words, lengths, names.name(i as usize), i)
}

/// Whether each defined index is placed by its name.
#[tactic(auto, using(crate::proofs::AllLemmas::held_more, crate::proofs::AllLemmas::held_fails, crate::proofs::AllLemmas::held_done))]
fn are_names_held(words: &[u32], lengths: &[u32], names: &NameList) -> bool
    requires laid { IsLaidOut words.now }
    requires lengths { AreLengths (index_words words.now) lengths.now }
    requires few { length names.now < 2 ^ 32 }
    ensures { result ≡ list_all (is_held words.now) (enumerate_from 0 names.now) }
{
    for i in 0..names.len() as u32 {
        if !is_name_held(words, lengths, names, i) {
            return false;
        }
    }
    true
}

/// Whether the words are those of a sound table.
fn is_table_sound(words: &[u32], lengths: &[u32], names: &NameList) -> bool
    requires table { IsTableOf words.now names.now }
    requires lengths { AreLengths (index_words words.now) lengths.now }
    ensures { result ≡ is_sound words.now names.now }
{
    are_runs(words, lengths) && are_names_held(words, lengths, names)
}

/// A copy of the words.
fn copy(alloc: Global, words: &[u32]) -> Result<Vec<u32>, NoMemory>
    ensures { IfOk result (λ copy. copy.items ≡ words.now) }
{
    Ok(Vec::from_slice(alloc, words)?)
}

/// The table of these words and names, in which names that count as defined are distinct. The words are those of the
/// filter, of at least one bucket, and of indices from the least on that has one, each the index of a name.
///
/// Fault comes exactly where a bucket that isn't 0 is below that least index or leads to a run that leaves the words, or a
/// defined name isn't in the run of its bucket, or the upper 31 bits of its index's word aren't those of its hash.
pub fn adopt(alloc: Global, words: &[u32], names: NameList) -> Result<GnuChains, GnuRefusal>
    requires table { IsTableOf words.now names }
    requires distinct { AreDistinct names }
    ensures { Adopts words.now names result }
{
    let lengths = lengths_of(alloc, indices(words))?;
    if !is_table_sound(words, &lengths, &names) {
        return Err(GnuRefusal::Fault);
    }
    let words = copy(alloc, words)?;
    let index = NameIndex::new(alloc, NameHash::Gnu, names)?;
    Ok(GnuChains {
        words,
        lengths,
        index,
    })
}
