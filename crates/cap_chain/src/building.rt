//! New tables.

ghost use Rattle.std.specs.Prelude.{◌≡◌, [], ◌+◌, ◌≤◌, ◌^◌, ◌++◌, length, map, replicate, false, slice_index_or, IfOk};
ghost use Rattle.cap_chain.specs.Adopted.{table_of};
ghost use Rattle.cap_names.specs.Named.{AreDistinct};
ghost use Rattle.cap_names.specs.Hash.{system_v_hash_of};
ghost use Rattle.cap_chain.specs.Words.{built_words, bucket_words, name_words, words_of};

use crate::chains::Chains;
use cap_base::{NameList, NoMemory};
use cap_names::system_v_hash;
use std::alloc::Global;

/// Puts each name but the first in front of the chain of its bucket.
#[tactic(auto, using(crate::proofs::LastLemmas::buckets_done, crate::proofs::LastLemmas::links_done))]
fn link(hashes: &[u32], buckets: &mut [u32], links: &mut [u32])
    requires some { 1 ≤ length hashes.now }
    requires small { length hashes.now ≤ 2 ^ 20 }
    requires buckets { 1 ≤ length buckets.old }
    requires empty { buckets.old ≡ replicate (length buckets.old) 0 }
    requires links { links.old ≡ replicate (length hashes.now) 0 }
    requires long { length links.old ≡ length hashes.now }
    ensures buckets { buckets.new ≡ bucket_words hashes.now (length buckets.old) (length hashes.now) }
    ensures links { links.new ≡ name_words hashes.now (length buckets.old) (length hashes.now) }
{
    for i in 1..hashes.len() {
        let bucket = hashes[i] as usize % buckets.len();
        links[i] = buckets[bucket];
        buckets[bucket] = i as u32;
    }
}

/// Puts in the words of so many buckets, and behind them those of the names.
fn fill(hashes: &[u32], words: &mut [u32], buckets: usize)
    requires some { 1 ≤ length hashes.now }
    requires small { length hashes.now ≤ 2 ^ 20 }
    requires buckets { 1 ≤ buckets }
    requires empty { words.old ≡ replicate (buckets + length hashes.now) 0 }
    ensures { words.new ≡ bucket_words hashes.now buckets (length hashes.now) ++ name_words hashes.now buckets (length hashes.now) }
{
    let (buckets, links) = words.split_at_mut(buckets);
    link(hashes, buckets, links);
}

/// The words of a table of names that have these hashes: the number of buckets, the number of names, a word for each
/// bucket and a word for each name.
pub fn words_of_hashes(alloc: Global, hashes: &[u32]) -> Result<Vec<u32>, NoMemory>
    requires some { 1 ≤ length hashes.now }
    requires small { length hashes.now ≤ 2 ^ 20 }
    ensures { IfOk result (λ words. words.items ≡ words_of hashes.now) }
{
    let count = hashes.len();
    let buckets = (count / 2).max(1);
    let mut words = Vec::with_capacity(alloc, 2 + buckets + count)?;
    words.push_reserved(buckets as u32);
    words.push_reserved(count as u32);
    words.resize(2 + buckets + count, 0)?;
    fill(hashes, &mut words[2..], buckets);
    Ok(words)
}

/// The hashes of the names.
fn hashes_of(alloc: Global, names: &NameList) -> Result<Vec<u32>, NoMemory>
    ensures { IfOk result (λ hashes. hashes.items ≡ map system_v_hash_of (map (λ p. p.0) names.now)) }
{
    let mut hashes = Vec::with_capacity(alloc, names.len())?;
    for i in 0..names.len() {
        hashes.push(system_v_hash(names.name(i)))?;
    }
    Ok(hashes)
}

/// The table of these names, of which the first isn't defined, and defined ones are distinct. A bucket leads to the last
/// name that falls into it, and each name to the one before it in the same bucket.
pub fn build(alloc: Global, names: NameList) -> Result<Chains, NoMemory>
    requires some { 1 ≤ length names }
    requires small { length names ≤ 2 ^ 20 }
    requires first { (slice_index_or names 0 ([], false)).1 ≡ false }
    requires distinct { AreDistinct names }
    ensures { IfOk result (λ chains. chains ≡ table_of (built_words (map (λ p. p.0) names)) names) }
{
    let hashes = hashes_of(alloc, &names)?;
    let words = words_of_hashes(alloc, &hashes)?;
    Chains::of_sound(alloc, words, names)
}
