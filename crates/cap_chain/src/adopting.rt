//! Tables that are read from files: whether they are sound, seen in one pass over all chains.

ghost use Rattle.std.specs.Prelude.{◌≡◌, ◌+◌, ◌<◌, ◌≤◌, ◌^◌, Some, None, if◌then◌else◌, length, replicate, drop, nat_lt, true, IfOk};
ghost use Rattle.std.specs.List.{list_all};
ghost use Rattle.cap_chain.specs.Adopted.{IsTableOf, Adopts, is_sound, chain_from};
ghost use Rattle.cap_chain.specs.Counted.{CountsChains};
ghost use Rattle.cap_names.specs.Named.{AreDistinct};
ghost use Rattle.cap_chain.specs.Marking.{marking, marking_all, is_marked, are_sound, Tells};

use crate::chains::Chains;
use crate::counting::ChainCounts;
use cap_base::{NameList, NoMemory};
use cap_names::system_v_hash;
use std::alloc::Global;

/// Why words are not adopted.
#[derive(Clone, Copy, Debug, PartialEq, Eq)]
pub enum AdoptRefusal {
    /// The table isn't sound.
    Fault,
    /// There was not enough memory.
    NoMemory,
}

impl From<NoMemory> for AdoptRefusal {
    ghost use Rattle.cap_chain.specs.declared.adopting.AdoptRefusal.TheVariants.{NoMemory};

    ghost from_gives = { λ _ e. e ≡ NoMemory };

    fn from(_: NoMemory) -> AdoptRefusal {
        AdoptRefusal::NoMemory
    }
}

/// Whether all words lead to names.
fn are_inside(words: &[u32], count: usize) -> bool
    ensures { result ≡ list_all (λ w. nat_lt w count) words.now }
{
    words.iter().all(|w| (*w as usize) < count)
}

/// Marks the indices of a chain, unless one has a mark. A chain that runs in a ring comes to its own marks.
fn mark_chain(links: &[u32], from: u32, mark: u32, marks: &mut [u32]) -> bool
    requires inside { list_all (λ w. nat_lt w (length links.now)) links.now ≡ true }
    requires first { from < length links.now }
    requires long { length marks.old ≡ length links.now }
    ensures { marking mark marks.old (chain_from links.now (length links.now) from) ≡ (if result then Some marks.new else None) }
{
    let mut i = from as usize;
    for step in 0..links.len() {
        if i == 0 {
            return true;
        }
        if marks[i] != 0 {
            return false;
        }
        marks[i] = mark;
        i = links[i] as usize;
    }
    true
}

/// Marks the indices of all chains with their buckets, unless one is reached twice.
fn mark_all(buckets: &[u32], links: &[u32], marks: &mut [u32]) -> bool
    requires few { length buckets.now < 2 ^ 32 }
    requires first { list_all (λ w. nat_lt w (length links.now)) buckets.now ≡ true }
    requires inside { list_all (λ w. nat_lt w (length links.now)) links.now ≡ true }
    requires long { length marks.old ≡ length links.now }
    ensures value { marking_all (λ w. chain_from links.now (length links.now) w) 0 marks.old buckets.now ≡ (if result then Some marks.new else None) }
    ensures long { length marks.new ≡ length marks.old }
{
    for b in 0..buckets.len() {
        if !mark_chain(links, buckets[b], b as u32 + 1, marks) {
            return false;
        }
    }
    true
}

/// Whether an index isn't defined, or has the mark of its bucket.
fn has_mark(names: &NameList, buckets: usize, marks: &[u32], i: usize) -> bool
    requires inside { i < length names.now }
    requires some { 1 ≤ buckets }
    requires small { buckets < 2 ^ 32 }
    requires long { length marks.now ≡ length names.now }
    ensures { result ≡ is_marked names.now buckets marks.now i }
{
    !names.defined(i) || marks[i] as usize == system_v_hash(names.name(i)) as usize % buckets + 1
}

/// Whether each defined index has the mark of its bucket.
fn have_marks(names: &NameList, buckets: usize, marks: &[u32]) -> bool
    requires some { 1 ≤ buckets }
    requires small { buckets < 2 ^ 32 }
    requires long { length marks.now ≡ length names.now }
    ensures { Tells (is_marked names.now buckets marks.now) (length names.now) result }
{
    for i in 0..names.len() {
        if !has_mark(names, buckets, marks, i) {
            return false;
        }
    }
    true
}

/// Whether the words of the buckets and of the names are those of a sound table.
fn are_lists_sound(firsts: &[u32], links: &[u32], names: &NameList, marks: &mut [u32]) -> bool
    requires some { 1 ≤ length firsts.now }
    requires few { length firsts.now < 2 ^ 32 }
    requires first { list_all (λ w. nat_lt w (length names.now)) firsts.now ≡ true }
    requires inside { list_all (λ w. nat_lt w (length names.now)) links.now ≡ true }
    requires long { length links.now ≡ length names.now }
    requires clear { marks.old ≡ replicate (length names.now) 0 }
    ensures { result ≡ are_sound firsts.now links.now (length firsts.now) names.now }
{
    if !mark_all(firsts, links, marks) {
        return false;
    }
    have_marks(names, firsts.len(), marks)
}

/// Whether the words, which all lead to names, are those of a sound table.
fn is_table_sound(words: &[u32], names: &NameList, marks: &mut [u32]) -> bool
    requires table { IsTableOf words.now names.now }
    requires inside { list_all (λ w. nat_lt w (length names.now)) (drop 2 words.now) ≡ true }
    requires clear { marks.old ≡ replicate (length names.now) 0 }
    ensures { result ≡ is_sound words.now names.now }
{
    let buckets = words[0] as usize;
    let firsts = &words[2..2 + buckets];
    let links = &words[2 + buckets..];
    are_lists_sound(firsts, links, names, marks)
}

/// Whether the words are those of a sound table.
fn is_adoptable(alloc: Global, words: &[u32], names: &NameList) -> Result<bool, NoMemory>
    requires { IsTableOf words.now names.now }
    ensures { IfOk result (λ sound. sound ≡ is_sound words.now names.now) }
{
    let count = words[1] as usize;
    if !are_inside(&words[2..], count) {
        return Ok(false);
    }
    let mut marks = vec![in alloc; 0u32; count]?;
    Ok(is_table_sound(words, names, &mut marks))
}

/// A copy of the words.
fn copy(alloc: Global, words: &[u32]) -> Result<Vec<u32>, NoMemory>
    ensures { IfOk result (λ copy. copy.items ≡ words.now) }
{
    Ok(Vec::from_slice(alloc, words)?)
}

/// What is counted of the chains of these words, which lead to names. The words are as many as the first two tell, as
/// DT_HASH has them.
///
/// Fault comes exactly where a word after the first two isn't the index of a name, or an index other than 0 is reached
/// twice from the buckets, or a defined name isn't on the chain of its bucket.
pub fn count_chains(
    alloc: Global,
    words: &[u32],
    names: &NameList,
) -> Result<ChainCounts, AdoptRefusal>
    requires { IsTableOf words.now names.now }
    ensures { CountsChains words.now names.now result }
{
    if !is_adoptable(alloc, words, names)? {
        return Err(AdoptRefusal::Fault);
    }
    Ok(ChainCounts::of(alloc, words, names)?)
}

/// The table of these words and names, in which names that count as defined are distinct. Fault comes exactly where it
/// comes of `count_chains`.
pub fn adopt(alloc: Global, words: &[u32], names: NameList) -> Result<Chains, AdoptRefusal>
    requires table { IsTableOf words.now names }
    requires distinct { AreDistinct names }
    ensures { Adopts words.now names result }
{
    let counts = count_chains(alloc, words, &names)?;
    let words = copy(alloc, words)?;
    Ok(Chains::counted(alloc, words, counts, names)?)
}
