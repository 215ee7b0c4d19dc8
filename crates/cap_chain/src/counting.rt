//! Chains gone through once more, when a table is made or adopted: on which place of its chain each index stands, and how
//! long the chain of each bucket is. So no look-up takes a step along a chain.

ghost use Rattle.std.specs.Prelude.{◌≡◌, ◌%◌, ◌<◌, ◌^◌, length, map, nat_lt, true, slice_index, IfOk, OnOk, IfSome};
ghost use Rattle.std.specs.List.{list_all};
ghost use Rattle.cap_chain.specs.Adopted.{IsTableOf, is_sound, chain_from, has, passed as passed_on};
ghost use Rattle.cap_chain.specs.Counted.{AreCounted, IsCounted, chain_in, entered, entered_all};

use cap_base::{NameList, NoMemory};
use std::alloc::Global;
use std::marker::Model;

/// Enters the places of a chain's indices, from 1 on, and answers how many they are.
fn count_chain(links: &[u32], from: u32, places: &mut Vec<u32>) -> u32
    requires few { length links.now < 2 ^ 32 }
    requires inside { list_all (λ w. nat_lt w (length links.now)) links.now ≡ true }
    requires first { from < length links.now }
    requires long { length places.old.items ≡ length links.now }
    ensures count { result ≡ length (chain_from links.now (length links.now) from) }
    ensures places { places.new.items ≡ entered 1 places.old.items (chain_from links.now (length links.now) from) }
    ensures long { length places.new.items ≡ length links.now }
{
    let mut i = from as usize;
    for step in 0..links.len() {
        if i == 0 {
            return step as u32;
        }
        places[i] = step as u32 + 1;
        i = links[i] as usize;
    }
    links.len() as u32
}

/// Enters the places of the indices of all chains, and answers how long each chain is.
fn count_all(
    alloc: Global,
    firsts: &[u32],
    links: &[u32],
    places: &mut Vec<u32>,
) -> Result<Vec<u32>, NoMemory>
    requires few { length links.now < 2 ^ 32 }
    requires first { list_all (λ w. nat_lt w (length links.now)) firsts.now ≡ true }
    requires inside { list_all (λ w. nat_lt w (length links.now)) links.now ≡ true }
    requires long { length places.old.items ≡ length links.now }
    ensures lengths { IfOk result (λ lengths. lengths.items ≡ map (λ w. length (chain_from links.now (length links.now) w)) firsts.now) }
    ensures places { OnOk result (places.new.items ≡ entered_all (λ w. chain_from links.now (length links.now) w) places.old.items firsts.now) }
{
    let mut lengths = Vec::with_capacity(alloc, firsts.len())?;
    for b in 0..firsts.len() {
        lengths.push(count_chain(links, firsts[b], places))?;
    }
    Ok(lengths)
}

/// The number at a place; 0 past the end.
fn number_at(numbers: &[u32], i: usize) -> u32
    ensures { result ≡ slice_index numbers.now i }
{
    match numbers.get(i) {
        Some(number) => *number,
        None => 0,
    }
}

/// What is counted of the chains of a sound table: of each index its place on its chain, from 1 on, and of each bucket the
/// length of its chain. Contracts see both lists.
#[derive(Debug, Drop)]
pub struct ChainCounts {
    places: Vec<u32>,
    lengths: Vec<u32>,
}

impl Model for ChainCounts {
    ghost use Rattle.cap_chain.specs.Counted.{CountLists, lists_of};

    ghost Value = { CountLists };

    ghost view = { λ c. lists_of c.places.items c.lengths.items };
}

impl ChainCounts {
    /// The counts of a sound table.
    pub(crate) fn of(
        alloc: Global,
        words: &[u32],
        names: &NameList,
    ) -> Result<ChainCounts, NoMemory>
        requires table { IsTableOf words.now names.now }
        requires few { length names.now < 2 ^ 32 }
        requires sound { is_sound words.now names.now ≡ true }
        ensures { IfOk result (λ counts. IsCounted words.now names.now counts) }
    {
        let buckets = words[0] as usize;
        let mut places = vec![in alloc; 0u32; names.len()]?;
        let firsts = &words[2..2 + buckets];
        let links = &words[2 + buckets..];
        let lengths = count_all(alloc, firsts, links, &mut places)?;
        Ok(ChainCounts { places, lengths })
    }

    /// How many indices stand on the chain of a hash's bucket up to the one that is found there, that one too; all of them
    /// where none is found. The words are those that were counted. It takes no memory, and no step along the chain.
    pub fn passed(&self, words: &[u32], hash: u32, found: Option<u32>) -> u32
        requires some { 0 < slice_index words.now 0 }
        requires counts { AreCounted words.now self.now }
        requires there { IfSome found (λ i. has i (chain_in words.now (hash % slice_index words.now 0)) ≡ true) }
        ensures { result ≡ passed_on (chain_in words.now (hash % slice_index words.now 0)) found }
    {
        match found {
            Some(i) => number_at(&self.places, i as usize),
            None => number_at(&self.lengths, hash as usize % words[0] as usize),
        }
    }
}
