//! Look-up among the keys.

ghost use Rattle.std.specs.Prelude.{◌≡◌, ◌+◌, ◌-◌, ◌/◌, ◌<◌, ◌≤◌, ◌^◌, length, IsTrue, slice_index_or};
ghost use Rattle.cap_names.specs.Named.{first_defined};
ghost use Rattle.cap_names.specs.Keys.{rank_of, is_below, has_rank, IsIndexOf, HasHash, IsWindow};

use crate::keys::{hash_in, index_in, name_in};
use cap_base::NameList;
use std::cmp::Ordering;

/// Whether the key is below the name that is sought.
fn is_key_below(names: &NameList, key: u64, hash: u32, name: &[u8]) -> bool
    ensures { result ≡ is_below (rank_of names.now key) (hash, name.now) }
{
    match hash_in(key).cmp(&hash) {
        Ordering::Less => true,
        Ordering::Greater => false,
        Ordering::Equal => name_in(names, key).cmp(name).is_lt(),
    }
}

/// Whether the key has the hash, and its index the name.
fn is_key_of(names: &NameList, key: u64, hash: u32, name: &[u8]) -> bool
    ensures { result ≡ has_rank names.now key hash name.now }
{
    hash_in(key) == hash && name_in(names, key) == name
}

/// Whether the key before a place, if there is one, has a lesser hash.
fn is_after_lesser(keys: &[u64], low: usize, hash: u32) -> bool
    requires { low ≤ length keys.now }
    ensures { IsTrue result → 0 < low → slice_index_or keys.now (low - 1) 0 / 2 ^ 32 < hash }
{
    if low == 0 {
        return true;
    }
    hash_in(keys[low - 1]) < hash
}

/// Whether the key at a place, if there is one, has a greater hash.
fn is_before_greater(keys: &[u64], high: usize, hash: u32) -> bool
    ensures { IsTrue result → high < length keys.now → hash < slice_index_or keys.now high 0 / 2 ^ 32 }
{
    if keys.len() <= high {
        return true;
    }
    hash < hash_in(keys[high])
}

/// Whether the keys before a guessed window have lesser hashes, and those behind it greater ones.
fn is_window(
    names: &NameList,
    keys: &[u64],
    low: usize,
    high: usize,
    hash: u32,
    name: &[u8],
) -> bool
    requires { IsIndexOf names.now keys.now }
    ensures { IsTrue result → IsWindow names.now keys.now (hash, name.now) low high }
{
    if high < low {
        return false;
    }
    if keys.len() < high {
        return false;
    }
    if !is_after_lesser(keys, low, hash) {
        return false;
    }
    is_before_greater(keys, high, hash)
}

/// The guessed window, if it is one; else all keys.
#[tactic(auto, using(crate::proofs::Finding::whole_window))]
fn window(
    names: &NameList,
    keys: &[u64],
    guess: (usize, usize),
    hash: u32,
    name: &[u8],
) -> (usize, usize)
    requires { IsIndexOf names.now keys.now }
    ensures { IsWindow names.now keys.now (hash, name.now) result.0 result.1 }
{
    if is_window(names, keys, guess.0, guess.1, hash, name) {
        guess
    } else {
        (0, keys.len())
    }
}

/// Half of a window.
#[tactic(auto, using(crate::proofs::Finding::window_up, crate::proofs::Finding::window_down))]
fn halved(
    names: &NameList,
    keys: &[u64],
    window: (usize, usize),
    hash: u32,
    name: &[u8],
) -> (usize, usize)
    requires index { IsIndexOf names.now keys.now }
    requires window { IsWindow names.now keys.now (hash, name.now) window.0 window.1 }
    requires some { window.0 < window.1 }
    ensures window { IsWindow names.now keys.now (hash, name.now) result.0 result.1 }
    ensures less { result.1 - result.0 < window.1 - window.0 }
{
    let mid = window.0 + (window.1 - window.0) / 2;
    if is_key_below(names, keys[mid], hash, name) {
        (mid + 1, window.1)
    } else {
        (window.0, mid)
    }
}

/// The first place whose key isn't below the name that is sought.
fn first_place(
    names: &NameList,
    keys: &[u64],
    guess: (usize, usize),
    hash: u32,
    name: &[u8],
) -> usize
    requires { IsIndexOf names.now keys.now }
    ensures { IsWindow names.now keys.now (hash, name.now) result result }
{
    let mut part = window(names, keys, guess, hash, name);
    while part.0 < part.1 {
        part = halved(names, keys, part, hash, name);
    }
    part.0
}

/// The least index that is defined and has the name.
#[tactic(auto, using(crate::proofs::Finding::found_here, crate::proofs::Finding::found_none))]
pub(crate) fn find(
    names: &NameList,
    keys: &[u64],
    guess: (usize, usize),
    hash: u32,
    name: &[u8],
) -> Option<u32>
    requires index { IsIndexOf names.now keys.now }
    requires hashed { HasHash names.now keys.now hash name.now }
    ensures { result ≡ first_defined names.now name.now }
{
    let at = first_place(names, keys, guess, hash, name);
    if at == keys.len() {
        return None;
    }
    if is_key_of(names, keys[at], hash, name) {
        return Some(index_in(keys[at]));
    }
    None
}
