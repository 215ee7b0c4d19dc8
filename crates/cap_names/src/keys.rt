//! The keys of the defined names, and their order.

ghost use Rattle.std.specs.Prelude.{◌≡◌, [], ◌+◌, ◌*◌, ◌/◌, ◌%◌, ◌<◌, ◌^◌, ◌++◌, length, drop, IfOk, OnOk};
ghost use Rattle.cap_names.specs.Named.{name_at};
ghost use Rattle.cap_names.specs.Keys.{key_at, keys_from, key_cmp, IsIndexBy};

use crate::hashing::{NameHash, spread};
use crate::sorting::sort;
use cap_base::{NameList, NoMemory};
use std::alloc::Global;
use std::cmp::Ordering;

/// The hash in a key.
pub(crate) fn hash_in(key: u64) -> u32
    ensures { result ≡ key / 2 ^ 32 }
{
    (key >> 32) as u32
}

/// The index in a key.
pub(crate) fn index_in(key: u64) -> u32
    ensures { result ≡ key % 2 ^ 32 }
{
    (key % 0x1_0000_0000) as u32
}

/// The name of the index in a key; the empty name where there is no such index.
pub(crate) fn name_in(names: &NameList, key: u64) -> &[u8]
    ensures { result.now ≡ name_at names.now (key % 2 ^ 32) }
{
    let i = index_in(key) as usize;
    if i < names.len() { names.name(i) } else { &[] }
}

/// The key of an index.
fn key_of(rule: NameHash, names: &NameList, i: usize) -> u64
    requires inside { i < length names.now }
    requires few { length names.now < 2 ^ 32 }
    ensures { result ≡ key_at rule names.now i }
{
    u64::from(spread(rule.hash(names.name(i)))) * 0x1_0000_0000 + i as u64
}

/// Appends the key of an index, if it is defined.
#[tactic(auto, using(crate::proofs::Filling::keys_taken, crate::proofs::Filling::keys_skipped))]
fn take_key(rule: NameHash, names: &NameList, i: usize, keys: &mut Vec<u64>) -> Result<(), NoMemory>
    requires inside { i < length names.now }
    requires few { length names.now < 2 ^ 32 }
    ensures { OnOk result (keys.new.items ++ keys_from rule (i + 1) (drop (i + 1) names.now) ≡ keys.old.items ++ keys_from rule i (drop i names.now)) }
{
    if names.defined(i) {
        keys.push(key_of(rule, names, i))?;
    }
    Ok(())
}

/// The keys of the defined names in order.
#[tactic(auto, using(crate::proofs::Filling::keys_done))]
fn keys_in_order(alloc: Global, rule: NameHash, names: &NameList) -> Result<Vec<u64>, NoMemory>
    requires few { length names.now < 2 ^ 32 }
    ensures { IfOk result (λ keys. keys.items ≡ keys_from rule 0 names.now) }
{
    let mut keys = Vec::with_capacity(alloc, names.len())?;
    for i in 0..names.len() {
        take_key(rule, names, i, &mut keys)?;
    }
    Ok(keys)
}

/// The order of two keys.
pub(crate) fn compare(names: &NameList, a: u64, b: u64) -> Ordering
    ensures { result ≡ key_cmp names.now a b }
{
    match hash_in(a).cmp(&hash_in(b)) {
        Ordering::Less => Ordering::Less,
        Ordering::Greater => Ordering::Greater,
        Ordering::Equal => match name_in(names, a).cmp(name_in(names, b)) {
            Ordering::Less => Ordering::Less,
            Ordering::Greater => Ordering::Greater,
            Ordering::Equal => index_in(a).cmp(&index_in(b)),
        },
    }
}

/// The keys of all defined indices in order.
pub(crate) fn keys_of(alloc: Global, rule: NameHash, names: &NameList) -> Result<Vec<u64>, NoMemory>
    requires few { length names.now < 2 ^ 32 }
    ensures { IfOk result (λ keys. IsIndexBy rule names.now keys.items) }
{
    let mut keys = keys_in_order(alloc, rule, names)?;
    sort(names, &mut keys);
    Ok(keys)
}
