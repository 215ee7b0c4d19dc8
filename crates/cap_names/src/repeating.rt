//! Names that are defined more than once.

ghost use Rattle.std.specs.Prelude.{◌≡◌, ◌+◌, ◌-◌, ◌<◌, ◌≤◌, length, IsTrue, ◌↔◌, slice_index_or};
ghost use Rattle.cap_names.specs.Named.{is_repeated, IsLeast};
ghost use Rattle.cap_names.specs.Keys.{rank_of, IsIndexOf, Seen};

use crate::keys::{hash_in, index_in, name_in};
use cap_base::NameList;

/// Whether two keys have one hash and one name.
fn are_same(names: &NameList, a: u64, b: u64) -> bool
    ensures { IsTrue result ↔ (rank_of names.now a ≡ rank_of names.now b) }
{
    hash_in(a) == hash_in(b) && name_in(names, a) == name_in(names, b)
}

/// The least index so far, once a key and the next one are seen.
#[tactic(auto, using(crate::proofs::Repeats::seen_other, crate::proofs::Repeats::seen_first, crate::proofs::Repeats::seen_less, crate::proofs::Repeats::seen_more))]
fn with_pair(names: &NameList, keys: &[u64], k: usize, least: Option<u32>) -> Option<u32>
    requires index { IsIndexOf names.now keys.now }
    requires inside { k + 1 < length keys.now }
    requires seen { Seen names.now keys.now (k + 1) least }
    ensures { Seen names.now keys.now (k + 1 + 1) result }
{
    if !are_same(names, keys[k], keys[k + 1]) {
        return least;
    }
    let next = index_in(keys[k + 1]);
    let Some(i) = least else {
        return Some(next);
    };
    if i <= next { Some(i) } else { Some(next) }
}

/// The least index that is defined and has the name of an earlier one that is defined.
#[tactic(auto, using(crate::proofs::Repeats::seen_none, crate::proofs::Repeats::seen_all))]
pub(crate) fn first_repeated(names: &NameList, keys: &[u64]) -> Option<u32>
    requires { IsIndexOf names.now keys.now }
    ensures { IsLeast (is_repeated names.now) result }
{
    let mut least = None;
    for k in 0..keys.len().saturating_sub(1) {
        least = with_pair(names, keys, k, least);
    }
    least
}
