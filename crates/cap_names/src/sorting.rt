//! The order of the keys: as numbers, which is by hash, and then those of one hash by their names.

ghost use Rattle.std.specs.Prelude.{◌≡◌, ◌≢◌, ℕ, ◌+◌, ◌/◌, ◌<◌, ◌≤◌, ◌^◌, length, slice_index_or};
ghost use Rattle.std.specs.List.Sorted.{IsPermutation, IsSortedBy, IsNonDecreasing};
ghost use Rattle.cap_names.specs.Keys.{key_lt};
ghost use Rattle.cap_names.specs.Runs.{IsRun, Settles, IsSettled};

use crate::keys::{compare, hash_in};
use cap_base::NameList;

/// Where the keys end that have the hash of the key at a place.
fn run_end(keys: &[u64], at: usize) -> usize
    requires { at < length keys.now }
    ensures { IsRun keys.now at result }
{
    let hash = hash_in(keys[at]);
    for i in at + 1..keys.len() {
        if hash_in(keys[i]) != hash {
            return i;
        }
    }
    keys.len()
}

/// Puts keys of one hash in order.
fn sort_run(names: &NameList, keys: &mut [u64], at: usize, end: usize)
    requires { IsRun keys.old at end }
    ensures { Settles names.now keys.old keys.new at end }
{
    keys[at..end].sort_unstable_by(|a, b| compare(names, *a, *b));
}

/// Puts the keys from a place on that have one hash in order, and tells where they end.
fn settle(names: &NameList, keys: &mut [u64], at: usize) -> usize
    requires inside { at < length keys.old }
    requires settled { IsSettled names.now keys.old at }
    ensures moved { IsPermutation keys.old keys.new }
    ensures settled { IsSettled names.now keys.new result }
    ensures more { at < result }
{
    let end = run_end(keys, at);
    if end - at > 1 {
        sort_run(names, keys, at, end);
    }
    end
}

/// Puts the keys in order.
pub(crate) fn sort(names: &NameList, keys: &mut [u64])
    ensures moved { IsPermutation keys.old keys.new }
    ensures sorted { IsSortedBy (key_lt names.now) keys.new }
{
    keys.sort_unstable();
    let mut at = 0;
    while at < keys.len() {
        at = settle(names, keys, at);
    }
}
