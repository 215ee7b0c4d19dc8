//! What one word loads.

ghost use Rattle.std.specs.Prelude.{◌≡◌, ◌<◌, OnOk, length, slice_index, slice_index_or};
ghost use Rattle.std.specs.List.Sorted.{IsStrictlyIncreasing};
ghost use Rattle.cap_reach.specs.Reach.{may_load as may_load_of};
ghost use Rattle.cap_reach.specs.Places.{Gives, LoadsAt};
ghost use Rattle.cap_reach.specs.Work.{IsWork, Grows};

use crate::work::{Work, find_within};
use bitflags::Flags;
use cap_conc::{Fields, Word, decode};
use cap_image::{SENTRY, UNSEALED, granules_below};
use cap_own::Perms;
use std::alloc::AllocError;

/// Whether a word with these fields may load others.
fn may_load(fields: Fields) -> bool
    ensures { result ≡ may_load_of fields }
{
    let perms = Perms::from_bits_retain(fields.perms);
    (fields.otype == UNSEALED || fields.otype == SENTRY)
        && perms.contains(Perms::LOAD)
        && perms.contains(Perms::LOAD_CAP)
}

/// Finds all that a word with these fields loads.
fn follow_fields(granules: &[u64], fields: Fields, work: &mut Work) -> Result<(), AllocError>
    requires ascending { IsStrictlyIncreasing granules.now }
    requires work { IsWork work.old.next.items work.old.found.items }
    requires size { length work.old.next.items ≡ length granules.now }
    ensures work { OnOk result (IsWork work.new.next.items work.new.found.items) }
    ensures size { length work.new.next.items ≡ length work.old.next.items }
    ensures found { OnOk result (Grows (λ k. (k < length granules.now) × Gives fields (slice_index granules.now k)) (length granules.now) work.old.found.items work.new.found.items) }
{
    if may_load(fields) {
        let low = granules_below(granules, fields.base);
        find_within(granules, low, fields.top, work)
    } else {
        Ok(())
    }
}

/// Finds all that the word at place `i` loads.
pub(crate) fn follow(
    granules: &[u64],
    words: &[Word],
    i: usize,
    work: &mut Work,
) -> Result<(), AllocError>
    requires ascending { IsStrictlyIncreasing granules.now }
    requires work { IsWork work.old.next.items work.old.found.items }
    requires size { length work.old.next.items ≡ length granules.now }
    requires within { i < length words.now }
    ensures work { OnOk result (IsWork work.new.next.items work.new.found.items) }
    ensures size { length work.new.next.items ≡ length work.old.next.items }
    ensures found { OnOk result (Grows (LoadsAt granules.now words.now i) (length granules.now) work.old.found.items work.new.found.items) }
{
    follow_fields(granules, decode(words[i]), work)
}
