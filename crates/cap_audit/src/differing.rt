//! What differs in two objects of one base and one size.

ghost use Rattle.std.specs.Prelude.{◌≡◌, ◌++◌, ◌+◌, ◌*◌, ◌/◌, ◌<◌, [], length, slice_index_or, IfOk, OnOk, Some};
ghost use Rattle.std.specs.List.{cons_option};
ghost use Rattle.cap_image.specs.Parts.{no_word};
ghost use Rattle.cap_image.specs.Entries.{numbered, IsNumber};
ghost use Rattle.cap_audit.specs.Findings.{is_same_source as is_same_source_of, is_same_record as is_same_record_of, record_of, what_differs as what_differs_of, difference_at, findings_below, granule_findings, order_finding, have_same_records, tell_of_records as tell_of_records_in, tells_of_records as tells_of_records_of, object_at};
ghost use Rattle.cap_audit.specs.Alike.{AreAlike, are_same_eight, have_same_memory};

use crate::finding::{Finding, What};
use crate::object::Object;
use cap_base::NoMemory;
use cap_image::Image;
use std::alloc::Global;

/// Whether object `k` has the same word records in both images, in the same order.
#[tactic(auto, unfolding(crate::specs::Findings::have_same_records), using(crate::proofs::Records::other_count, crate::proofs::Records::first_records, crate::proofs::Records::same_record, crate::proofs::Records::other_record, crate::proofs::Records::all_records))]
pub(crate) fn has_same_records(image: &Image, wanted: &Image, k: u32) -> bool
    requires image { k < length image.now.objects }
    requires wanted { k < length wanted.now.objects }
    ensures { result ≡ have_same_records (object_at image.now k) (object_at wanted.now k) }
{
    if image.words_len(k) != wanted.words_len(k) {
        return false;
    }
    for i in 0..image.words_len(k) {
        if !is_same_record(image, wanted, k, i) {
            return false;
        }
    }
    true
}

/// Whether word record `i` of object `k` is the same in both images.
fn is_same_record(image: &Image, wanted: &Image, k: u32, i: u32) -> bool
    requires image { k < length image.now.objects }
    requires wanted { k < length wanted.now.objects }
    requires word { i < length (object_at image.now k).words }
    requires wanted_word { i < length (object_at wanted.now k).words }
    ensures { result ≡ is_same_record_of (slice_index_or (object_at image.now k).words i no_word) (slice_index_or (object_at wanted.now k).words i no_word) }
{
    let word = image.word(k, i);
    let wanted_word = wanted.word(k, i);
    word.granule == wanted_word.granule
        && word.owner == wanted_word.owner
        && image.word_name(k, i) == wanted.word_name(k, i)
}

/// Whether object `k` has the same bytes and the same tags in both images.
pub(crate) fn has_same_memory(image: &Image, wanted: &Image, k: u32) -> bool
    requires image { k < length image.now.objects }
    requires wanted { k < length wanted.now.objects }
    ensures { result ≡ have_same_memory (object_at image.now k) (object_at wanted.now k) }
{
    image.bytes(k) == wanted.bytes(k) && image.tags(k) == wanted.tags(k)
}

/// Adds what differs in the granules of object `k`, and whether the order of its word records does.
pub(crate) fn add_differences(
    alloc: Global,
    found: &mut Vec<Finding>,
    orders: &mut Vec<Finding>,
    own: &Object,
    other: &Object,
    k: u32,
    same_records: bool,
) -> Result<(), NoMemory>
    requires alike { AreAlike own.now other.now }
    requires records { same_records ≡ have_same_records own.now other.now }
    ensures found { OnOk result (found.new.items ≡ found.old.items ++ granule_findings k own.now other.now) }
    ensures orders { OnOk result (orders.new.items ≡ orders.old.items ++ cons_option (order_finding k own.now other.now) []) }
{
    let differences = list_differences(alloc, own, other, k)?;
    found.extend_from_slice(&differences)?;
    if !tell_of_records(&differences) && !same_records {
        orders.push(Finding {
            what: What::Order,
            object: k,
            at: own.base(),
        })?;
    }
    Ok(())
}

/// Whether findings tell that a granule has another word record, or none.
#[tactic(auto, unfolding(crate::specs::Findings::tell_of_records))]
fn tell_of_records(found: &[Finding]) -> bool
    ensures { result ≡ tell_of_records_in found.now }
{
    found.iter().any(|finding| tells_of_records(finding.what))
}

fn tells_of_records(what: What) -> bool
    ensures { result ≡ tells_of_records_of what }
{
    matches!(what, What::Tag | What::Owner)
}

/// What differs in the granules of object `k`. Eight granules that share a tag byte are passed over at once where none of
/// them is tagged and their bytes are the same.
#[tactic(auto, using(crate::proofs::Granules::no_findings, crate::proofs::Granules::eight_less, crate::proofs::Granules::all_findings))]
fn list_differences(
    alloc: Global,
    own: &Object,
    other: &Object,
    k: u32,
) -> Result<Vec<Finding>, NoMemory>
    requires { AreAlike own.now other.now }
    ensures { IfOk result (λ found. found.items ≡ granule_findings k own.now other.now) }
{
    let mut found = Vec::new(alloc);
    for j in 0..own.tags().len() {
        if !is_same_eight(own, other, j) {
            push_eight(&mut found, own, other, k, j)?;
        }
    }
    Ok(found)
}

/// Whether eight granules have the same bytes, and none of them is tagged.
fn is_same_eight(own: &Object, other: &Object, j: usize) -> bool
    requires alike { AreAlike own.now other.now }
    requires j { j < length own.now.tags }
    ensures { result ≡ are_same_eight own.now other.now j }
{
    let tags = own.tags();
    let other_tags = other.tags();
    tags[j] == 0 && other_tags[j] == 0 && own.eight(j) == other.eight(j)
}

/// Adds what differs in the eight granules that share tag byte `j`.
fn push_eight(
    found: &mut Vec<Finding>,
    own: &Object,
    other: &Object,
    k: u32,
    j: usize,
) -> Result<(), NoMemory>
    requires alike { AreAlike own.now other.now }
    requires j { j < length own.now.tags }
    requires found { found.old.items ≡ findings_below k own.now other.now (8 * j) }
    ensures { OnOk result (found.new.items ≡ findings_below k own.now other.now (8 * j + 8)) }
{
    let _sound = own.base();
    for n in 8 * j..8 * j + 8 {
        push_difference(found, own, other, k, n)?;
    }
    Ok(())
}

/// Adds what differs at granule `n`.
#[tactic(auto, using(crate::proofs::Granules::one_more, crate::proofs::Granules::one_less))]
fn push_difference(
    found: &mut Vec<Finding>,
    own: &Object,
    other: &Object,
    k: u32,
    n: usize,
) -> Result<(), NoMemory>
    requires alike { AreAlike own.now other.now }
    requires n { n < length own.now.bytes / 16 }
    requires found { found.old.items ≡ findings_below k own.now other.now n }
    ensures { OnOk result (found.new.items ≡ findings_below k own.now other.now (n + 1)) }
{
    match difference(own, other, n) {
        None => Ok(()),
        Some(what) => {
            found.push(Finding {
                what,
                object: k,
                at: own.base() + 16 * n as u64,
            })?;
            Ok(())
        }
    }
}

/// What differs at granule `n`.
#[tactic(auto, unfolding(crate::specs::Findings::difference_at))]
fn difference(own: &Object, other: &Object, n: usize) -> Option<What>
    requires alike { AreAlike own.now other.now }
    requires n { n < length own.now.bytes / 16 }
    ensures { result ≡ difference_at own.now other.now n }
{
    let same_bytes = own.granule(n) == other.granule(n);
    what_differs(
        own.tag(n),
        other.tag(n),
        same_bytes,
        is_same_source(own, other, n),
    )
}

/// What differs at a granule, by its tags in the two images, and by whether its bytes and its word's source are the same.
fn what_differs(tag: bool, other_tag: bool, same_bytes: bool, same_source: bool) -> Option<What>
    ensures { result ≡ what_differs_of tag other_tag same_bytes same_source }
{
    if tag != other_tag {
        Some(What::Tag)
    } else if !same_bytes {
        Some(if tag { What::Word } else { What::Bytes })
    } else if tag && !same_source {
        Some(What::Owner)
    } else {
        None
    }
}

/// Whether the words at granule `n` are made from the symbol of one name in one object.
fn is_same_source(own: &Object, other: &Object, n: usize) -> bool
    requires alike { AreAlike own.now other.now }
    requires n { n < length own.now.bytes / 16 }
    ensures { result ≡ is_same_source_of (record_of own.now n) (record_of other.now n) }
{
    has_same_source(own, own.entry(n), other, other.entry(n))
}

/// Whether word records, by their numbers, are of the symbol of one name in one object.
fn has_same_source(
    own: &Object,
    entry: Option<u32>,
    other: &Object,
    other_entry: Option<u32>,
) -> bool
    requires entry { IsNumber own.now entry }
    requires other_entry { IsNumber other.now other_entry }
    ensures { result ≡ is_same_source_of (numbered own.now entry) (numbered other.now other_entry) }
{
    match entry {
        None => other_entry.is_none(),
        Some(i) => match other_entry {
            None => false,
            Some(j) => { own.owner(i) == other.owner(j) && own.word_name(i) == other.word_name(j) }
        },
    }
}
