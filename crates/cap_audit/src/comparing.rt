//! Comparing an image with the wanted one.

ghost use Rattle.std.specs.Prelude.{◌≡◌, ◌++◌, ◌+◌, ◌<◌, [], length, IfOk, OnOk};
ghost use Rattle.std.specs.List.{cons_option};
ghost use Rattle.cap_audit.specs.Findings.{have_same_head, object_finding, object_at, version_findings, head_findings, body_findings, granules_below, orders_below, findings};
ghost use Rattle.cap_audit.specs.Alike.{is_same_object_at, HaveSameObjects};

use crate::differing::{add_differences, has_same_memory, has_same_records};
use crate::finding::{Finding, Findings, What};
use crate::object::Object;
use cap_base::NoMemory;
use cap_image::Image;
use std::alloc::Global;

/// Where the version stands in the file of an image.
const VERSION_AT: u64 = 8;

/// What differs between an image and the wanted one: the version and the objects, or where these are the same, the
/// granules in ascending order, and then the orders of word records.
///
/// `NoMemory` comes where the machine refuses memory for the list, or for the tables of the granules.
#[tactic(auto, unfolding(crate::specs::Findings::findings), using(crate::proofs::Heads::heads_first, crate::proofs::Heads::bodies_after))]
pub fn compare(alloc: Global, image: &Image, wanted: &Image) -> Result<Findings, NoMemory>
    ensures { IfOk result (λ found. found ≡ findings image.now wanted.now) }
{
    let heads = compare_heads(alloc, image, wanted)?;
    if heads.is_empty() {
        compare_bodies(alloc, image, wanted)
    } else {
        Ok(Findings::new(heads))
    }
}

/// What differs in the version and in the objects' bases, sizes and names.
#[tactic(auto, using(crate::proofs::Below::objects_none, crate::proofs::Below::objects_more))]
fn compare_heads(alloc: Global, image: &Image, wanted: &Image) -> Result<Vec<Finding>, NoMemory>
    ensures { IfOk result (λ found. found.items ≡ head_findings image.now wanted.now) }
{
    let mut found = compare_versions(alloc, image, wanted)?;
    for k in 0..image.len().max(wanted.len()) {
        add_object(&mut found, image, wanted, k)?;
    }
    Ok(found)
}

/// Adds whether object `k` differs.
fn add_object(
    found: &mut Vec<Finding>,
    image: &Image,
    wanted: &Image,
    k: u32,
) -> Result<(), NoMemory>
    ensures { OnOk result (found.new.items ≡ found.old.items ++ cons_option (object_finding image.now wanted.now k) []) }
{
    if !is_same_object(image, wanted, k) {
        found.push(Finding {
            what: What::Object,
            object: k,
            at: 0,
        })?;
    }
    Ok(())
}

/// What differs in the version.
fn compare_versions(alloc: Global, image: &Image, wanted: &Image) -> Result<Vec<Finding>, NoMemory>
    ensures { IfOk result (λ found. found.items ≡ version_findings image.now wanted.now) }
{
    let mut found = Vec::new(alloc);
    if image.version() != wanted.version() {
        found.push(Finding {
            what: What::Version,
            object: 0,
            at: VERSION_AT,
        })?;
    }
    Ok(found)
}

/// Whether both images have object `k`, with one base, one size and one name.
#[tactic(auto, using(crate::proofs::Heads::in_both, crate::proofs::Heads::in_one, crate::proofs::Heads::in_other))]
fn is_same_object(image: &Image, wanted: &Image, k: u32) -> bool
    ensures { result ≡ is_same_object_at image.now wanted.now k }
{
    k < image.len() && k < wanted.len() && has_same_head(image, wanted, k)
}

/// Whether object `k` has one base, one size and one name in both images.
fn has_same_head(image: &Image, wanted: &Image, k: u32) -> bool
    requires image { k < length image.now.objects }
    requires wanted { k < length wanted.now.objects }
    ensures { result ≡ have_same_head (object_at image.now k) (object_at wanted.now k) }
{
    image.base(k) == wanted.base(k)
        && image.size(k) == wanted.size(k)
        && image.name(k) == wanted.name(k)
}

/// What differs in the objects' granules, and in the orders of their word records.
#[tactic(auto, using(crate::proofs::Below::granules_none, crate::proofs::Below::orders_none, crate::proofs::Heads::same_objects))]
fn compare_bodies(alloc: Global, image: &Image, wanted: &Image) -> Result<Findings, NoMemory>
    requires { head_findings image.now wanted.now ≡ [] }
    ensures { IfOk result (λ found. found ≡ body_findings image.now wanted.now) }
{
    let mut found = Vec::new(alloc);
    let mut orders = Vec::new(alloc);
    for k in 0..image.len() {
        compare_object(alloc, &mut found, &mut orders, image, wanted, k)?;
    }
    found.extend_from_slice(&orders)?;
    Ok(Findings::new(found))
}

/// Adds what differs in the granules of object `k`, and whether the order of its word records does, behind the objects
/// before it.
#[tactic(auto, using(crate::proofs::Below::granules_more, crate::proofs::Below::orders_more, crate::proofs::Same::no_granules, crate::proofs::Same::no_order))]
fn compare_object(
    alloc: Global,
    found: &mut Vec<Finding>,
    orders: &mut Vec<Finding>,
    image: &Image,
    wanted: &Image,
    k: u32,
) -> Result<(), NoMemory>
    requires inside { k < length image.now.objects }
    requires same { HaveSameObjects image.now wanted.now }
    requires found { found.old.items ≡ granules_below image.now wanted.now k }
    requires orders { orders.old.items ≡ orders_below image.now wanted.now k }
    ensures found { OnOk result (found.new.items ≡ granules_below image.now wanted.now (k + 1)) }
    ensures orders { OnOk result (orders.new.items ≡ orders_below image.now wanted.now (k + 1)) }
{
    let same_records = has_same_records(image, wanted, k);
    if same_records && has_same_memory(image, wanted, k) {
        Ok(())
    } else {
        let own = Object::new(alloc, image, k)?;
        let other = Object::new(alloc, wanted, k)?;
        add_differences(alloc, found, orders, &own, &other, k, same_records)
    }
}
