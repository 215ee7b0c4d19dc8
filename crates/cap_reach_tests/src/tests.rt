//! What a page of three words gives.

use crate::by_hand::image_by_hand;
use cap_image::{Image, read};
use cap_reach::{ReachRefusal, Slots, reach, reach_laws, report};
use std::alloc::Global;
use std::process::Abort;
use std::test::Fail;

const REPORT: &[u8] = b"cap 0x0000000040000000 base 0x0000000040000100 top 0x00000000040000110 \
    cursor 0x0000000040000100 perms 0015 flag 0 unsealed\n\
    cap 0x0000000040000100 base 0x0000000040000100 top 0x00000000040000110 \
    cursor 0x0000000040000100 perms 0015 flag 0 unsealed\n\
    reached 2 of 3\n";

fn expect_two(rt: &impl Abort, slots: &Slots) {
    assert!(rt; !slots.is_empty());
    assert!(rt; slots.len() == 2);
    assert_eq!(rt; slots.get(0), 0x4000_0000);
    assert_eq!(rt; slots.get(1), 0x4000_0100);
    assert_eq!(rt; slots.as_slice().len(), 2);
}

fn expect_untagged(rt: &impl Abort, alloc: Global, image: &Image, slot: u64) {
    let refusal = ReachRefusal::NotTagged { slot };
    assert_eq!(rt; reach(alloc, image, slot).err(), Some(refusal));
}

#[test]
fn a_word_gives_what_it_covers(rt: HostRuntime) -> Result<(), Fail> {
    let file = image_by_hand(rt.alloc())?;
    let image = read(rt.alloc(), file)?;
    let slots = reach(rt.alloc(), &image, 0x4000_0000)?;
    expect_two(&rt, &slots);
    let text = report(rt.alloc(), &image, &slots)?;
    assert_eq!(rt; text.as_slice(), REPORT);
    reach_laws();
    Ok(())
}

#[test]
fn a_slot_without_a_tag_is_refused(rt: HostRuntime) -> Result<(), Fail> {
    let file = image_by_hand(rt.alloc())?;
    let image = read(rt.alloc(), file)?;
    expect_untagged(&rt, rt.alloc(), &image, 0x4000_0010);
    expect_untagged(&rt, rt.alloc(), &image, 0x4000_0001);
    expect_untagged(&rt, rt.alloc(), &image, 0x4000_1000);
    Ok(())
}
