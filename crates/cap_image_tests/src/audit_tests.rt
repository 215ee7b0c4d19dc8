//! An image is compared with the wanted one.

use crate::by_hand::image_by_hand;
use cap_audit::{Finding, Findings, What, audit_laws, compare, report};
use cap_base::Refusal;
use cap_image::{Image, read};
use std::alloc::Global;
use std::process::Abort;
use std::test::Fail;

/// Where the file has the permissions of the first word.
const PERMISSIONS_AT: usize = 37 + 14;

const REPORT: &[u8] = b"finding word object 0 at 0x0000000040000000\nfindings 1\n";

/// The image whose first word has other permissions.
fn changed(alloc: Global) -> Result<Image, Refusal> {
    let mut file = image_by_hand(alloc)?;
    if let Some(byte) = file.get_mut(PERMISSIONS_AT) {
        *byte = 0x7D;
    }
    read(alloc, file)
}

fn expect_word(rt: &impl Abort, found: &Findings) {
    assert!(rt; !found.is_empty());
    assert!(rt; found.len() == 1);
    let word = Finding {
        what: What::Word,
        object: 0,
        at: 0x4000_0000,
    };
    assert_eq!(rt; found.get(0), word);
    assert_eq!(rt; found.as_slice().len(), 1);
}

#[test]
fn the_same_image_has_no_findings(rt: HostRuntime) -> Result<(), Fail> {
    let image = read(rt.alloc(), image_by_hand(rt.alloc())?)?;
    let wanted = read(rt.alloc(), image_by_hand(rt.alloc())?)?;
    let found = compare(rt.alloc(), &image, &wanted)?;
    assert!(rt; found.is_empty());
    let text = report(rt.alloc(), &found)?;
    assert_eq!(rt; text.as_slice(), b"findings 0\n".as_slice());
    audit_laws();
    Ok(())
}

#[test]
fn other_permissions_are_found(rt: HostRuntime) -> Result<(), Fail> {
    let image = changed(rt.alloc())?;
    let wanted = read(rt.alloc(), image_by_hand(rt.alloc())?)?;
    let found = compare(rt.alloc(), &image, &wanted)?;
    expect_word(&rt, &found);
    let text = report(rt.alloc(), &found)?;
    assert_eq!(rt; text.as_slice(), REPORT);
    Ok(())
}
