//! An image is read, and has its report.

use crate::by_hand::image_by_hand;
use cap_base::Refusal;
use cap_image::{Image, Version, WordNote, image_laws, read, report};
use std::process::Abort;
use std::test::Fail;

const REPORT: &[u8] = b"object 0x0000000040000000 0x0000000000001000 app\n\
    cap 0x0000000040000000 base 0x0000000040000100 top 0x00000000040000110 \
    cursor 0x0000000040000100 perms 0015 flag 0 unsealed owner 0 symbol count\n\
    objects 1 words 1\n";

fn expect_object(rt: &impl Abort, image: &Image) {
    assert_eq!(rt; image.version(), Version::Two);
    assert!(rt; !image.is_empty());
    assert!(rt; image.len() == 1);
    assert_eq!(rt; image.base(0), 0x4000_0000);
    assert_eq!(rt; image.size(0), 0x1000);
    assert_eq!(rt; image.name(0), b"app".as_slice());
}

fn expect_body(rt: &impl Abort, image: &Image) {
    assert!(rt; image.len() == 1);
    assert_eq!(rt; image.bytes(0).len(), 0x1000);
    assert_eq!(rt; image.tags(0).len(), 32);
    assert!(rt; image.tag(0x4000_000F));
    assert!(rt; !image.tag(0x4000_0010));
}

fn expect_word(rt: &impl Abort, image: &Image) {
    assert!(rt; image.len() == 1);
    assert!(rt; image.words_len(0) == 1);
    let first = WordNote {
        granule: 0x4000_0000,
        owner: 0,
    };
    assert_eq!(rt; image.word(0, 0), first);
    assert_eq!(rt; image.word_name(0, 0), b"count".as_slice());
}

#[test]
fn an_image_is_read(rt: HostRuntime) -> Result<(), Fail> {
    let file = image_by_hand(rt.alloc())?;
    let image = read(rt.alloc(), file)?;
    expect_object(&rt, &image);
    expect_body(&rt, &image);
    expect_word(&rt, &image);
    image_laws();
    Ok(())
}

#[test]
fn an_image_has_its_report(rt: HostRuntime) -> Result<(), Fail> {
    let file = image_by_hand(rt.alloc())?;
    let image = read(rt.alloc(), file)?;
    let text = report(rt.alloc(), &image)?;
    assert_eq!(rt; text.as_slice(), REPORT);
    Ok(())
}

#[test]
fn a_longer_image_is_refused(rt: HostRuntime) -> Result<(), Fail> {
    let mut file = image_by_hand(rt.alloc())?;
    file.push(0)?;
    let refusal = Refusal::Malformed {
        file: 0,
        check: 86,
        at: 4186,
    };
    assert_eq!(rt; read(rt.alloc(), file).err(), Some(refusal));
    Ok(())
}
