ghost use Rattle.std.specs.Prelude.{◌+◌, ◌≤◌};
ghost use Rattle.cap_own.specs.Cap.{IsWithin, IsSubset};

use super::*;
use cap_conc::Word;
use std::process::Abort;

#[test]
fn a_space_carves_and_takes_back(rt: HostRuntime) {
    let mut space = Space::new(0x4000_1000, 0x4400_0000);
    assert!(rt; 8192u64.is_power_of_two());
    let (pad, body) = space.carve(8192, 4096).expect(&rt, "there is room");
    assert_eq!(rt; pad.base(), 0x4000_1000);
    assert_eq!(rt; pad.len(), 0x1000);
    assert_eq!(rt; body.base(), 0x4000_2000);
    assert_eq!(rt; body.len(), 0x1000);
    let (low, high) = body.split(0x4000_2800);
    assert_eq!(rt; low.len(), 0x800);
    space.give_back(pad.join(low.join(high)));
    assert_eq!(rt; space.next(), 0x4000_1000);
    assert_eq!(rt; space.limit(), 0x4400_0000);
    space.end();
}

/// The word of the whole interval as data, with the cursor there.
fn expect_data_word(rt: &impl Abort, root: &Root, base: u64, len: u64, perms: Perms, word: Word)
    requires within { IsWithin root.now base len }
    requires rights { IsSubset perms.0 0x7D }
    requires from_base { base ≤ word.address }
    requires to_top { word.address ≤ base + len }
{
    let cap = root
        .data(base, len, perms)
        .narrow(base, len, perms)
        .expect(rt, "the bounds are exact");
    assert_eq!(rt; cap.owner(), root.owner());
    assert_eq!(rt; cap.at(word.address).word(), word);
}

/// The word of an entry into the whole interval as code.
fn expect_entry_word(rt: &impl Abort, root: &Root, base: u64, len: u64, word: Word)
    requires within { IsWithin root.now base len }
    requires from_base { base ≤ word.address }
    requires to_top { word.address ≤ base + len }
{
    let cap = root
        .code(base, len)
        .narrow(base, len, Perms::CODE)
        .expect(rt, "the bounds are exact");
    assert_eq!(rt; cap.at(word.address).seal_entry().word(), word);
}

#[test]
fn derived_words_are_the_known_ones(rt: HostRuntime) {
    let mut space = Space::new(0x4000_0000, 0x4400_0000);
    assert!(rt; 4096u64.is_power_of_two());
    let (pad, body) = space.carve(4096, 0x4000).expect(&rt, "there is room");
    let root = Root::new(body, 7);
    let word = Word {
        address: 0x4000_3020,
        meta: 0x007D_0000_0409_B004,
    };
    expect_data_word(&rt, &root, 0x4000_3000, 32, Perms::DATA, word);
    let word = Word {
        address: 0x4000_0100,
        meta: 0x0015_0000_0445_8104,
    };
    expect_data_word(&rt, &root, 0x4000_0100, 16, Perms::READ, word);
    let word = Word {
        address: 0x4000_1004,
        meta: 0x0017_2000_0801_8005,
    };
    expect_entry_word(&rt, &root, 0x4000_0000, 0x2000, word);
    space.give_back(pad.join(root.into_span()));
    space.end();
}

#[test]
fn permissions_have_their_bits(rt: HostRuntime) {
    let data = Perms::GLOBAL
        | Perms::LOAD
        | Perms::STORE
        | Perms::LOAD_CAP
        | Perms::STORE_CAP
        | Perms::STORE_LOCAL_CAP;
    assert_eq!(rt; data, Perms::DATA);
    let read = Perms::GLOBAL | Perms::LOAD | Perms::LOAD_CAP;
    assert_eq!(rt; read, Perms::READ);
    assert_eq!(rt; read | Perms::EXECUTE, Perms::CODE);
}
