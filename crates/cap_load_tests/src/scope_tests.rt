//! Choices among objects that are made of bytes here, and a tree.

use cap_base::Refusal;
use cap_elf::{DynFile, read_dyn};
use cap_scope::{Choice, Deps, Found, Hit, Object, Rule, breadth, choose};
use std::alloc::Global;
use std::process::Abort;
use std::test::Fail;

/// Bytes that are put at a place.
type Write = (usize, &'static [u8]);

/// A shared object with the GLOBAL symbols `a` and `b` and a sound hash table. All other bytes are zeros.
const A_AND_B: [Write; 8] = [
    // the header
    (
        0x0,
        b"\x7fELF\x02\x01\x01\0\0\0\0\0\0\0\0\0\x03\0\xf3\0\x01\0\0\0\0\0\0\0\0\0\0\0@\0\0\0\0\0\0\0\0\0\0\0\0\0\0\0\0\0\x03\0@\08\0\x02\0@",
    ),
    // a segment that is read
    (
        0x40,
        b"\x01\0\0\0\x04\0\0\0\0\0\0\0\0\0\0\0\0\0\0\0\0\0\0\0\0\0\0\0\0\0\0\0\0\x02\0\0\0\0\0\0\0\x02\0\0\0\0\0\0\0\x10",
    ),
    // where the dynamic table stands
    (
        0x78,
        b"\x02\0\0\0\x04\0\0\0\x80\x01\0\0\0\0\0\0\x80\x01\0\0\0\0\0\0\x80\x01\0\0\0\0\0\0`\0\0\0\0\0\0\0`\0\0\0\0\0\0\0\x08",
    ),
    // the symbols `a` and `b`
    (0xd8, b"\x01\0\0\0\x11\0\x01"),
    (0xf0, b"\x03\0\0\0\x11\0\x01"),
    // the hash table: one bucket, which leads to 2, and three chains, where 2 leads to 1
    (0x110, b"\x01\0\0\0\x03\0\0\0\x02\0\0\0\0\0\0\0\0\0\0\0\x01"),
    // the names
    (0x130, b"\0a\0b\0f"),
    // the dynamic table: the hash table, the names and their size, the symbols and the size of one
    (
        0x180,
        b"\x04\0\0\0\0\0\0\0\x10\x01\0\0\0\0\0\0\x05\0\0\0\0\0\0\00\x01\0\0\0\0\0\0\x0a\0\0\0\0\0\0\0\x07\0\0\0\0\0\0\0\x06\0\0\0\0\0\0\0\xc0\0\0\0\0\0\0\0\x0b\0\0\0\0\0\0\0\x18",
    ),
];

/// In place of these symbols, `f` alone, WEAK or GLOBAL.
const WEAK_F: [Write; 2] = [(0xd8, b"\x05\0\0\0\x21\0\x01"), F_TABLE];

const GLOBAL_F: [Write; 2] = [(0xd8, b"\x05\0\0\0\x11\0\x01"), F_TABLE];

const F_TABLE: Write = (0x110, b"\x01\0\0\0\x02\0\0\0\x01\0\0\0\0\0\0\0\0\0\0\0\0");

/// The bucket leads to 1 and past 2.
const B_HIDDEN: [Write; 1] = [(0x118, b"\x01\0\0\0\0\0\0\0\0\0\0\0\0")];

fn put(bytes: &mut [u8], at: usize, new: &[u8]) {
    for i in 0..new.len() {
        if let Some(slot) = bytes.get_mut(at.saturating_add(i)) {
            *slot = new[i];
        }
    }
}

/// The object with `a` and `b`, with these changes.
fn read(alloc: Global, number: u32, writes: &[Write]) -> Result<DynFile, Fail> {
    let mut bytes = vec![in alloc; 0u8; 0x200]?;
    for &(at, new) in &A_AND_B {
        put(&mut bytes, at, new);
    }
    for &(at, new) in writes {
        put(&mut bytes, at, new);
    }
    Ok(read_dyn(alloc, number, &bytes)?)
}

fn expect(rt: &impl Abort, found: Found, choice: Choice, walked: u128) {
    assert_eq!(rt; found, Found { choice, walked });
}

fn hit(object: u32, symbol: u32) -> Hit {
    Hit { object, symbol }
}

#[test]
fn names_are_chosen_by_chains(rt: HostRuntime) -> Result<(), Fail> {
    let alloc = rt.alloc();
    let objects = [Object::new(alloc, read(alloc, 0, &[])?)?];
    let rule = Rule::NonWeak;
    expect(
        &rt,
        choose(&objects, &[0], b"b", rule),
        Choice::Strong(hit(0, 2)),
        1,
    );
    expect(
        &rt,
        choose(&objects, &[0], b"a", rule),
        Choice::Strong(hit(0, 1)),
        2,
    );
    expect(&rt, choose(&objects, &[0], b"c", rule), Choice::None, 2);
    expect(&rt, choose(&objects, &[0, 0], b"c", rule), Choice::None, 4);
    let names = objects[0].names(alloc)?;
    assert_eq!(rt; names.len(), 3);
    assert_eq!(rt; names.name(2), b"b".as_slice());
    assert!(rt; names.defined(2) && !names.defined(0));
    Ok(())
}

#[test]
fn a_weak_definition_gives_way_by_one_rule(rt: HostRuntime) -> Result<(), Fail> {
    let alloc = rt.alloc();
    let main = Object::new(alloc, read(alloc, 0, &[])?)?;
    let weak = Object::new(alloc, read(alloc, 1, &WEAK_F)?)?;
    let global = Object::new(alloc, read(alloc, 2, &GLOBAL_F)?)?;
    let objects = [main, weak, global];
    let scope = [0, 1, 2];
    expect(
        &rt,
        choose(&objects, &scope, b"f", Rule::NonWeak),
        Choice::Strong(hit(2, 1)),
        4,
    );
    expect(
        &rt,
        choose(&objects, &scope, b"f", Rule::First),
        Choice::Weak(hit(1, 1)),
        3,
    );
    expect(
        &rt,
        choose(&objects, &[1, 0], b"f", Rule::NonWeak),
        Choice::Weak(hit(1, 1)),
        3,
    );
    Ok(())
}

#[test]
fn a_false_table_is_refused(rt: HostRuntime) -> Result<(), Fail> {
    let alloc = rt.alloc();
    let file = read(alloc, 7, &B_HIDDEN)?;
    let refusal = Refusal::Malformed {
        file: 7,
        check: 37,
        at: 0x110,
    };
    match Object::new(alloc, file) {
        Ok(object) => assert_eq!(rt; object.file().number(), 8),
        Err(answer) => assert_eq!(rt; answer, refusal),
    }
    Ok(())
}

#[test]
fn a_tree_is_in_breadth_first_order(rt: HostRuntime) -> Result<(), Fail> {
    let alloc = rt.alloc();
    let mut deps = Deps::new(alloc);
    deps.push(&[2, 1])?;
    deps.push(&[3])?;
    deps.push(&[3, 0])?;
    deps.push(&[])?;
    assert_eq!(rt; deps.len(), 4);
    assert_eq!(rt; deps.of(2), [3, 0].as_slice());
    assert_eq!(rt;
        breadth(alloc, &deps, 0)?.as_slice(),
        [0, 2, 1, 3].as_slice()
    );
    deps.cut(1);
    assert_eq!(rt; deps.len(), 1);
    Ok(())
}
