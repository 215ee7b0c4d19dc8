//! Programs and libraries that are made of bytes here: in which order they are loaded, and what an open leaves.

use cap_base::MemFiles;
use cap_scope::Rule;
use cap_session::{Mode, OpenCause, OpenRefusal, Session};
use std::alloc::{AllocError, Global};
use std::process::Abort;
use std::test::Fail;

/// The bytes of an object by their places; all others are zeros. It defines `a` and `b`, both GLOBAL, and needs nothing.
const OBJECT: [(usize, &[u8]); 9] = [
    // the header
    (
        0x0,
        b"\x7fELF\x02\x01\x01\0\0\0\0\0\0\0\0\0\x03\0\xf3\0\x01\0\0\0\0\0\0\0\0\0\0\0@\0\0\0\0\0\0\0\0\0\0\0\0\0\0\0\0\0\x03\0@\08\0\x02\0@",
    ),
    // a segment that is written, of 0x260 bytes
    (0x40, b"\x01\0\0\0\x06"),
    (0x60, b"\x60\x02\0\0\0\0\0\0\x60\x02\0\0\0\0\0\0\0\x10"),
    // where the dynamic table stands
    (
        0x78,
        b"\x02\0\0\0\x04\0\0\0\x80\x01\0\0\0\0\0\0\x80\x01\0\0\0\0\0\0\x80\x01\0\0\0\0\0\0\xb0\0\0\0\0\0\0\0\xb0\0\0\0\0\0\0\0\x08",
    ),
    // the symbols `a` and `b`
    (0xd8, b"\x01\0\0\0\x11\0\x01"),
    (0xf0, b"\x03\0\0\0\x11\0\x01"),
    // the hash table: one bucket, which leads to 2, and three chains, where 2 leads to 1
    (0x110, b"\x01\0\0\0\x03\0\0\0\x02\0\0\0\0\0\0\0\0\0\0\0\x01"),
    // the names
    (0x130, b"\0a\0b\0x.so\0y.so\0z.so"),
    // the dynamic table: the hash table, the names and their size, the symbols and the size of one
    (
        0x180,
        b"\x04\0\0\0\0\0\0\0\x10\x01\0\0\0\0\0\0\x05\0\0\0\0\0\0\0\x30\x01\0\0\0\0\0\0\x0a\0\0\0\0\0\0\0\x14\0\0\0\0\0\0\0\x06\0\0\0\0\0\0\0\xc0\0\0\0\0\0\0\0\x0b\0\0\0\0\0\0\0\x18",
    ),
];

/// Where the names of libraries stand among the names.
const X: u8 = 5;

const Y: u8 = 10;

const Z: u8 = 15;

/// What changes an object.
#[derive(Clone, Copy, PartialEq, Eq)]
enum Change {
    /// Nothing.
    Plain,
    /// `b` is WEAK.
    Weak,
    /// `b` is not defined.
    Without,
    /// `b` is not defined, and the last 8 bytes are relocated to its address.
    Wanting,
}

fn put(bytes: &mut [u8], at: usize, new: &[u8]) {
    for i in 0..new.len() {
        if let Some(slot) = bytes.get_mut(at.saturating_add(i)) {
            *slot = new[i];
        }
    }
}

/// An object that needs the libraries whose names stand at these places.
fn object(alloc: Global, needed: &[u8], change: Change) -> Result<Vec<u8>, AllocError> {
    let mut bytes = vec![in alloc; 0u8; 0x260]?;
    for &(at, part) in &OBJECT {
        put(&mut bytes, at, part);
    }
    let mut end = 0x1d0usize;
    for place in needed {
        put(&mut bytes, end, &[1, 0, 0, 0, 0, 0, 0, 0, *place]);
        end = end.saturating_add(16);
    }
    match change {
        Change::Plain => {}
        Change::Weak => put(&mut bytes, 0xf4, &[0x21]),
        Change::Without => put(&mut bytes, 0xf4, &[0x10, 0, 0]),
        Change::Wanting => {
            put(&mut bytes, 0xf4, &[0x10, 0, 0]);
            put(
                &mut bytes,
                end,
                b"\x07\0\0\0\0\0\0\0\x40\x02\0\0\0\0\0\0\x08\0\0\0\0\0\0\0\x18\0\0\0\0\0\0\0\x09\0\0\0\0\0\0\0\x18",
            );
            put(&mut bytes, 0x240, b"\x58\x02\0\0\0\0\0\0\x02\0\0\0\x02");
        }
    }
    Ok(bytes)
}

fn start(rt: &impl Abort, alloc: Global, files: &mut MemFiles, rule: Rule) -> Session {
    match Session::start(alloc, files, "lib", "p", rule) {
        Ok(session) => session,
        Err(_) => panic!(rt; "the program was refused"),
    }
}

/// The session has these objects, by their names, and these starts.
fn expect(rt: &impl Abort, session: &Session, names: &[&[u8]], starts: &[u32]) {
    assert_eq!(rt; session.objects().len(), names.len());
    assert_eq!(rt; session.memories().len(), names.len());
    assert_eq!(rt; session.symbols().len(), names.len());
    assert_eq!(rt; session.names().len(), names.len());
    for i in 0..names.len() {
        assert!(rt; i < session.names().len());
        assert_eq!(rt; session.names().name(i), names[i]);
    }
    assert_eq!(rt; session.starts(), starts);
}

/// The first 8 bytes at this offset of the memory of the first object.
fn expect_word(rt: &impl Abort, session: &Session, offset: u64, word: u64) {
    match session.memories().first() {
        None => panic!(rt; "there is no object"),
        Some(memory) => {
            let base = memory.base();
            assert!(rt; base <= 1 << 62 && offset <= 1 << 62);
            assert!(rt; offset + 8 <= memory.len());
            let mut found = [0; 8];
            memory.load_bytes(base + offset, &mut found);
            assert_eq!(rt; u64::from_le_bytes(found), word);
        }
    }
}

fn expect_open(
    rt: &impl Abort,
    session: &mut Session,
    files: &mut MemFiles,
    name: &str,
    mode: Mode,
    new: u32,
) {
    let bytes = name.as_bytes();
    assert!(rt; 0 < bytes.len() && bytes.len() <= 255 && cap_base::is_plain(bytes));
    match session.open(files, name, mode) {
        Ok(ready) => assert_eq!(rt; ready.new, new),
        Err(_) => panic!(rt; "the library was refused"),
    }
}

fn expect_unresolved(rt: &impl Abort, refusal: &OpenRefusal, path: &[u8], wanted: &[u8]) {
    assert_eq!(rt; refusal.path.bytes(), path);
    match &refusal.cause {
        OpenCause::Unresolved { name } => assert_eq!(rt; name.bytes(), wanted),
        _ => panic!(rt; "another cause"),
    }
}

fn expect_fault(rt: &impl Abort, refusal: &OpenRefusal, path: &[u8]) {
    assert_eq!(rt; refusal.path.bytes(), path);
    match &refusal.cause {
        OpenCause::ReadFault => {}
        _ => panic!(rt; "another cause"),
    }
}

#[test]
fn objects_are_loaded_breadth_first(rt: HostRuntime) -> Result<(), Fail> {
    let alloc = rt.alloc();
    let mut files = MemFiles::new(alloc);
    files.put("p", &object(alloc, &[X, Y], Change::Plain)?)?;
    files.put("lib/x.so", &object(alloc, &[Z], Change::Plain)?)?;
    files.put("lib/y.so", &object(alloc, &[Z], Change::Plain)?)?;
    files.put("lib/z.so", &object(alloc, &[], Change::Plain)?)?;
    let session = start(&rt, alloc, &mut files, Rule::NonWeak);
    expect(&rt, &session, &[b"p", b"x.so", b"y.so", b"z.so"], &[0]);
    assert_eq!(rt; session.deps().len(), 4);
    assert_eq!(rt; session.deps().of(0), [1, 2].as_slice());
    assert_eq!(rt; session.deps().of(2), [3].as_slice());
    assert_eq!(rt; session.end().len(), 4);

    // a cycle
    files.put("p", &object(alloc, &[X], Change::Plain)?)?;
    files.put("lib/x.so", &object(alloc, &[Y], Change::Plain)?)?;
    files.put("lib/y.so", &object(alloc, &[X], Change::Plain)?)?;
    let session = start(&rt, alloc, &mut files, Rule::NonWeak);
    expect(&rt, &session, &[b"p", b"x.so", b"y.so"], &[0]);
    assert_eq!(rt; session.deps().len(), 3);
    assert_eq!(rt; session.deps().of(2), [1].as_slice());
    assert_eq!(rt; session.end().len(), 3);
    Ok(())
}

#[test]
fn a_refused_open_leaves_all(rt: HostRuntime) -> Result<(), Fail> {
    let alloc = rt.alloc();
    let mut files = MemFiles::new(alloc);
    files.put("p", &object(alloc, &[], Change::Without)?)?;
    files.put("lib/x.so", &object(alloc, &[], Change::Plain)?)?;
    files.put("lib/y.so", &object(alloc, &[], Change::Wanting)?)?;

    // the read that would tell the end of the library fails, and the next time it does not
    files.fail(6)?;
    let mut session = start(&rt, alloc, &mut files, Rule::NonWeak);
    match session.open(&mut files, "x.so", Mode::Local) {
        Ok(_) => panic!(&rt; "the library was read"),
        Err(refusal) => expect_fault(&rt, &refusal, b"lib/x.so"),
    }
    expect(&rt, &session, &[b"p"], &[0]);
    expect_open(&rt, &mut session, &mut files, "x.so", Mode::Local, 1);
    match session.open(&mut files, "y.so", Mode::Local) {
        Ok(_) => panic!(&rt; "there is no definition"),
        Err(refusal) => expect_unresolved(&rt, &refusal, b"lib/y.so", b"b"),
    }
    expect(&rt, &session, &[b"p", b"x.so"], &[0, 1]);

    // the same library once more, for all objects that are loaded from then on
    expect_open(&rt, &mut session, &mut files, "x.so", Mode::Global, 0);
    expect_open(&rt, &mut session, &mut files, "y.so", Mode::Local, 1);
    expect(&rt, &session, &[b"p", b"x.so", b"y.so"], &[0, 1, 2]);
    assert_eq!(rt; session.end().len(), 3);
    Ok(())
}

#[test]
fn a_weak_definition_gives_way_by_one_rule(rt: HostRuntime) -> Result<(), Fail> {
    let alloc = rt.alloc();
    let mut files = MemFiles::new(alloc);
    files.put("p", &object(alloc, &[X, Z], Change::Wanting)?)?;
    files.put("lib/x.so", &object(alloc, &[], Change::Weak)?)?;
    files.put("lib/z.so", &object(alloc, &[], Change::Plain)?)?;
    let session = start(&rt, alloc, &mut files, Rule::NonWeak);
    expect_word(&rt, &session, 0x258, 0x4000_2000);
    assert_eq!(rt; session.end().len(), 3);
    let session = start(&rt, alloc, &mut files, Rule::First);
    expect_word(&rt, &session, 0x258, 0x4000_1000);
    assert_eq!(rt; session.end().len(), 3);
    Ok(())
}
