//! One list of names, by either hash.

ghost use Rattle.std.specs.Prelude.{◌≡◌, IfOk, length};

use crate::*;
use cap_base::{NameList, NoMemory};
use std::alloc::Global;
use std::test::Fail;

// `a` is defined twice, and stands undefined before.
fn names(alloc: Global) -> Result<NameList, NoMemory>
    ensures { IfOk result (λ l. length l ≡ 4) }
{
    let mut names = NameList::new(alloc);
    names.push(b"a", false)?;
    names.push(b"a", true)?;
    names.push(b"printf", true)?;
    names.push(b"a", true)?;
    Ok(names)
}

#[test]
fn names_are_found_by_the_hash_of_the_gabi(rt: HostRuntime) -> Result<(), Fail> {
    let alloc = rt.alloc();
    assert_eq!(rt; system_v_hash(b"printf"), 0x077905A6);
    let index = NameIndex::new(alloc, NameHash::SystemV, names(alloc)?)?;
    assert_eq!(rt; index.find(system_v_hash(b"a"), b"a"), Some(1));
    assert_eq!(rt; index.find(system_v_hash(b"printf"), b"printf"), Some(2));
    assert_eq!(rt; index.find(system_v_hash(b"prints"), b"prints"), None);
    assert_eq!(rt; index.first_repeated(), Some(3));
    assert_eq!(rt; index.names().len(), 4);
    Ok(())
}

#[test]
fn names_are_found_by_the_hash_of_gnu(rt: HostRuntime) -> Result<(), Fail> {
    let alloc = rt.alloc();
    assert_eq!(rt; NameHash::Gnu.hash(b"printf"), 0x156B2BB8);
    let index = NameIndex::new(alloc, NameHash::Gnu, names(alloc)?)?;
    assert_eq!(rt; index.find(gnu_hash(b"a"), b"a"), Some(1));
    assert_eq!(rt; index.find(gnu_hash(b"printf"), b"printf"), Some(2));
    assert_eq!(rt; index.find(gnu_hash(b"prints"), b"prints"), None);
    Ok(())
}
