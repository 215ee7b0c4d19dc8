//! Worked tables: what is built, what is adopted and found, and what is refused.

ghost use Rattle.std.specs.Prelude.{◌≡◌, [], ◌∷◌, true, false, IfOk, codes};
ghost use Rattle.cap_names.specs.Named.{AreDistinct};

use crate::*;
use cap_base::{NameList, NoMemory};
use std::alloc::Global;
use std::test::Fail;

// The names of a file that defines `helper` alone.
#[tactic(auto, using(crate::proofs::WorkedTables::one_is_distinct))]
fn helper(alloc: Global) -> Result<NameList, NoMemory>
    ensures names { IfOk result (λ l. l ≡ ([], false) ∷ (codes "helper", true) ∷ []) }
    ensures distinct { IfOk result (λ l. AreDistinct l) }
{
    let mut names = NameList::new(alloc);
    names.push(b"", false)?;
    names.push(b"helper", true)?;
    Ok(names)
}

// The names of a file that defines `a` and `b`.
#[tactic(auto, using(crate::proofs::WorkedTables::two_are_distinct))]
fn two(alloc: Global) -> Result<NameList, NoMemory>
    ensures names { IfOk result (λ l. l ≡ ([], false) ∷ (codes "a", true) ∷ (codes "b", true) ∷ []) }
    ensures distinct { IfOk result (λ l. AreDistinct l) }
{
    let mut names = NameList::new(alloc);
    names.push(b"", false)?;
    names.push(b"a", true)?;
    names.push(b"b", true)?;
    Ok(names)
}

fn is_fault(answer: Result<Chains, AdoptRefusal>) -> bool {
    matches!(&answer, Err(AdoptRefusal::Fault))
}

#[test]
fn tables_are_built(rt: HostRuntime) -> Result<(), Fail> {
    let alloc = rt.alloc();
    let built = build(alloc, helper(alloc)?)?;
    assert_eq!(rt; built.words(), [1, 2, 1, 0, 0].as_slice());
    let built = build(alloc, two(alloc)?)?;
    assert_eq!(rt; built.words(), [1, 3, 2, 0, 0, 1].as_slice());
    Ok(())
}

#[test]
fn names_are_found(rt: HostRuntime) -> Result<(), Fail> {
    let alloc = rt.alloc();
    let chains = adopt(alloc, &[1, 2, 1, 0, 0], helper(alloc)?)?;
    assert_eq!(rt; chains.find(b"helper"), Some(1));
    let chains = adopt(alloc, &[1, 3, 2, 0, 0, 1], two(alloc)?)?;
    assert_eq!(rt; chains.find(b"b"), Some(2));
    assert_eq!(rt; chains.walk(b"b"), 1);
    assert_eq!(rt; chains.find(b"a"), Some(1));
    assert_eq!(rt; chains.walk(b"a"), 2);
    assert_eq!(rt; chains.find(b"c"), None);
    assert_eq!(rt; chains.walk(b"c"), 2);
    Ok(())
}

#[test]
fn false_tables_are_refused(rt: HostRuntime) -> Result<(), Fail> {
    let alloc = rt.alloc();
    // helper is on no chain
    assert!(rt; is_fault(adopt(alloc, &[1, 2, 0, 0, 0], helper(alloc)?)));
    // index 2 leads to itself
    assert!(rt; is_fault(adopt(alloc, &[1, 3, 2, 0, 0, 2], two(alloc)?)));
    // there is no index 3
    assert!(rt; is_fault(adopt(alloc, &[1, 3, 3, 0, 0, 1], two(alloc)?)));
    // b is on no chain
    assert!(rt; is_fault(adopt(alloc, &[1, 3, 1, 0, 0, 0], two(alloc)?)));
    Ok(())
}
