//! Worked tables: what is adopted and found, and what is refused.

ghost use Rattle.std.specs.Prelude.{◌≡◌, [], ◌∷◌, true, false, IfOk, codes};
ghost use Rattle.cap_names.specs.Named.{AreDistinct};

use crate::*;
use cap_base::{NameList, NoMemory};
use std::alloc::Global;
use std::test::Fail;

// The names of a file that defines `f` alone.
#[tactic(auto, using(crate::proofs::Rows::one_is_distinct))]
fn one(alloc: Global) -> Result<NameList, NoMemory>
    ensures names { IfOk result (λ l. l ≡ ([], false) ∷ (codes "f", true) ∷ []) }
    ensures distinct { IfOk result (λ l. AreDistinct l) }
{
    let mut names = NameList::new(alloc);
    names.push(b"", false)?;
    names.push(b"f", true)?;
    Ok(names)
}

// The names of a file that defines `f` and `g`.
#[tactic(auto, using(crate::proofs::Rows::two_are_distinct))]
fn two(alloc: Global) -> Result<NameList, NoMemory>
    ensures names { IfOk result (λ l. l ≡ ([], false) ∷ (codes "f", true) ∷ (codes "g", true) ∷ []) }
    ensures distinct { IfOk result (λ l. AreDistinct l) }
{
    let mut names = NameList::new(alloc);
    names.push(b"", false)?;
    names.push(b"f", true)?;
    names.push(b"g", true)?;
    Ok(names)
}

fn is_fault(answer: Result<GnuChains, GnuRefusal>) -> bool {
    matches!(&answer, Err(GnuRefusal::Fault))
}

#[test]
fn one_name_is_found(rt: HostRuntime) -> Result<(), Fail> {
    let alloc = rt.alloc();
    assert_eq!(rt; gnu_hash(b"f"), 0x2B60B);
    assert_eq!(rt; gnu_hash(b"printf"), 0x156B2BB8);
    let words = [1, 1, 1, 6, 0xFFFFFFFF, 0xFFFFFFFF, 1, 0x2B60B];
    let chains = adopt(alloc, &words, one(alloc)?)?;
    assert_eq!(rt; chains.find(b"f"), Some(1));
    assert_eq!(rt; chains.walk(b"f"), 1);
    assert_eq!(rt; chains.words(), words.as_slice());
    let words = [1, 1, 1, 6, 0xFFFFFFFF, 0xFFFFFFFF, 1, 0x2B60D];
    assert!(rt; is_fault(adopt(alloc, &words, one(alloc)?)));
    Ok(())
}

#[test]
fn two_names_are_found(rt: HostRuntime) -> Result<(), Fail> {
    let alloc = rt.alloc();
    // the filter knows neither
    let words = [1, 1, 1, 6, 0, 0, 1, 0x2B60A, 0x2B60D];
    let chains = adopt(alloc, &words, two(alloc)?)?;
    assert_eq!(rt; chains.find(b"f"), Some(1));
    assert_eq!(rt; chains.find(b"g"), Some(2));
    assert_eq!(rt; chains.find(b"h"), None);
    assert_eq!(rt; chains.walk(b"g"), 2);
    assert_eq!(rt; chains.walk(b"h"), 2);
    assert_eq!(rt; chains.find_hashed(gnu_hash(b"g"), b"g"), Some(2));
    assert_eq!(rt; chains.walk_found(gnu_hash(b"f"), Some(1)), 1);
    Ok(())
}
