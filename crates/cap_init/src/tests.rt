//! Orders of small groups, and a list of no calls.

use crate::{Call, calls, initial_order, order};
use cap_scope::Deps;
use std::alloc::Global;
use std::process::Abort;
use std::test::Fail;

/// The lists of what objects need.
fn deps_of(rt: &impl Abort, alloc: Global, lists: &[&[u32]]) -> Deps {
    let mut deps = Deps::new(alloc);
    for list in lists {
        assert!(rt; deps.len() < 1000);
        deps.push(list).expect(rt, "there is memory");
    }
    deps
}

/// The group from one number up to another has this order.
fn expect_order(
    rt: &impl Abort,
    alloc: Global,
    lists: &[&[u32]],
    group: (u32, u32),
    wanted: &[u32],
) {
    let deps = deps_of(rt, alloc, lists);
    assert!(rt; group.0 < group.1 && group.1 <= deps.len());
    let found = order(alloc, &deps, group.0, group.1).expect(rt, "there is memory");
    assert_eq!(rt; found.as_slice(), wanted);
}

#[test]
fn objects_come_behind_those_that_they_need(rt: HostRuntime) {
    let alloc = rt.alloc();
    expect_order(
        &rt,
        alloc,
        &[&[1, 2], &[3], &[3], &[]],
        (0, 4),
        &[3, 1, 2, 0],
    );
    expect_order(&rt, alloc, &[&[1], &[2], &[1]], (0, 3), &[2, 1, 0]);
    expect_order(&rt, alloc, &[&[1], &[], &[1, 3], &[]], (2, 4), &[3, 2]);
}

#[test]
fn groups_come_one_after_the_other(rt: HostRuntime) -> Result<(), Fail> {
    let alloc = rt.alloc();
    let deps = deps_of(&rt, alloc, &[&[1], &[]]);
    assert!(rt; deps.len() >= 1);
    let found = initial_order(alloc, &deps, &[0])?;
    assert_eq!(rt; found.as_slice(), [1, 0].as_slice());
    Ok(())
}

#[test]
fn no_objects_have_no_calls(rt: HostRuntime) -> Result<(), Fail> {
    let found = calls(rt.alloc(), &[], &[], &[])?;
    assert!(rt; found.is_empty());
    assert_eq!(rt; found.len(), 0);
    let none: [Call; 0] = [];
    assert_eq!(rt; found.as_slice(), none.as_slice());
    Ok(())
}
