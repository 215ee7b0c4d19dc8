//! A link that succeeds. The definitions are computed on known values in `proofs/`.

use cap_base::Kind;
use cap_link::{Inputs, link};
use std::test::Fail;

// Headers, one symbol, its names, a hash table and a dynamic table of six entries, in four segments.
#[test]
#[tactic(auto, using(crate::proofs::CodeRows::jump, crate::proofs::LayRows::three_are, crate::proofs::PieceRows::worked_rows, crate::proofs::PlanRows::capability_wide))]
fn nothing_is_linked(rt: HostRuntime) -> Result<(), Fail> {
    let alloc = rt.alloc();
    match link(alloc, Inputs::new(alloc), &Kind::Program) {
        Ok(file) => assert_eq!(rt; file.len(), 0x2000),
        Err(_) => panic!(&rt; "it is linked"),
    }
    Ok(())
}
