//! How a name is bound by the decision on it.

ghost use Rattle.std.specs.Prelude.{◌≡◌};
ghost use Rattle.cap_syms.specs.Decisions.{is_present as is_present_of, is_weakly_absent as is_weakly_absent_of, bound_of};

use crate::entries::{Bound, Entry, Shape};

fn is_present(shape: Shape) -> bool
    ensures { result ≡ is_present_of shape }
{
    match shape {
        Shape::Defined | Shape::Common { .. } => true,
        Shape::Absent { .. } => false,
    }
}

fn is_weakly_absent(shape: Shape) -> bool
    ensures { result ≡ is_weakly_absent_of shape }
{
    match shape {
        Shape::Defined | Shape::Common { .. } => false,
        Shape::Absent { weak } => weak,
    }
}

/// How a name is bound in a program, or in a shared object.
pub(crate) fn bound(program: bool, entry: Entry) -> Bound
    ensures { result ≡ bound_of program entry }
{
    let is_default = entry.visibility == 0;
    if is_present(entry.shape) && (program || !is_default) {
        Bound::Local
    } else if is_weakly_absent(entry.shape) && !is_default {
        Bound::Zero
    } else {
        Bound::Dynamic
    }
}
