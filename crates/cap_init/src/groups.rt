//! The groups of a session.

ghost use Rattle.std.specs.Prelude.{◌≡◌, ◌+◌, ◌<◌, length, slice_index_or, All, IfOk};
ghost use Rattle.cap_init.specs.Post.{AreStarts, init_order};

use crate::walk::order;
use cap_base::NoMemory;
use cap_scope::Deps;
use std::alloc::Global;

/// The number of the first object behind a group: the next start, or how many objects there are.
fn end_of_group(starts: &[u32], k: usize, count: u32) -> u32
    requires { k < length starts.now }
    ensures { result ≡ slice_index_or starts.now (k + 1) count }
{
    match starts.get(k + 1) {
        Some(start) => *start,
        None => count,
    }
}

/// All objects, group by group, each group in its order. A group begins at each start, and goes up to the next one or to
/// the end.
pub fn initial_order(alloc: Global, deps: &Deps, starts: &[u32]) -> Result<Vec<u32>, NoMemory>
    requires { AreStarts starts.now (length deps.now) }
    ensures order { IfOk result (λ order. order.items ≡ init_order deps.now starts.now (length deps.now)) }
    ensures inside { IfOk result (λ order. All (λ i. i < length deps.now) order.items) }
{
    let mut all = Vec::new(alloc);
    for k in 0..starts.len() {
        let group = order(alloc, deps, starts[k], end_of_group(starts, k, deps.len()))?;
        all.extend_from_slice(&group)?;
    }
    Ok(all)
}
