//! The queue of reached objects.

ghost use Rattle.std.specs.Prelude.{◌≡◌, ◌<◌, ◌∷◌, [], length, true, nat_lt, OnOk, All};
ghost use Rattle.std.specs.List.{list_all};
ghost use Rattle.cap_scope.specs.Queue.{IsSeen, grown, queue};

use crate::deps::Deps;
use cap_base::NoMemory;

/// Adds a number, unless it is there.
pub(crate) fn add(d: u32, seen: &mut [bool], order: &mut Vec<u32>) -> Result<(), NoMemory>
    requires inside { d < length seen.old }
    requires seen { IsSeen seen.old order.old.items }
    ensures order { OnOk result (order.new.items ≡ grown order.old.items (d ∷ [])) }
    ensures seen { OnOk result (IsSeen seen.new order.new.items) }
{
    if seen[d as usize] {
        return Ok(());
    }
    order.push(d)?;
    seen[d as usize] = true;
    Ok(())
}

/// Adds those of the numbers that aren't there.
fn add_all(numbers: &[u32], seen: &mut [bool], order: &mut Vec<u32>) -> Result<(), NoMemory>
    requires inside { list_all (λ i. nat_lt i (length seen.old)) numbers.now ≡ true }
    requires seen { IsSeen seen.old order.old.items }
    ensures order { OnOk result (order.new.items ≡ grown order.old.items numbers.now) }
    ensures seen { OnOk result (IsSeen seen.new order.new.items) }
{
    for d in numbers {
        add(*d, seen, order)?;
    }
    Ok(())
}

/// Each object in turn adds what it depends on.
pub(crate) fn reach(deps: &Deps, seen: &mut [bool], order: &mut Vec<u32>) -> Result<(), NoMemory>
    requires numbers { All (λ of. All (λ i. i < length deps.now) of) deps.now }
    requires long { length seen.old ≡ length deps.now }
    requires seen { IsSeen seen.old order.old.items }
    requires inside { list_all (λ i. nat_lt i (length deps.now)) order.old.items ≡ true }
    ensures order { OnOk result (order.new.items ≡ queue deps.now (length deps.now) order.old.items 0) }
{
    for k in 0..deps.len() as usize {
        if k >= order.len() {
            return Ok(());
        }
        let i = order[k];
        add_all(deps.of(i), seen, order)?;
    }
    Ok(())
}
