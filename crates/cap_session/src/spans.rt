//! Giving spans back to their space.

ghost use Rattle.std.specs.Prelude.{◌≡◌, ◌-◌, ◌<◌, ◌≤◌, length, take};
ghost use Rattle.cap_own.specs.Interval.{Cover};
ghost use Rattle.cap_session.specs.Mappings.{spans_of};

use cap_own::{Root, Space, Span};

/// Gives the last pads and mappings back to the space, until so many are left.
pub(crate) fn give_back(pads: &mut Vec<Span>, roots: &mut Vec<Root>, space: &mut Space, len: usize)
    requires count { length pads.old.items ≡ length roots.old.items }
    requires some { len ≤ length pads.old.items }
    requires covered { Cover space.old.start (spans_of pads.old.items roots.old.items) space.old.next }
    ensures pads { pads.new.items ≡ take len pads.old.items }
    ensures roots { roots.new.items ≡ take len roots.old.items }
    ensures covered { Cover space.new.start (spans_of pads.new.items roots.new.items) space.new.next }
    ensures start { space.new.start ≡ space.old.start }
    ensures limit { space.new.limit ≡ space.old.limit }
    ensures lower { space.new.next ≤ space.old.next }
{
    while pads.len() > len {
        give_last_back(pads, roots, space);
    }
}

/// Gives the last pad and mapping back to the space.
fn give_last_back(pads: &mut Vec<Span>, roots: &mut Vec<Root>, space: &mut Space)
    requires count { length pads.old.items ≡ length roots.old.items }
    requires some { 0 < length pads.old.items }
    requires covered { Cover space.old.start (spans_of pads.old.items roots.old.items) space.old.next }
    ensures pads { pads.new.items ≡ take (length pads.old.items - 1) pads.old.items }
    ensures roots { roots.new.items ≡ take (length roots.old.items - 1) roots.old.items }
    ensures covered { Cover space.new.start (spans_of pads.new.items roots.new.items) space.new.next }
    ensures start { space.new.start ≡ space.old.start }
    ensures limit { space.new.limit ≡ space.old.limit }
    ensures lower { space.new.next ≤ space.old.next }
{
    let pad = pads.pop().unwrap();
    let root = roots.pop().unwrap();
    space.give_back(pad.join(root.into_span()));
}
