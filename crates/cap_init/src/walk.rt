//! The depth-first walk of a group.

ghost use Rattle.std.specs.Prelude.{◌≡◌, ◌+◌, ◌-◌, ◌<◌, ◌≤◌, ◌++◌, ◌∷◌, [], length, slice_set, true, All, IfOk, OnOk, if◌then◌else◌};
ghost use Rattle.cap_init.specs.Post.{is_member, post_of};
ghost use Rattle.cap_init.specs.Walking.{IsWalk, is_begun, steps_left};

use cap_base::NoMemory;
use cap_scope::Deps;
use std::alloc::Global;

/// The objects from one number up to another.
#[derive(Clone, Copy, Debug)]
struct Group {
    from: u32,
    to: u32,
}

impl Group {
    fn has(self, i: u32) -> bool
        ensures { result ≡ is_member self.from self.to i }
    {
        self.from <= i && i < self.to
    }
}

/// An object that was begun and not ended, and the place, in what it needs, of the next one that is to be visited.
#[derive(Clone, Copy, Debug)]
struct Frame {
    object: u32,
    next: usize,
}

/// Begins an object, at the end of the path, unless the walk passes over it.
fn begin(i: u32, group: Group, begun: &mut Vec<bool>, path: &mut Vec<Frame>) -> Result<(), NoMemory>
    requires { group.from + length begun.old.items ≡ group.to }
    ensures begun { OnOk result (begun.new.items ≡ (if is_begun group.from group.to begun.old.items i then begun.old.items else slice_set begun.old.items (i - group.from) true)) }
    ensures path { OnOk result (path.new.items ≡ (if is_begun group.from group.to begun.old.items i then path.old.items else path.old.items ++ record { object = i; next = 0 } ∷ [])) }
{
    if !group.has(i) || begun[(i - group.from) as usize] {
        return Ok(());
    }
    path.push(Frame { object: i, next: 0 })?;
    begun[(i - group.from) as usize] = true;
    Ok(())
}

/// One step behind the path, at the object that stood at its end: the next one that it needs is visited, or it is ended.
fn step(
    deps: &Deps,
    group: Group,
    frame: Frame,
    begun: &mut Vec<bool>,
    path: &mut Vec<Frame>,
    ended: &mut Vec<u32>,
) -> Result<(), NoMemory>
    requires walk { IsWalk deps.now group.from group.to begun.old.items (path.old.items ++ frame ∷ []) ended.old.items }
    requires inside { group.to ≤ length deps.now }
    ensures walk { OnOk result (IsWalk deps.now group.from group.to begun.new.items path.new.items ended.new.items) }
    ensures steps { OnOk result (steps_left deps.now group.from begun.new.items path.new.items < steps_left deps.now group.from begun.old.items (path.old.items ++ frame ∷ [])) }
{
    match deps.of(frame.object).get(frame.next) {
        None => ended.push(frame.object)?,
        Some(i) => {
            path.push(Frame {
                object: frame.object,
                next: frame.next + 1,
            })?;
            begin(*i, group, begun, path)?;
        }
    }
    Ok(())
}

/// The objects of a group, those from one number up to another, in the order in which a depth-first walk from its first
/// one ends them. The walk goes to what an object needs in its order, and passes over objects outside the group and
/// over those that it began.
pub fn order(alloc: Global, deps: &Deps, from: u32, to: u32) -> Result<Vec<u32>, NoMemory>
    requires some { from < to }
    requires inside { to ≤ length deps.now }
    ensures order { IfOk result (λ order. order.items ≡ post_of deps.now from to) }
    ensures inside { IfOk result (λ order. All (λ i. i < length deps.now) order.items) }
{
    let mut begun = vec![in alloc; false; (to - from) as usize]?;
    let mut path = Vec::new(alloc);
    let mut ended = Vec::new(alloc);
    let group = Group { from, to };
    begin(from, group, &mut begun, &mut path)?;
    while let Some(frame) = path.pop() {
        step(deps, group, frame, &mut begun, &mut path, &mut ended)?;
    }
    Ok(ended)
}
