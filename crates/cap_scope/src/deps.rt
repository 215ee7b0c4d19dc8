//! What objects depend on, and what is reached from one.

ghost use Rattle.std.specs.Prelude.{◌≡◌, ◌+◌, ◌^◌, ◌<◌, ◌≤◌, ◌++◌, ◌∷◌, [], length, take, ◌==◌, slice_index_or, OnOk, OnErr, All, IfOk};
ghost use Rattle.cap_scope.specs.Tree.{tree_of};

use crate::queue::{add, reach};
use cap_base::NoMemory;
use std::alloc::Global;
use std::marker::Model;

/// The objects on which one depends.
#[derive(Debug, Drop)]
struct Numbers {
    numbers: Vec<u32>,
}

impl Model for Numbers {
    ghost use Rattle.std.specs.Prelude.{List, ℕ};

    ghost Value = { List ℕ };

    ghost view = { λ n. n.numbers.items };
}

impl Numbers {
    fn as_slice(&self) -> &[u32]
        ensures { result.now ≡ self.now }
    {
        self.numbers.as_slice()
    }
}

/// For each object the numbers of those on which it depends, in their order.
#[derive(Debug, Drop)]
pub struct Deps {
    alloc: Global,
    lists: Vec<Numbers>,
}

impl Model for Deps {
    ghost use Rattle.std.specs.Prelude.{List, ℕ, length, ◌<◌, ◌^◌};

    ghost Value = { List (List ℕ) };

    ghost view = { λ d. d.lists.items };

    ghost invariant = { λ d. length d.lists.items < 2 ^ 32 };
}

impl Deps {
    /// No lists. It takes no memory.
    pub fn new(alloc: Global) -> Deps
        ensures { result ≡ [] }
    {
        Deps {
            alloc,
            lists: Vec::new(alloc),
        }
    }

    /// Appends the list of one more object. A refusal changes nothing.
    pub fn push(&mut self, of: &[u32]) -> Result<(), NoMemory>
        requires { length self.old + 1 < 2 ^ 32 }
        ensures ok { OnOk result (self.new ≡ self.old ++ of.now ∷ []) }
        ensures err { OnErr result (self.new ≡ self.old) }
    {
        let numbers = of.to_vec(self.alloc)?;
        self.lists.push(Numbers { numbers })?;
        Ok(())
    }

    /// How many lists there are.
    pub fn len(&self) -> u32
        ensures { result ≡ length self.now }
    {
        self.lists.len() as u32
    }

    /// Whether there are none.
    pub fn is_empty(&self) -> bool
        ensures { result ≡ (length self.now == 0) }
    {
        self.lists.is_empty()
    }

    /// The numbers of the objects on which the object of this number depends.
    pub fn of(&self, i: u32) -> &[u32]
        requires { i < length self.now }
        ensures { result.now ≡ slice_index_or self.now i [] }
    {
        self.lists[i as usize].as_slice()
    }

    /// Keeps the first `len` lists. It takes no memory.
    pub fn cut(&mut self, len: u32)
        requires { len ≤ length self.old }
        ensures { self.new ≡ take len self.old }
    {
        self.lists.truncate(len as usize);
    }
}

/// The objects that are reached from one, itself first, each once: in order of distance, and at equal distance in the
/// order of those that they are reached from, and then of what these depend on.
pub fn breadth(alloc: Global, deps: &Deps, root: u32) -> Result<Vec<u32>, NoMemory>
    requires root { root < length deps.now }
    requires numbers { All (λ of. All (λ i. i < length deps.now) of) deps.now }
    ensures { IfOk result (λ order. order.items ≡ tree_of deps.now root) }
{
    let mut seen = vec![in alloc; false; deps.len() as usize]?;
    let mut order = Vec::new(alloc);
    add(root, &mut seen, &mut order)?;
    reach(deps, &mut seen, &mut order)?;
    Ok(order)
}
