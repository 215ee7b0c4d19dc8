//! Names, each once, in the order in which they came.

ghost use Rattle.std.specs.Prelude.{◌≡◌, ◌<◌, [], true, Some, length, IfOk, OnOk, OnErr, IfSome, position, slice_index_or};
ghost use Rattle.std.specs.Str.{bytes_eq};
ghost use Rattle.std.specs.List.{list_any, position_or_len};
ghost use Rattle.cap_syms.specs.Distinct.{with_new};

use cap_base::NoMemory;
use indexmap::IndexSet;
use std::alloc::Global;
use std::marker::Model;

/// Names in the order in which they came, each once. A look-up is by hash.
#[derive(Drop)]
pub(crate) struct Names<'a> {
    set: IndexSet<&'a [u8]>,
}

impl<'a> Model for Names<'a> {
    ghost use Rattle.std.specs.Prelude.{List, ℕ, map, length, ◌<◌, ◌^◌};

    ghost Value = { List (List ℕ) };

    ghost view = { λ n. map (λ k. k.now) n.set.keys };
}

impl<'a> Names<'a> {
    /// No names. It takes no memory.
    pub(crate) fn new(alloc: Global) -> Names<'a>
        ensures { result ≡ [] }
    {
        Names {
            set: IndexSet::new(alloc),
        }
    }

    /// No names, with room for so many.
    pub(crate) fn with_capacity(alloc: Global, names: usize) -> Result<Names<'a>, NoMemory>
        ensures { IfOk result (λ n. n ≡ []) }
    {
        let set = IndexSet::with_capacity(alloc, names)?;
        Ok(Names { set })
    }

    /// Takes in a name, and gives its place. A refusal changes nothing.
    pub(crate) fn add(&mut self, name: &'a [u8]) -> Result<usize, NoMemory>
        ensures names { OnOk result (self.new ≡ with_new bytes_eq self.old name.now) }
        ensures err { OnErr result (self.new ≡ self.old) }
        ensures place { IfOk result (λ i. i ≡ position_or_len (bytes_eq name.now) self.old) }
    {
        let (place, _) = self.set.insert_full(name)?;
        Ok(place)
    }

    /// Takes in a name that likely stands at this place, and gives its place. It is hashed only where another name stands
    /// there. A refusal changes nothing.
    pub(crate) fn add_near(&mut self, guess: usize, name: &'a [u8]) -> Result<usize, NoMemory>
        ensures names { OnOk result (self.new ≡ with_new bytes_eq self.old name.now) }
        ensures err { OnErr result (self.new ≡ self.old) }
        ensures place { IfOk result (λ i. i ≡ position_or_len (bytes_eq name.now) self.old) }
    {
        if self.stands_at(guess, name) {
            return Ok(guess);
        }
        self.add(name)
    }

    /// The name at a place.
    pub(crate) fn name(&self, i: usize) -> &'a [u8]
        requires { i < length self.now }
        ensures { result.now ≡ slice_index_or self.now i [] }
    {
        self.set.as_slice()[i]
    }

    /// The place of a name.
    pub(crate) fn find(&self, name: &[u8]) -> Option<usize>
        ensures { result ≡ position (bytes_eq name.now) self.now }
    {
        self.set.get_index_of(name)
    }

    /// Whether this name stands at this place.
    fn stands_at(&self, i: usize, name: &[u8]) -> bool
        ensures { result ≡ true → Some i ≡ position (bytes_eq name.now) self.now }
    {
        let keys = self.set.as_slice();
        if i < keys.len() {
            name == keys[i]
        } else {
            false
        }
    }

    /// The place of a name that likely stands at this one. It is hashed only where another name stands there.
    pub(crate) fn find_at(&self, i: usize, name: &[u8]) -> Option<usize>
        ensures { result ≡ position (bytes_eq name.now) self.now }
    {
        if self.stands_at(i, name) {
            Some(i)
        } else {
            self.find(name)
        }
    }

    /// Whether the name is one of them.
    pub(crate) fn has(&self, name: &[u8]) -> bool
        ensures { result ≡ list_any (bytes_eq name.now) self.now }
    {
        self.set.contains(name)
    }
}
