//! The plan of the linked file.

ghost use Rattle.std.specs.Prelude.{◌≡◌};

use crate::target::{Step, Target};
use crate::target_set::TargetSet;
use cap_base::Name;
use cap_layout::Sizes;
use std::marker::Model;

/// What the linked file has: its slots, stubs, symbols and names, and the relocations that change it.
#[derive(Drop)]
pub struct Plan {
    pub(crate) steps: Vec<Step>,
    pub(crate) slots: TargetSet,
    pub(crate) stubs: TargetSet,
    pub(crate) symbols: Vec<u32>,
    pub(crate) needed: Vec<Name>,
    pub(crate) soname: Option<Name>,
    pub(crate) has_init: bool,
    pub(crate) has_fini: bool,
    pub(crate) sizes: Sizes,
}

impl Model for Plan {
    ghost use Rattle.cap_table.specs.Planned.{Planned};

    ghost Value = { Planned };

    ghost view = { λ p. record {
      steps = p.steps.items;
      slots = p.slots;
      stubs = p.stubs;
      symbols = p.symbols.items;
      needed = p.needed.items;
      soname = p.soname;
      has_init = p.has_init;
      has_fini = p.has_fini;
      sizes = p.sizes;
    } };
}

impl Plan {
    ghost use Rattle.std.specs.Prelude.{◌<◌, [], length, slice_index_or, option_copied};
    ghost use Rattle.cap_table.specs.Lists.{index_in};

    /// How many records each table has, and how many bytes the names.
    pub fn sizes(&self) -> Sizes
        ensures { result ≡ self.now.sizes }
    {
        self.sizes
    }

    /// The relocations that change the file, in order.
    pub fn steps(&self) -> &[Step]
        ensures { result.now ≡ self.now.steps }
    {
        self.steps.as_slice()
    }

    /// The symbols that have a slot in the capability table, in order of their slots.
    pub fn slots(&self) -> &[Target]
        ensures { result.now ≡ self.now.slots }
    {
        self.slots.as_slice()
    }

    /// The number of a symbol's slot.
    pub fn slot_index(&self, file: u32, symbol: u32) -> Option<u32>
        ensures { result ≡ index_in self.now.slots file symbol }
    {
        self.slots.index_of(file, symbol)
    }

    /// The symbols that have a stub, in order of their stubs.
    pub fn stubs(&self) -> &[Target]
        ensures { result.now ≡ self.now.stubs }
    {
        self.stubs.as_slice()
    }

    /// The number of a symbol's stub.
    pub fn stub_index(&self, file: u32, symbol: u32) -> Option<u32>
        ensures { result ≡ index_in self.now.stubs file symbol }
    {
        self.stubs.index_of(file, symbol)
    }

    /// The rows of the names that are symbols of the file, in order.
    pub fn symbols(&self) -> &[u32]
        ensures { result.now ≡ self.now.symbols }
    {
        self.symbols.as_slice()
    }

    /// How many shared objects the file needs.
    pub fn needed_len(&self) -> usize
        ensures { result ≡ length self.now.needed }
    {
        self.needed.len()
    }

    /// The name of a needed shared object.
    pub fn needed(&self, i: usize) -> &[u8]
        requires { i < length self.now.needed }
        ensures { result.now ≡ slice_index_or self.now.needed i [] }
    {
        self.needed[i].bytes()
    }

    /// The file's own name.
    pub fn soname(&self) -> Option<&[u8]>
        ensures { option_copied result ≡ self.now.soname }
    {
        match &self.soname {
            Some(name) => Some(name.bytes()),
            None => None,
        }
    }

    /// Whether there are initial calls.
    pub fn has_init(&self) -> bool
        ensures { result ≡ self.now.has_init }
    {
        self.has_init
    }

    /// Whether there are final calls.
    pub fn has_fini(&self) -> bool
        ensures { result ≡ self.now.has_fini }
    {
        self.has_fini
    }
}
