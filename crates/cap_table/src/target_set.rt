//! Symbols in order, each once.

ghost use Rattle.std.specs.Prelude.{◌≡◌, ◌^◌, ◌<◌, [], length, OnOk};
ghost use Rattle.cap_syms.specs.Distinct.{with_new};
ghost use Rattle.cap_table.specs.Targets.{same_target};
ghost use Rattle.cap_table.specs.Lists.{index_in};

use crate::target::Target;
use cap_base::NoMemory;
use indexmap::IndexSet;
use std::alloc::Global;
use std::marker::Model;

/// Targets in the order of their first appearances, each once.
#[derive(Drop)]
pub(crate) struct TargetSet {
    order: Vec<Target>,
    keys: IndexSet<(u32, u32)>,
}

impl Model for TargetSet {
    ghost use Rattle.std.specs.Prelude.{◌≡◌, ◌^◌, ◌<◌, List, map, length};
    ghost use Rattle.cap_table.specs.declared.target.Target.{Target as TargetValue};
    ghost use Rattle.cap_table.specs.Targets.{key_of};

    ghost Value = { List TargetValue };

    ghost view = { λ s. s.order.items };

    ghost invariant = { λ s. (s.keys.keys ≡ map key_of s.order.items) × (length s.order.items < 2 ^ 32) };
}

impl TargetSet {
    /// No targets.
    pub(crate) fn new(alloc: Global) -> TargetSet
        ensures { result ≡ [] }
    {
        TargetSet {
            order: Vec::new(alloc),
            keys: IndexSet::new(alloc),
        }
    }

    /// The targets in order.
    pub(crate) fn as_slice(&self) -> &[Target]
        ensures value { result.now ≡ self.now }
        ensures few { length result.now < 2 ^ 32 }
    {
        self.order.as_slice()
    }

    /// Takes one more target, unless the same symbol is among them. There is no memory for 2^32 of them.
    pub(crate) fn add(&mut self, target: &Target) -> Result<(), NoMemory>
        ensures { OnOk result (self.new ≡ with_new same_target self.old target.now) }
    {
        let key = (target.file, target.symbol);
        if self.keys.contains(&key) {
            return Ok(());
        }
        if self.order.len() >= u32::MAX as usize {
            return Err(NoMemory);
        }
        self.order.reserve(1)?;
        self.keys.insert(key)?;
        self.order.push_reserved(*target);
        Ok(())
    }

    /// The place of a symbol among them.
    pub(crate) fn index_of(&self, file: u32, symbol: u32) -> Option<u32>
        ensures { result ≡ index_in self.now file symbol }
    {
        match self.keys.get_index_of(&(file, symbol)) {
            Some(index) => Some(index as u32),
            None => None,
        }
    }
}
