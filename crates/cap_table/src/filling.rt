//! The lists of the linked file.

ghost use Rattle.std.specs.Prelude.{◌≡◌, IfOk};
ghost use Rattle.cap_layout.specs.Laid.{IsLayoutOf};
ghost use Rattle.cap_table.specs.Planned.{IsPlanOf};
ghost use Rattle.cap_table.specs.Lists.{filled, AreListsOf};
ghost use Rattle.cap_table.specs.Facts.{ArePlanned};

use crate::dynamics::dynamics;
use crate::entering::{Entered, all_entered};
use crate::names::all_names;
use crate::numbers::SymbolNumbers;
use crate::planned::Plan;
use crate::records::{DynEntry, DynSymbol};
use crate::sources::Sources;
use crate::symbols::symbols;
use crate::wants::SLOT_SIZE;
use cap_base::NoMemory;
use cap_elf::{CapReloc, DynReloc};
use cap_layout::Layout;
use std::alloc::Global;
use std::marker::Model;

/// The lists of the linked file: `__cap_relocs`, the relocations, the symbols, the dynamic table and the names.
#[derive(Drop)]
pub struct CapTable<'a> {
    plan: &'a Plan,
    cap_relocs: Vec<CapReloc>,
    relas: Vec<DynReloc>,
    symbols: Vec<DynSymbol<'a>>,
    offsets: Vec<u32>,
    dynamics: Vec<DynEntry>,
    names: Vec<u8>,
    slots_at: u64,
    stubs_at: u64,
}

impl<'a> Model for CapTable<'a> {
    ghost use Rattle.cap_table.specs.Lists.{CapTableValue};

    ghost Value = { CapTableValue };

    ghost use Rattle.std.specs.Prelude.{◌+◌, ◌*◌, ◌^◌, ◌≤◌, length};

    ghost view = { λ t. record {
      plan = t.plan.now;
      cap_relocs = t.cap_relocs.items;
      relas = t.relas.items;
      symbols = t.symbols.items;
      offsets = t.offsets.items;
      dynamics = t.dynamics.items;
      names = t.names.items;
      slots_at = t.slots_at;
      stubs_at = t.stubs_at;
    } };

    ghost invariant = { λ t. (t.slots_at + 16 * length t.plan.now.slots ≤ 2 ^ 26) × (t.stubs_at + 16 * length t.plan.now.stubs ≤ 2 ^ 26) };
}

/// Fills the lists of a plan by the layout that was made of its sizes. Each slot in order, and then each relocated field in
/// order of the walk, gives a description in `__cap_relocs` where it is a capability to an address, a relocation
/// (Elf64_Rela) where it is an address as a number (R_RISCV_RELATIVE) or is left to load, and nothing where it is a fixed
/// value. The symbols, names and dynamic entries are as the gABI has them ("Symbol Table", "String Table", "Dynamic
/// Section").
///
/// `NoMemory` comes where the machine refuses memory.
pub fn fill<'a>(
    alloc: Global,
    plan: &'a Plan,
    sources: &'a Sources<'_>,
    layout: &Layout<'_>,
) -> Result<CapTable<'a>, NoMemory>
    requires planned { IsPlanOf sources.now layout.now.pieces.all plan.now }
    requires laid { IsLayoutOf sources.now.rels layout.now.pieces plan.now.sizes layout.now }
    ensures value { IfOk result (λ lists. lists ≡ filled sources.now plan.now layout.now) }
    ensures lists { IfOk result (AreListsOf sources.now layout.now) }
{
    fill_planned(alloc, plan, sources, layout)
}

/// Fills the lists of a plan that fits the layout.
#[tactic(auto, unfolding(crate::specs::Lists::filled, crate::specs::Entered::entered))]
fn fill_planned<'a>(
    alloc: Global,
    plan: &'a Plan,
    sources: &'a Sources<'_>,
    layout: &Layout<'_>,
) -> Result<CapTable<'a>, NoMemory>
    requires { ArePlanned sources.now layout.now plan.now }
    ensures { IfOk result (λ lists. lists ≡ filled sources.now plan.now layout.now) }
{
    let parts = layout.parts();
    let numbers = SymbolNumbers::new(alloc, plan.symbols(), sources.table().len())?;
    let Entered {
        cap_relocs,
        relas,
        ..
    } = all_entered(alloc, &numbers, plan, sources, layout)?;
    let (names, offsets, own) = all_names(alloc, plan, sources.table())?;
    Ok(CapTable {
        plan,
        cap_relocs,
        relas,
        symbols: symbols(alloc, sources, layout, plan.symbols())?,
        offsets,
        dynamics: dynamics(alloc, plan, &own, &parts)?,
        names,
        slots_at: parts.slots_at,
        stubs_at: parts.stubs_at,
    })
}

impl<'a> CapTable<'a> {
    ghost use Rattle.cap_table.specs.Lists.{slot_in, stub_in};

    /// The plan that was filled.
    pub fn plan(&self) -> &'a Plan
        ensures { result.now ≡ self.now.plan }
    {
        self.plan
    }

    /// The descriptions of capabilities.
    pub fn cap_relocs(&self) -> &[CapReloc]
        ensures { result.now ≡ self.now.cap_relocs }
    {
        &self.cap_relocs
    }

    /// The relocations (DT_RELA).
    pub fn relas(&self) -> &[DynReloc]
        ensures { result.now ≡ self.now.relas }
    {
        &self.relas
    }

    /// The symbols; the first is the null symbol.
    pub fn symbols(&self) -> &[DynSymbol<'a>]
        ensures { result.now ≡ self.now.symbols }
    {
        &self.symbols
    }

    /// Where the names of the symbols begin among the names (st_name).
    pub fn offsets(&self) -> &[u32]
        ensures { result.now ≡ self.now.offsets }
    {
        &self.offsets
    }

    /// The entries of the dynamic table, DT_NULL too.
    pub fn dynamics(&self) -> &[DynEntry]
        ensures { result.now ≡ self.now.dynamics }
    {
        &self.dynamics
    }

    /// The bytes of the names (DT_STRTAB).
    pub fn names(&self) -> &[u8]
        ensures { result.now ≡ self.now.names }
    {
        &self.names
    }

    /// The address of the slot of a symbol in the capability table; None exactly where it has none.
    pub fn slot(&self, file: u32, symbol: u32) -> Option<u64>
        ensures { result ≡ slot_in self.now file symbol }
    {
        match self.plan.slot_index(file, symbol) {
            Some(k) => Some(self.slots_at + SLOT_SIZE * u64::from(k)),
            None => None,
        }
    }

    /// The address of the stub of a symbol; None exactly where it has none.
    pub fn stub(&self, file: u32, symbol: u32) -> Option<u64>
        ensures { result ≡ stub_in self.now file symbol }
    {
        match self.plan.stub_index(file, symbol) {
            Some(k) => Some(self.stubs_at + SLOT_SIZE * u64::from(k)),
            None => None,
        }
    }
}
