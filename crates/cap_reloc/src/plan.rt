// The plan: what the slots of an object are to hold, before anything is stored.
ghost use Rattle.std.specs.Prelude.{◌≡◌, ◌<◌, ◌≤◌, length, map, All, Ok, IfOk, IfErr};
ghost use Rattle.cap_reloc.specs.Setting.{setting_of};
ghost use Rattle.cap_reloc.specs.Noted.{NamesSymbols};
ghost use Rattle.cap_reloc.specs.Wanted.{wanted_pairs};
ghost use Rattle.cap_reloc.specs.Binding.{AreMappings, IsUnrelocated, IsRefusedBy, IsUnfitBound};
ghost use Rattle.cap_reloc.specs.Planned.{IsSlotIn, SlotsAreApart, IsNarrowedIn};
ghost use Rattle.cap_mem.specs.Tagged.{TaggedMemory};

use crate::RelocRefusal;
use crate::code::code_ranges;
use crate::loaded::Loaded;
use crate::planned::Planned;
use crate::slot::{entry_pair, record_pair, width_of_kind};
use crate::taken::Taken;
use cap_elf::{CapReloc, DynReloc};
use cap_own::Root;
use cap_scope::{Object, Rule};
use std::alloc::Global;

/// The slots that are taken so far, and what they are to hold.
#[derive(Drop)]
pub(crate) struct Plan<'r> {
    pub(crate) taken: Taken,
    pub(crate) planned: Vec<Planned<'r>>,
}

impl<'r> Plan<'r> {
    ghost use Rattle.std.specs.Prelude.{◌≡◌, ◌<◌, ℕ, false, [], length, OnOk, IfErr};
    ghost use Rattle.cap_reloc.specs.declared.refusal.RelocRefusal.TheVariants.{NoMemory};
    ghost use Rattle.cap_reloc.specs.Taken.{is_touched};
    ghost use Rattle.cap_reloc.specs.Adds.{HasMore, Adds};
    ghost use Rattle.cap_reloc.specs.Wanted.{own, width_of_kind as width_of, wanted_entry, record_pair as record_pair_of};

    /// Nothing is planned.
    fn new(alloc: Global) -> Plan<'r>
        ensures planned { result.planned.items ≡ [] }
        ensures taken { (q : ℕ × ℕ) → is_touched result.taken q ≡ false }
    {
        Plan {
            taken: Taken::new(alloc),
            planned: Vec::new(alloc),
        }
    }

    /// Takes a slot, and plans what it is to hold, if it is to hold something.
    fn add(&mut self, at: u64, len: u64, pair: Option<Planned<'r>>) -> Result<(), RelocRefusal>
        requires { is_touched self.old.taken (at, len) ≡ false }
        ensures more { OnOk result (HasMore self.old self.new (at, len) pair.entry) }
        ensures err { IfErr result (λ e. e ≡ NoMemory) }
    {
        self.taken.add(at, len)?;
        if let Some(planned) = pair {
            self.planned.push(planned)?;
        }
        Ok(())
    }

    /// Plans the slot of an entry.
    fn add_entry(&mut self, loaded: &Loaded<'_, 'r>, entry: &CapReloc) -> Result<(), RelocRefusal>
        ensures { Adds self.old self.new (entry.now.location, 16) (wanted_entry loaded.now (is_touched self.old.taken (entry.now.location, 16)) entry.now) result }
    {
        let pair = entry_pair(loaded, &self.taken, entry)?;
        self.add(entry.location, 16, Some(pair))
    }

    /// Plans the slot of a record.
    fn add_record(&mut self, loaded: &Loaded<'_, 'r>, reloc: &DynReloc) -> Result<(), RelocRefusal>
        requires { reloc.now.symbol < length (own loaded.now).symbols }
        ensures { Adds self.old self.new (reloc.now.slot, width_of reloc.now.kind) (record_pair_of loaded.now (is_touched self.old.taken (reloc.now.slot, width_of reloc.now.kind)) reloc.now) result }
    {
        let pair = record_pair(loaded, &self.taken, reloc)?;
        self.add(reloc.slot, width_of_kind(reloc.kind), pair)
    }
}

/// What the slots of the relocated object are to hold, in the order of its relocations; or the first refusal.
fn plan_all<'r>(alloc: Global, loaded: &Loaded<'_, 'r>) -> Result<Vec<Planned<'r>>, RelocRefusal>
    ensures pairs { IfOk result (λ planned. wanted_pairs loaded.now ≡ Ok planned.items) }
    ensures refusal { IfErr result (IsRefusedBy (wanted_pairs loaded.now)) }
{
    let mut plan = Plan::new(alloc);
    for entry in loaded.own().cap_relocs() {
        plan.add_entry(loaded, entry)?;
    }
    for reloc in loaded.own().relocs() {
        plan.add_record(loaded, reloc)?;
    }
    let Plan { taken: _, planned } = plan;
    Ok(planned)
}

/// The plan for one of the loaded objects.
pub(crate) fn make_plan<'r>(
    alloc: Global,
    objects: &[Object],
    roots: &'r [Root],
    index: u32,
    scope: &[u32],
    rule: Rule,
) -> Result<Vec<Planned<'r>>, RelocRefusal>
    requires few { length objects.now ≤ 256 }
    requires mappings { AreMappings (map (λ o. o.records) objects.now) 0 roots.now }
    requires index { index < length objects.now }
    requires scope { All (λ i. i < length objects.now) scope.now }
    ensures pairs { IfOk result (λ planned. wanted_pairs (setting_of objects.now roots.now index scope.now rule) ≡ Ok planned.items) }
    ensures refusal { IfErr result (IsRefusedBy (wanted_pairs (setting_of objects.now roots.now index scope.now rule))) }
    ensures slots { IfOk result (λ planned. (memory : TaggedMemory) → IsUnrelocated roots.now index memory → All (IsSlotIn memory) planned.items) }
    ensures apart { IfOk result (λ planned. SlotsAreApart planned.items) }
    ensures narrowed { IfOk result (λ planned. All (λ p. IsNarrowedIn roots.now p.content) planned.items) }
    ensures named { IfOk result (λ planned. NamesSymbols (setting_of objects.now roots.now index scope.now rule)) }
    ensures unfit { IsUnfitBound (setting_of objects.now roots.now index scope.now rule) result }
{
    let code = code_ranges(alloc, objects)?;
    let loaded = Loaded {
        objects,
        roots,
        code: code.as_slice(),
        index,
        scope,
        rule,
    };
    plan_all(alloc, &loaded)
}
