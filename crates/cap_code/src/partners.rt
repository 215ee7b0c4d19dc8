//! Which high part stands at a place.

ghost use Rattle.std.specs.Prelude.{◌≡◌, ◌+◌, ◌<◌, OnOk, IfOk, find, drop, length};
ghost use Rattle.cap_code.specs.Values.{is_high_at};
ghost use Rattle.cap_code.specs.Partners.{AreFirsts};

use crate::kinds;
use crate::scene::Scene;
use cap_base::NoMemory;
use cap_table::Step;
use std::alloc::Global;
use std::collections::BTreeMap;

/// The first high part at each place: a file, a section of it, and an offset there.
#[derive(Drop)]
pub(crate) struct Partners {
    pub(crate) firsts: BTreeMap<(u32, u32, u64), Step>,
}

/// Enters step `k`, where all behind it are entered.
fn enter(
    firsts: &mut BTreeMap<(u32, u32, u64), Step>,
    scene: &Scene<'_>,
    k: usize,
) -> Result<(), NoMemory>
    requires inside { k < length scene.now.lists.plan.steps }
    requires behind { AreFirsts firsts.old scene.now.named.rels (drop (k + 1) scene.now.lists.plan.steps) }
    ensures { OnOk result (AreFirsts firsts.new scene.now.named.rels (drop k scene.now.lists.plan.steps)) }
{
    let step = scene.step(k);
    let reloc = scene.reloc(&step);
    if kinds::is_high(reloc.kind) {
        firsts.insert((step.file, reloc.section, reloc.offset), step)?;
    }
    Ok(())
}

impl Partners {
    /// Finds the first high part at each place. It goes through the steps from the last to the first.
    pub(crate) fn new(alloc: Global, scene: &Scene<'_>) -> Result<Partners, NoMemory>
        ensures { IfOk result (λ p. AreFirsts p.firsts scene.now.named.rels scene.now.lists.plan.steps) }
    {
        let mut firsts = BTreeMap::new(alloc);
        for k in (0..scene.len()).rev() {
            enter(&mut firsts, scene, k)?;
        }
        Ok(Partners { firsts })
    }

    /// The first high part of a section of a file at an offset.
    pub(crate) fn find(
        &self,
        scene: &Scene<'_>,
        file: u32,
        section: u32,
        offset: u64,
    ) -> Option<Step>
        requires { AreFirsts self.now.firsts scene.now.named.rels scene.now.lists.plan.steps }
        ensures { result ≡ find (is_high_at scene.now.named.rels file section offset) scene.now.lists.plan.steps }
    {
        self.firsts.get(&(file, section, offset)).copied()
    }
}
