// The slots of relocations.
ghost use Rattle.std.specs.Prelude.{◌≡◌, ◌+◌, ◌<◌, ◌≤◌, ℕ, false, length, IfOk, OnOk};
ghost use Rattle.cap_reloc.specs.Planned.{content_of};
ghost use Rattle.cap_reloc.specs.Wanted.{own, width_of_kind as width_of, is_kind as is_kind_of, slot_fails as slot_fails_of, pair_at, entry_pair as entry_pair_of, slot_pair as slot_pair_of, record_pair as record_pair_of};
ghost use Rattle.cap_reloc.specs.Refusing.{refuse as refuse_of, malformed as malformed_of};
ghost use Rattle.cap_base.specs.declared.check.Check.TheVariants.{RelocationSlot};
ghost use Rattle.cap_reloc.specs.Taken.{is_touched};
ghost use Rattle.cap_reloc.specs.Tells.{Tells};

use crate::RelocRefusal;
use crate::content::{entry_content, record_content};
use crate::loaded::Loaded;
use crate::planned::{Held, Planned};
use crate::segments::is_in_writable;
use crate::step::{malformed, refuse, unsupported};
use crate::taken::Taken;
use cap_base::Check;
use cap_elf::{CapReloc, DynReloc};

/// How many bytes the slot of a kind has: none of NONE, 8 of 64 and RELATIVE, 16 of JUMP_SLOT and CAPABILITY.
pub(crate) fn width_of_kind(kind: u32) -> u64
    ensures { result ≡ width_of kind }
{
    match kind {
        2 | 3 => 8,
        5 | 193 => 16,
        _ => 0,
    }
}

/// Whether the kind is accepted.
fn is_kind(kind: u32) -> bool
    ensures { result ≡ is_kind_of kind }
{
    kind == 0 || kind == 2 || kind == 3 || kind == 5 || kind == 193
}

/// Whether a slot, which isn't empty, isn't in one writable segment, or is long and not aligned, or is touched.
fn slot_fails(loaded: &Loaded<'_, '_>, taken: &Taken, at: u64, len: u64) -> bool
    requires { 0 < len }
    ensures value { result ≡ slot_fails_of (own loaded.now) (is_touched taken.now (at, len)) (at, len) }
    ensures within { result ≡ false → at + len ≤ (own loaded.now).span }
    ensures free { result ≡ false → is_touched taken.now (at, len) ≡ false }
{
    if !is_in_writable(loaded.own(), at, len) {
        return true;
    }
    (len == 16 && at % 16 != 0) || taken.is_touched(at, len)
}

/// What is planned for a slot of the relocated object.
fn planned_at<'r>(loaded: &Loaded<'_, 'r>, slot: u64, held: Held<'r>) -> Planned<'r>
    requires { slot ≤ (own loaded.now).span }
    ensures { result ≡ pair_at loaded.now slot (content_of held.entry) }
{
    Planned {
        slot: loaded.bias() + slot,
        held,
    }
}

/// The planned slot of an entry.
#[tactic(auto, unfolding(crate::specs::Wanted::entry_pair))]
pub(crate) fn entry_pair<'r>(
    loaded: &Loaded<'_, 'r>,
    taken: &Taken,
    entry: &CapReloc,
) -> Result<Planned<'r>, RelocRefusal>
    ensures pair { Tells (λ p. p) result (entry_pair_of loaded.now (is_touched taken.now (entry.now.location, 16)) entry.now) }
    ensures free { OnOk result (is_touched taken.now (entry.now.location, 16) ≡ false) }
{
    refuse(
        slot_fails(loaded, taken, entry.location, 16),
        malformed(Check::RelocationSlot, entry.at),
    )?;
    let held = entry_content(loaded, entry)?;
    Ok(planned_at(loaded, entry.location, held))
}

/// The planned slot of a record of an accepted kind other than NONE.
#[tactic(auto, unfolding(crate::specs::Wanted::slot_pair))]
fn slot_pair<'r>(
    loaded: &Loaded<'_, 'r>,
    taken: &Taken,
    reloc: &DynReloc,
) -> Result<Planned<'r>, RelocRefusal>
    requires symbol { reloc.now.symbol < length (own loaded.now).symbols }
    requires some { 0 < width_of reloc.now.kind }
    ensures pair { Tells (λ p. p) result (slot_pair_of loaded.now (is_touched taken.now (reloc.now.slot, width_of reloc.now.kind)) reloc.now) }
    ensures free { OnOk result (is_touched taken.now (reloc.now.slot, width_of reloc.now.kind) ≡ false) }
{
    refuse(
        slot_fails(loaded, taken, reloc.slot, width_of_kind(reloc.kind)),
        malformed(Check::RelocationSlot, reloc.at),
    )?;
    let held = record_content(loaded, reloc)?;
    Ok(planned_at(loaded, reloc.slot, held))
}

/// The planned slot of a record; of the kind NONE it has none.
#[tactic(auto, unfolding(crate::specs::Wanted::record_pair))]
pub(crate) fn record_pair<'r>(
    loaded: &Loaded<'_, 'r>,
    taken: &Taken,
    reloc: &DynReloc,
) -> Result<Option<Planned<'r>>, RelocRefusal>
    requires { reloc.now.symbol < length (own loaded.now).symbols }
    ensures pair { Tells (λ p. p) result (record_pair_of loaded.now (is_touched taken.now (reloc.now.slot, width_of reloc.now.kind)) reloc.now) }
    ensures free { OnOk result (is_touched taken.now (reloc.now.slot, width_of reloc.now.kind) ≡ false) }
{
    refuse(
        !is_kind(reloc.kind),
        unsupported(Check::RelocationKind, reloc.at),
    )?;
    if reloc.kind == 0 {
        return Ok(None);
    }
    let pair = slot_pair(loaded, taken, reloc)?;
    Ok(Some(pair))
}
