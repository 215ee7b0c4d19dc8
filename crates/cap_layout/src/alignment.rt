//! Whether each capability stands at a multiple of its size.

ghost use Rattle.std.specs.Prelude.{◌≡◌, length, MatchResult};
ghost use Rattle.cap_base.specs.Steps.{Yields, each};
ghost use Rattle.std.specs.List.{enumerate_from};
ghost use Rattle.cap_base.specs.declared.refusal.Refusal.TheVariants.{NoMemory};
ghost use Rattle.cap_layout.specs.Laid.{is_aligned, file_aligned};

use crate::layout::Layout;
use cap_base::{Check, Fault, Refusal, refuse};
use cap_elf::{RelFile, Reloc};

/// The relocation that makes a capability (R_RISCV_CHERI_CAPABILITY).
const CAPABILITY: u32 = 193;

/// The size of a capability.
const GRANULE: u64 = 16;

// The number of the piece of a record's field, or the guess.
fn near(layout: &Layout<'_>, guess: u32, file: u32, reloc: &Reloc) -> u32 {
    layout
        .pieces()
        .find_near(guess, file, reloc.section, reloc.offset)
        .unwrap_or(guess)
}

// The check of a record, which is likely in the guessed piece or in the next; its piece is the next guess.
#[tactic(auto, unfolding(crate::specs::Laid::is_aligned))]
fn check_record(layout: &Layout<'_>, guess: &mut u32, file: u32, reloc: &Reloc) -> Result<(), Fault>
    ensures { result ≡ is_aligned layout.now file reloc.now }
{
    if reloc.kind != CAPABILITY {
        return Ok(());
    }
    *guess = near(layout, *guess, file, reloc);
    match layout.place_near(*guess, file, reloc.section, reloc.offset) {
        Some(address) => refuse(address % GRANULE != 0, Check::CapabilityAlignment, reloc.at),
        None => Ok(()),
    }
}

#[tactic(auto, using(cap_base::proofs::Walk::steps_more, cap_base::proofs::Walk::steps_fault, cap_base::proofs::Walk::steps_done))]
fn check_records(layout: &Layout<'_>, file: u32, relocs: &[Reloc]) -> Result<(), Fault>
    ensures { result ≡ each (is_aligned layout.now file) relocs.now }
{
    let mut guess = 0;
    for reloc in relocs {
        check_record(layout, &mut guess, file, reloc)?;
    }
    Ok(())
}

fn check_file(layout: &Layout<'_>, file: u32, object: &RelFile) -> Result<(), Refusal>
    ensures { result ≡ file_aligned layout.now (file, object.now) }
{
    match check_records(layout, file, object.relocs()) {
        Ok(()) => Ok(()),
        Err(fault) => Err(fault.refusal(object.number())),
    }
}

fn count_of(rels: &[RelFile]) -> Result<u32, Refusal>
    ensures { MatchResult result (λ count. count ≡ length rels.now) (λ refusal. refusal ≡ NoMemory) }
{
    match u32::try_from(rels.len()) {
        Ok(count) => Ok(count),
        Err(_) => Err(Refusal::NoMemory),
    }
}

/// Refuses the first capability, in order of files and records, whose address is no multiple of 16.
#[tactic(auto, using(crate::proofs::PlaceWalk::each_more, crate::proofs::PlaceWalk::each_stop, crate::proofs::PlaceWalk::each_done))]
pub(crate) fn check_files(layout: &Layout<'_>, rels: &[RelFile]) -> Result<(), Refusal>
    ensures { Yields (λ _. tt) result (each (file_aligned layout.now) (enumerate_from 0 rels.now)) }
{
    for file in 0..count_of(rels)? {
        check_file(layout, file, &rels[file as usize])?;
    }
    Ok(())
}
