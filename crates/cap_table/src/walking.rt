//! The walk over the relocations, in order of files, sections and records, and the checks of each.

ghost use Rattle.std.specs.Prelude.{◌≡◌, ◌+◌, ◌^◌, ◌<◌, ◌≤◌, false, length, ok_or, All, IfOk, OnOk};
ghost use Rattle.std.specs.List.{enumerate_from};
ghost use Rattle.cap_base.specs.Steps.{fault, steps as steps_of, Gives, Yields};
ghost use Rattle.cap_base.specs.declared.check.Check.TheVariants.{RelocationOffset};
ghost use Rattle.cap_elf.specs.IsRelRead.{IsRelRead};
ghost use Rattle.cap_elf.specs.RelObject.{file_of};
ghost use Rattle.cap_layout.specs.IsPiece.{IsPiece};
ghost use Rattle.cap_layout.specs.Pieces.{field_piece as field_piece_of};
ghost use Rattle.cap_table.specs.Kinds.{is_passed_over as is_passed_over_kind, width_of as width_of_kind};
ghost use Rattle.cap_table.specs.Checks.{clashes as clashes_of, checked_piece as checked_piece_of, record_step as record_step_of, file_steps as file_steps_of, walk_of, IsStep};
ghost use Rattle.cap_table.specs.Walked.{next_of};

use crate::checks::{addend_passes, refuses_target};
use crate::kinds::{field_width, is_accepted, is_passed_over};
use crate::sources::Sources;
use crate::target::Step;
use crate::walked::Walked;
use cap_base::{Check, Fault, Refusal, Stop, refuse};
use cap_elf::Reloc;
use cap_layout::Pieces;
use std::alloc::Global;

// The piece that holds the field of a relocation. The guess is the piece of the field before.
fn field_piece(pieces: &Pieces, guess: u32, file: u32, reloc: &Reloc) -> Result<u32, Fault>
    requires sound { All IsPiece pieces.now.all }
    requires kind { is_passed_over_kind reloc.now.kind ≡ false }
    ensures value { result ≡ ok_or (field_piece_of pieces.now.all file reloc.now.section reloc.now.offset (width_of_kind reloc.now.kind)) (fault RelocationOffset reloc.now.at) }
    ensures end { IfOk result (λ _. reloc.now.offset + width_of_kind reloc.now.kind ≤ 2 ^ 62) }
{
    let width = field_width(reloc.kind);
    match pieces.holding_near(guess, file, reloc.section, reloc.offset, width) {
        Some(piece) => Ok(piece),
        None => Err(Fault {
            check: Check::RelocationOffset,
            at: reloc.at,
        }),
    }
}

/// The piece of the field of the next relocation, which isn't passed over, or the first check that it fails.
#[tactic(auto, unfolding(crate::specs::Checks::checked_piece))]
fn checked_piece(
    sources: &Sources<'_>,
    pieces: &Pieces,
    guess: u32,
    file: u32,
    walked: &Walked<'_>,
) -> Result<u32, Fault>
    requires sound { All IsPiece pieces.now.all }
    requires file { file < length sources.now.rels }
    requires relocs { walked.now.relocs ≡ (file_of sources.now.rels file).relocs }
    requires sections { walked.now.sections ≡ length (file_of sources.now.rels file).sections }
    requires section { (next_of walked.now).section < walked.now.sections }
    requires symbol { (next_of walked.now).symbol < length (file_of sources.now.rels file).symbols }
    requires more { walked.now.done < length walked.now.relocs }
    requires kind { is_passed_over_kind (next_of walked.now).kind ≡ false }
    ensures value { result ≡ checked_piece_of sources.now pieces.now.all file (walked.now.done, next_of walked.now) }
    ensures end { IfOk result (λ _. (next_of walked.now).offset + width_of_kind (next_of walked.now).kind ≤ 2 ^ 62) }
    ensures free { IfOk result (λ _. clashes_of walked.now.relocs walked.now.done (next_of walked.now) ≡ false) }
{
    let reloc = walked.next();
    let kind = reloc.kind;
    let class = sources.rels()[file as usize].sections()[reloc.section as usize].class;
    let target = sources.target_ref(file, reloc.symbol);
    refuse(!is_accepted(class, kind), Check::RelocationKind, reloc.at)?;
    let piece = field_piece(pieces, guess, file, reloc)?;
    refuse(
        refuses_target(kind, target),
        Check::RelocationKind,
        reloc.at,
    )?;
    refuse(walked.clashes(reloc), Check::RelocationSlot, reloc.at)?;
    refuse(
        !addend_passes(kind, target, reloc.addend),
        Check::Addend,
        reloc.at,
    )?;
    Ok(piece)
}

/// The steps of one input, and the piece of the last of them.
#[derive(Drop)]
struct Walk<'a> {
    walked: Walked<'a>,
    steps: Vec<Step>,
    piece: u32,
}

/// Walks the next relocation.
#[tactic(auto, unfolding(crate::specs::Checks::record_step))]
fn record_step<'a>(
    sources: &Sources<'_>,
    pieces: &Pieces,
    file: u32,
    walk: Walk<'a>,
) -> Result<Walk<'a>, Stop>
    requires sound { All IsPiece pieces.now.all }
    requires file { file < length sources.now.rels }
    requires read { IsRelRead (file_of sources.now.rels file) }
    requires relocs { walk.walked.relocs ≡ (file_of sources.now.rels file).relocs }
    requires sections { walk.walked.sections ≡ length (file_of sources.now.rels file).sections }
    requires more { walk.walked.done < length walk.walked.relocs }
    ensures value { Gives (λ w. w.steps.items) result (record_step_of sources.now pieces.now.all file walk.entry.steps.items (walk.entry.walked.done, next_of walk.entry.walked)) }
    ensures walked { IfOk result (λ w. w.walked ≡ record walk.entry.walked { done = walk.entry.walked.done + 1 }) }
{
    let Walk {
        walked,
        mut steps,
        piece,
    } = walk;
    if is_passed_over(walked.next().kind) {
        let walked = walked.skip();
        return Ok(Walk {
            walked,
            steps,
            piece,
        });
    }
    let piece = checked_piece(sources, pieces, piece, file, &walked)?;
    let index = walked.index();
    let walked = walked.add()?;
    steps.push(Step { file, index, piece })?;
    Ok(Walk {
        walked,
        steps,
        piece,
    })
}

// The steps of one input.
#[tactic(auto, using(crate::proofs::StepWalk::numbered_more, crate::proofs::StepWalk::numbered_stop, crate::proofs::StepWalk::numbered_done))]
fn record_steps(
    alloc: Global,
    sources: &Sources<'_>,
    pieces: &Pieces,
    file: u32,
    mut steps: Vec<Step>,
) -> Result<Vec<Step>, Stop>
    requires sound { All IsPiece pieces.now.all }
    requires file { file < length sources.now.rels }
    ensures { Gives (λ v. v.items) result (steps_of (record_step_of sources.now pieces.now.all file) steps.items (enumerate_from 0 (file_of sources.now.rels file).relocs)) }
{
    let object = &sources.rels()[file as usize];
    let relocs = object.relocs();
    steps.reserve(relocs.len())?;
    let walked = Walked::new(alloc, relocs, object.sections().len())?;
    let mut walk = Walk {
        walked,
        steps,
        piece: 0,
    };
    for _ in 0..relocs.len() {
        walk = record_step(sources, pieces, file, walk)?;
    }
    Ok(walk.steps)
}

// The steps so far, and those of one more input; a refusal names the number of its file.
#[tactic(auto, unfolding(crate::specs::Checks::file_steps), using(crate::proofs::StepWalk::file_stop))]
fn file_steps(
    alloc: Global,
    sources: &Sources<'_>,
    pieces: &Pieces,
    file: u32,
    steps: Vec<Step>,
) -> Result<Vec<Step>, Refusal>
    requires sound { All IsPiece pieces.now.all }
    requires file { file < length sources.now.rels }
    ensures { Yields (λ v. v.items) result (file_steps_of sources.now pieces.now.all steps.items (file, file_of sources.now.rels file)) }
{
    match record_steps(alloc, sources, pieces, file, steps) {
        Ok(steps) => Ok(steps),
        Err(stop) => Err(stop.refusal(sources.rels()[file as usize].number())),
    }
}

fn file_count(sources: &Sources<'_>) -> u32
    requires few { length sources.now.rels ≤ 256 }
    ensures { result ≡ length sources.now.rels }
{
    sources.rels().len() as u32
}

/// The steps of all relocations, or the first check that fails.
#[tactic(auto, unfolding(crate::specs::Checks::walk_of), using(crate::proofs::StepWalk::numbered_more, crate::proofs::StepWalk::numbered_refusal, crate::proofs::StepWalk::numbered_done))]
pub(crate) fn all_steps(
    alloc: Global,
    sources: &Sources<'_>,
    pieces: &Pieces,
) -> Result<Vec<Step>, Refusal>
    requires sound { All IsPiece pieces.now.all }
    requires few { length sources.now.rels ≤ 256 }
    ensures value { Yields (λ v. v.items) result (walk_of sources.now pieces.now.all) }
    ensures steps { IfOk result (λ v. All (IsStep sources.now) v.items) }
{
    let mut steps = Vec::new(alloc);
    for file in 0..file_count(sources) {
        steps = file_steps(alloc, sources, pieces, file, steps)?;
    }
    Ok(steps)
}
