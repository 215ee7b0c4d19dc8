//! Linking.

ghost use Rattle.std.specs.Prelude.{◌≡◌, ◌⊎◌, ◌<◌, ◌==◌, All, Ok, Err, find, length, option_copied, IfOk, IfErr, IfSome};
ghost use Rattle.cap_base.specs.Steps.{Yields};
ghost use Rattle.cap_base.specs.declared.refusal.Refusal.TheVariants.{NoMemory};
ghost use Rattle.cap_elf.specs.RelObject.{RelObject, file_of, name_of};
ghost use Rattle.cap_syms.specs.Output.{is_program, soname_of};
ghost use Rattle.cap_syms.specs.Resolved.{resolve_of};
ghost use Rattle.cap_syms.specs.IsResolved.{IsResolved};
ghost use Rattle.cap_layout.specs.IsPiece.{IsPieceOf};
ghost use Rattle.cap_layout.specs.Laid.{ArePiecesOf, IsLayoutOf, AreSmall};
ghost use Rattle.cap_table.specs.Planned.{IsPlanOf};
ghost use Rattle.cap_link.specs.Counts.{AreRead, IsShortName};
ghost use Rattle.cap_link.specs.Linked.{linked_file, refused_name, flags_of, start_address, start_of_row, entry_of, linked_laid, linked_planned, linked_pieces, linked_of, linked_files, written, numbered, name_in_refusal, IsInputName};

use crate::inputs::Inputs;
use crate::reading::{Files, read_files};
use crate::refusal::LinkRefusal;
use cap_base::{Kind, Name, Refusal};
use cap_code::patch;
use cap_elf::{Class, Place, RelFile};
use cap_emit::{emit, emit_laws};
use cap_layout::{Layout, Pieces, lay, pieces};
use cap_syms::{Bound, Table, resolve};
use cap_table::{Plan, Sources, Target, fill, plan};
use std::alloc::Global;

/// The flags of the linked file: those of the first relocatable input.
fn flags(rels: &[RelFile]) -> u32
    ensures { result ≡ flags_of rels.now }
{
    match rels.first() {
        Some(object) => object.flags(),
        None => 0x30000,
    }
}

/// The address of `_start`, where a kept section defines it; else 0.
#[tactic(auto, unfolding(crate::specs::Linked::start_address))]
fn start(layout: &Layout<'_>, target: Target) -> u64
    requires file { target.file < length layout.now.rels }
    requires symbol { target.symbol < length (file_of layout.now.rels target.file).symbols }
    ensures { result ≡ start_address layout.now target }
{
    let in_section = matches!(target.as_is.place, Place::Section(_));
    if target.bound == Bound::Local && in_section && target.class != Class::Dropped {
        layout.point(target.file, target.symbol, 0).unwrap_or(0)
    } else {
        0
    }
}

/// Where a program is entered (e_entry).
#[tactic(auto, unfolding(crate::specs::Linked::entry_of))]
fn entry(sources: &Sources<'_>, layout: &Layout<'_>, kind: &Kind) -> u64
    requires { layout.now.rels ≡ sources.now.rels }
    ensures { result ≡ entry_of sources.now layout.now kind.now }
{
    match kind {
        Kind::Program => match sources.table().find(b"_start") {
            Some(row) => start(layout, sources.row(row)),
            None => 0,
        },
        Kind::Shared(_) => 0,
    }
}

/// The passes behind the layout.
#[tactic(auto, unfolding(crate::specs::Linked::linked_laid))]
fn link_laid(
    alloc: Global,
    sources: &Sources<'_>,
    plan: &Plan,
    layout: &Layout<'_>,
    kind: &Kind,
) -> Result<Vec<u8>, Refusal>
    requires rels { layout.now.rels ≡ sources.now.rels }
    requires pieces { ArePiecesOf sources.now.rels sources.now.table layout.now.pieces }
    requires planned { IsPlanOf sources.now layout.now.pieces.all plan.now }
    requires laid { IsLayoutOf sources.now.rels layout.now.pieces plan.now.sizes layout.now }
    ensures { Yields (λ bytes. bytes.items) result (written (linked_laid sources.now plan.now layout.now kind.now)) }
{
    emit_laws();
    let lists = fill(alloc, plan, sources, layout)?;
    let bodies = patch(alloc, sources, layout, &lists)?;
    let flags = flags(sources.rels());
    let entry = entry(sources, layout, kind);
    let bytes = emit(alloc, layout, &lists, &bodies, flags, entry)?;
    Ok(bytes)
}

/// The passes behind the plan.
#[tactic(auto, unfolding(crate::specs::Linked::linked_planned))]
fn link_planned(
    alloc: Global,
    sources: &Sources<'_>,
    pieces: &Pieces,
    plan: &Plan,
    kind: &Kind,
) -> Result<Vec<u8>, Refusal>
    requires of_inputs { All (IsPieceOf sources.now.rels) pieces.now.all }
    requires pieces { ArePiecesOf sources.now.rels sources.now.table pieces.now }
    requires planned { IsPlanOf sources.now pieces.now.all plan.now }
    requires small { AreSmall plan.now.sizes }
    ensures { Yields (λ bytes. bytes.items) result (written (linked_planned sources.now pieces.now plan.now kind.now)) }
{
    let layout = lay(alloc, sources.rels(), pieces, &plan.sizes())?;
    link_laid(alloc, sources, plan, &layout, kind)
}

/// The passes behind the pieces.
#[tactic(auto, unfolding(crate::specs::Linked::linked_pieces))]
fn link_pieces(
    alloc: Global,
    files: &Files,
    table: &Table<'_>,
    pieces: &Pieces,
    kind: &Kind,
) -> Result<Vec<u8>, Refusal>
    requires few { AreRead 256 files.now }
    requires resolved { IsResolved files.now.rels table.now }
    requires soname { IfSome (soname_of kind.now) IsShortName }
    requires of_inputs { All (IsPieceOf files.now.rels) pieces.now.all }
    requires pieces { ArePiecesOf files.now.rels table.now pieces.now }
    ensures { Yields (λ bytes. bytes.items) result (written (linked_pieces files.now table.now pieces.now kind.now)) }
{
    let sources = Sources::new(alloc, &files.rels, table)?;
    let plan = plan(alloc, &sources, pieces, &files.needed, kind)?;
    link_planned(alloc, &sources, pieces, &plan, kind)
}

/// The passes behind the resolved names.
#[tactic(auto, unfolding(crate::specs::Linked::linked_of))]
fn link_named(
    alloc: Global,
    files: &Files,
    table: &Table<'_>,
    kind: &Kind,
) -> Result<Vec<u8>, Refusal>
    requires few { AreRead 256 files.now }
    requires resolved { IsResolved files.now.rels table.now }
    requires soname { IfSome (soname_of kind.now) IsShortName }
    ensures { Yields (λ bytes. bytes.items) result (written (linked_of files.now table.now kind.now)) }
{
    let pieces = pieces(alloc, &files.rels, table)?;
    link_pieces(alloc, files, table, &pieces, kind)
}

/// All passes behind reading.
fn link_files(alloc: Global, files: &Files, kind: &Kind) -> Result<Vec<u8>, Refusal>
    requires few { AreRead 256 files.now }
    requires soname { IfSome (soname_of kind.now) IsShortName }
    ensures { Yields (λ bytes. bytes.items) result (written (linked_files files.now kind.now)) }
{
    let table = resolve(alloc, &files.rels, &files.dyns, kind)?;
    link_named(alloc, files, &table, kind)
}

/// The relocatable input of this number.
#[tactic(auto, using(cap_base::proofs::Walk::find_skip, cap_base::proofs::Walk::find_hit, cap_base::proofs::Walk::find_none))]
fn of_number(rels: &[RelFile], file: u32) -> Option<&RelFile>
    ensures { option_copied result ≡ find (λ r. r.number == file) rels.now }
{
    for object in rels {
        if object.number() == file {
            return Some(object);
        }
    }
    None
}

/// The name of a symbol; the empty name past the end.
fn name_or_none(object: &RelFile, symbol: u32) -> &[u8]
    ensures { result.now ≡ name_of object.now symbol }
{
    if (symbol as usize) < object.symbols().len() {
        object.name(symbol)
    } else {
        &[]
    }
}

/// The name of a symbol, where the file of this number has it; else the empty name.
fn symbol_name(rels: &[RelFile], file: u32, symbol: u32) -> &[u8]
    ensures { result.now ≡ name_of (numbered rels.now file) symbol }
{
    match of_number(rels, file) {
        Some(object) => name_or_none(object, symbol),
        None => &[],
    }
}

/// A refusal of these files, with the name of the symbol that it speaks of.
fn named(alloc: Global, rels: &[RelFile], refusal: Refusal) -> LinkRefusal
    ensures refusal { (result.refusal ≡ refusal) ⊎ (result.refusal ≡ NoMemory) }
    ensures name { result.name ≡ name_in_refusal rels.now result.refusal }
{
    let Refusal::Unresolved { file, symbol } = refusal else {
        return LinkRefusal {
            refusal,
            name: Name::empty(alloc),
        };
    };
    match Name::of(alloc, symbol_name(rels, file, symbol)) {
        Ok(name) => LinkRefusal { refusal, name },
        Err(_) => LinkRefusal {
            refusal: Refusal::NoMemory,
            name: Name::empty(alloc),
        },
    }
}

/// Links relocatable objects and shared objects into one position-independent object: a program, or a shared object of
/// the kind's name. The answer is the bytes of the file (ELF64, ET_DYN, RISC-V, pure-capability).
///
/// The refusal is that of the first pass that refuses. The number of a file is its place among the inputs.
///
/// - Malformed, Unsupported and Limit: the first check that fails, of an input in order (`read_dyn` where its e_type is
///   ET_DYN, else `read_rel`); then of the definitions of one name, of overlapping symbols, of a relocation, of the counts
///   of symbols and relocations, of a capability's alignment, and of the range of a branch.
/// - Unresolved: no input defines the name, and it can't be left to load; the refusal has the name.
/// - Full: a part would end behind 2^26 bytes, at `asked`.
/// - NoMemory, which may come in place of any other answer.
#[tactic(auto, unfolding(crate::specs::Linked::link_of))]
pub fn link(alloc: Global, inputs: Inputs, kind: &Kind) -> Result<Vec<u8>, LinkRefusal>
    requires soname { IfSome (soname_of kind.now) IsInputName }
    ensures file { IfOk result (λ bytes. linked_file inputs kind.now ≡ Ok bytes.items) }
    ensures refused { IfErr result (λ e. (e.refusal ≡ NoMemory) ⊎ (linked_file inputs kind.now ≡ Err e.refusal)) }
    ensures named { IfErr result (λ e. e.name ≡ refused_name inputs e.refusal) }
{
    match read_files(alloc, inputs) {
        Ok(files) => match link_files(alloc, &files, kind) {
            Ok(bytes) => Ok(bytes),
            Err(refusal) => Err(named(alloc, &files.rels, refusal)),
        },
        Err(refusal) => Err(named(alloc, &[], refusal)),
    }
}
