//! Cutting the sections of the inputs into pieces.

ghost use Rattle.std.specs.Prelude.{◌≡◌, ◌≤◌, ◌<◌, ◌^◌, ◌++◌, [], ◌∷◌, true, false, if◌then◌else◌, IfOk, OnOk, All, length, map};
ghost use Rattle.std.specs.List.{flat_map};
ghost use Rattle.cap_base.specs.Steps.{Yields, each, in_file};
ghost use Rattle.cap_elf.specs.Classes.{is_split as splits, same_class};
ghost use Rattle.cap_elf.specs.IsRelRead.{IsRelRead};
ghost use Rattle.cap_syms.specs.IsResolved.{IsResolved};
ghost use Rattle.cap_layout.specs.Cuts.{overlap_of};
ghost use Rattle.cap_layout.specs.Marked.{cut_pieces, mark_lists, AreMarksOf};
ghost use Rattle.cap_layout.specs.Pieces.{pieces_of, file_pieces, class_pieces, class_order, piece_list};
ghost use Rattle.cap_layout.specs.PieceOrder.{section_classes};
ghost use Rattle.cap_layout.specs.IsPiece.{IsPiece, IsPieceOf};
ghost use Rattle.cap_layout.specs.Places.{InClassOrder};

use crate::classes::FileClasses;
use crate::commons::add_commons;
use crate::listed::Listed;
use crate::making::add_section;
use crate::marks::{FileMarks, marks_of};
use crate::overlap::refuse_overlaps;
use crate::piece_list::Pieces;
use cap_base::{NoMemory, Refusal};
use cap_elf::{Class, RelFile, Section};
use cap_syms::Table;
use std::alloc::Global;

/// Refuses the first file whose symbols overlap.
fn refuse_all(alloc: Global, rels: &[RelFile]) -> Result<(), Refusal>
    ensures value { Yields (λ u. u) result (each (λ object. in_file object.number (overlap_of object)) rels.now) }
    ensures sound { OnOk result (All IsRelRead rels.now) }
{
    for rel in rels {
        refuse_overlaps(alloc, rel)?;
    }
    Ok(())
}

/// The marks of each file.
fn all_marks(alloc: Global, rels: &[RelFile]) -> Result<Vec<FileMarks>, NoMemory>
    ensures { IfOk result (λ marks. marks.items ≡ map mark_lists rels.now) }
{
    let mut marks = Vec::new(alloc);
    for rel in rels {
        marks.push(marks_of(alloc, rel)?)?;
    }
    Ok(marks)
}

/// The classes of the sections of each file.
fn all_classes(alloc: Global, rels: &[RelFile]) -> Result<Vec<FileClasses>, NoMemory>
    ensures { IfOk result (λ classes. classes.items ≡ map section_classes rels.now) }
{
    let mut classes = Vec::new(alloc);
    for rel in rels {
        classes.push(FileClasses::new(alloc, rel)?)?;
    }
    Ok(classes)
}

/// Adds the pieces of a section if it is of this class.
fn add_if_of(
    all: &mut Listed,
    class: Class,
    file: u32,
    place: u32,
    section: &Section,
    marks: &[u64],
) -> Result<(), NoMemory>
    requires { splits section.now.class ≡ true → AreMarksOf (2 ^ 62) marks.now }
    ensures { OnOk result (all.new ≡ all.old ++ (if same_class section.now.class class then cut_pieces file place section.now marks.now else [])) }
{
    if section.class == class {
        add_section(all, file, place, section, marks)
    } else {
        Ok(())
    }
}

/// Adds the pieces of the sections of a file that are of this class.
fn add_file(
    all: &mut Listed,
    class: Class,
    file: u32,
    rel: &RelFile,
    marks: &FileMarks,
) -> Result<(), NoMemory>
    requires { marks.now ≡ mark_lists rel.now }
    ensures { OnOk result (all.new ≡ all.old ++ file_pieces class rel.now file) }
{
    let sections = rel.sections();
    for place in 0..sections.len() {
        add_if_of(
            all,
            class,
            file,
            place as u32,
            &sections[place],
            marks.of(place),
        )?;
    }
    Ok(())
}

/// Adds the pieces of all sections of this class.
fn add_class(
    all: &mut Listed,
    class: Class,
    rels: &[RelFile],
    marks: &[FileMarks],
) -> Result<(), NoMemory>
    requires few { length rels.now ≤ 256 }
    requires marks { marks.now ≡ map mark_lists rels.now }
    ensures { OnOk result (all.new ≡ all.old ++ class_pieces rels.now class) }
{
    for file in 0..rels.len() {
        add_file(all, class, file as u32, &rels[file], &marks[file])?;
    }
    Ok(())
}

/// The pieces of all sections, class by class.
fn section_pieces(alloc: Global, rels: &[RelFile], marks: &[FileMarks]) -> Result<Listed, NoMemory>
    requires few { length rels.now ≤ 256 }
    requires marks { marks.now ≡ map mark_lists rels.now }
    ensures { IfOk result (λ all. all ≡ flat_map (class_pieces rels.now) class_order) }
{
    let mut all = Listed::new(alloc);
    add_class(&mut all, Class::Ro, rels, marks)?;
    add_class(&mut all, Class::Code, rels, marks)?;
    add_class(&mut all, Class::Init, rels, marks)?;
    add_class(&mut all, Class::Fini, rels, marks)?;
    add_class(&mut all, Class::Relro, rels, marks)?;
    add_class(&mut all, Class::Data, rels, marks)?;
    add_class(&mut all, Class::Bss, rels, marks)?;
    Ok(all)
}

/// The pieces of inputs whose symbols don't overlap.
fn put_together(alloc: Global, rels: &[RelFile], table: &Table<'_>) -> Result<Pieces, NoMemory>
    requires few { length rels.now ≤ 256 }
    requires resolved { IsResolved rels.now table.now }
    requires read { All IsRelRead rels.now }
    ensures value { IfOk result (λ pieces. pieces ≡ piece_list rels.now table.now) }
    ensures sound { IfOk result (λ pieces. All IsPiece pieces.all) }
    ensures order { IfOk result (λ pieces. InClassOrder pieces.all) }
    ensures of_inputs { IfOk result (λ pieces. All (IsPieceOf rels.now) pieces.all) }
{
    let marks = all_marks(alloc, rels)?;
    let mut all = section_pieces(alloc, rels, &marks)?;
    let sections = all.len();
    let commons = add_commons(alloc, &mut all, table)?;
    let classes = all_classes(alloc, rels)?;
    Ok(Pieces::new(all, commons, sections, classes))
}

/// Cuts the sections of the inputs into pieces: near-linear in their sections and symbols.
///
/// A section of data is cut at its symbols: each interval that symbols with bytes have is a piece, and so is each gap
/// before, between and after them. A section of code or of calls is one piece, and so is a section of size 0, and each
/// common symbol that was chosen. A piece of data and a common symbol are aligned and padded to bounds that a capability
/// can have exactly (CHERI ISA v9, CRepresentableAlignmentMask and CRoundRepresentableLength).
///
/// A file is refused at the record of its first symbol that shares a byte with an earlier one without having the same
/// interval (`SymbolOverlap`, malformed); the first such file decides. There may be `NoMemory` instead, also where there
/// would be 2^32 pieces.
#[tactic(auto, unfolding(crate::specs::Pieces::pieces_of))]
pub fn pieces(alloc: Global, rels: &[RelFile], table: &Table<'_>) -> Result<Pieces, Refusal>
    requires few { length rels.now ≤ 256 }
    requires resolved { IsResolved rels.now table.now }
    ensures value { Yields (λ pieces. pieces) result (pieces_of rels.now table.now) }
    ensures sound { IfOk result (λ pieces. All IsPiece pieces.all) }
    ensures order { IfOk result (λ pieces. InClassOrder pieces.all) }
    ensures of_inputs { IfOk result (λ pieces. All (IsPieceOf rels.now) pieces.all) }
{
    refuse_all(alloc, rels)?;
    let pieces = put_together(alloc, rels, table)?;
    Ok(pieces)
}
