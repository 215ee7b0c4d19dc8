//! Placing the segments of the linked file, one after another.

ghost use Rattle.std.specs.Prelude.{◌≡◌, ◌+◌, ◌-◌, ◌≤◌, ◌^◌, true, if◌then◌else◌, All, IfOk};
ghost use Rattle.cap_base.specs.Steps.{Yields, each};
ghost use Rattle.cap_layout.specs.IsPiece.{IsPiece};
ghost use Rattle.cap_layout.specs.Laid.{AreSmall, ends_low};
ghost use Rattle.cap_layout.specs.Parts.{whole_alignment, padded_ends};
ghost use Rattle.cap_layout.specs.Segments.{tables_of, with_tables, with_read_only, with_code, has_class as has_class_in, has_class_bytes, array_first, with_array, with_relocated, with_writable, largest_of, parts_from, with_all, all_places};

use crate::by_class::ByClass;
use crate::parts::{Parts, Sizes};
use crate::piece::Piece;
use crate::running::Running;
use crate::stages::{CallArray, CodePart, ReadOnly, Relocated, Tables, Writable};
use cap_base::Refusal;
use cap_conc::{repr_align, repr_len};
use cap_elf::Class;
use std::alloc::Global;

/// The size of a page.
const PAGE: u64 = 4096;

/// The end of the headers of the file and of its six segments.
const HEADERS_END: u64 = 64 + 6 * 56;

// The tables and the names follow the headers without gaps.
#[tactic(auto, unfolding(crate::specs::Segments::tables_of))]
fn table_places(sizes: &Sizes) -> Tables
    requires { AreSmall sizes.now }
    ensures { result ≡ tables_of sizes.now }
{
    let hash_words = 2 + (sizes.symbols / 2).max(1) + sizes.symbols;
    let relas_at = HEADERS_END + 24 * sizes.symbols;
    let cap_relocs_at = relas_at + 24 * sizes.relas;
    let hash_at = cap_relocs_at + 40 * sizes.cap_relocs;
    let names_at = hash_at + 4 * hash_words;
    Tables {
        symbols_at: HEADERS_END,
        relas_at,
        cap_relocs_at,
        hash_at,
        names_at,
        names_end: names_at + sizes.names,
    }
}

// The ends of the headers, the tables and the names.
#[tactic(auto, unfolding(crate::specs::Segments::with_tables))]
fn place_tables(running: &mut Running, tables: &Tables) -> Result<(), Refusal>
    ensures { Yields (λ _. running.new) result (with_tables tables.now running.old) }
{
    running.reach(tables.symbols_at)?;
    running.reach(tables.relas_at)?;
    running.reach(tables.cap_relocs_at)?;
    running.reach(tables.hash_at)?;
    running.reach(tables.names_at)?;
    running.reach(tables.names_end)
}

// The tables, the names, and data that is read alone.
#[tactic(auto, unfolding(crate::specs::Segments::with_read_only))]
fn place_read_only(
    running: &mut Running,
    pieces: &ByClass<'_>,
    sizes: &Sizes,
) -> Result<ReadOnly, Refusal>
    requires small { AreSmall sizes.now }
    requires sound { All IsPiece pieces.now }
    ensures { Yields (λ part. (running.new, part)) result (with_read_only pieces.now sizes.now running.old) }
{
    let tables = table_places(sizes);
    place_tables(running, &tables)?;
    running.put_of(Class::Ro, pieces)?;
    Ok(ReadOnly {
        tables,
        end: running.end(),
    })
}

// The stubs, and instructions.
#[tactic(auto, unfolding(crate::specs::Segments::with_code))]
fn place_code(
    running: &mut Running,
    pieces: &ByClass<'_>,
    sizes: &Sizes,
) -> Result<CodePart, Refusal>
    requires small { AreSmall sizes.now }
    requires sound { All IsPiece pieces.now }
    ensures { Yields (λ part. (running.new, part)) result (with_code pieces.now sizes.now running.old) }
{
    let start = running.end().next_multiple_of(PAGE);
    running.reach(start + 16 * sizes.stubs)?;
    running.put_of(Class::Code, pieces)?;
    Ok(CodePart {
        start,
        end: running.end(),
    })
}

fn is_among(class: Class, pieces: &[Piece]) -> bool
    ensures { result ≡ has_class_in class pieces.now }
{
    pieces.iter().any(|piece| piece.class == class)
}

fn are_bytes_among(class: Class, pieces: &[Piece]) -> bool
    ensures { result ≡ has_class_bytes class pieces.now }
{
    pieces
        .iter()
        .any(|piece| piece.class == class && piece.size != 0)
}

#[tactic(auto, using(crate::proofs::PlaceClasses::has_alone))]
fn has_class(class: Class, pieces: &ByClass<'_>) -> bool
    ensures { result ≡ has_class_in class pieces.now }
{
    is_among(class, pieces.of(class))
}

#[tactic(auto, using(crate::proofs::PlaceClasses::bytes_alone))]
fn has_bytes(class: Class, pieces: &ByClass<'_>) -> bool
    ensures { result ≡ has_class_bytes class pieces.now }
{
    are_bytes_among(class, pieces.of(class))
}

// An array of calls begins at a multiple of 16, and the pieces after it follow it only if it has any.
fn begin_array(running: &mut Running, class: Class, pieces: &ByClass<'_>)
    ensures { running.new ≡ array_first class pieces.now running.old }
{
    if has_class(class, pieces) {
        running.align();
    }
}

// How many bytes an array has, from the multiple of 16 on.
#[tactic(auto, using(crate::proofs::PlaceClasses::has_class_from_bytes))]
fn array_size(class: Class, pieces: &ByClass<'_>, start: u64, end: u64) -> u64
    requires { has_class_in class pieces.now ≡ true → start ≤ end }
    ensures { result ≡ (if has_class_bytes class pieces.now then end - start else 0) }
{
    if has_bytes(class, pieces) {
        end - start
    } else {
        0
    }
}

// An array of initial or of final calls.
#[tactic(auto, unfolding(crate::specs::Segments::with_array))]
fn place_array(
    running: &mut Running,
    class: Class,
    pieces: &ByClass<'_>,
) -> Result<CallArray, Refusal>
    requires { All IsPiece pieces.now }
    ensures { Yields (λ array. (running.new, array)) result (with_array class pieces.now running.old) }
{
    let at = running.end().next_multiple_of(16);
    begin_array(running, class, pieces);
    running.put_of(class, pieces)?;
    let size = array_size(class, pieces, at, running.end());
    Ok(CallArray { at, size })
}

// The dynamic section, the slots, the arrays, and data that is read alone once it is relocated. What stands up to here is
// the range of code, whose length is representable.
#[tactic(auto, unfolding(crate::specs::Segments::with_relocated))]
fn place_relocated(
    running: &mut Running,
    pieces: &ByClass<'_>,
    sizes: &Sizes,
) -> Result<Relocated, Refusal>
    requires small { AreSmall sizes.now }
    requires sound { All IsPiece pieces.now }
    ensures value { Yields (λ part. (running.new, part)) result (with_relocated pieces.now sizes.now running.old) }
    ensures low { IfOk result (λ part. part.end ≤ 2 ^ 26) }
{
    let start = running.end().next_multiple_of(PAGE);
    let slots_at = start + 16 * sizes.dynamics;
    running.reach(slots_at)?;
    running.reach(slots_at + 16 * sizes.slots)?;
    let init = place_array(running, Class::Init, pieces)?;
    let fini = place_array(running, Class::Fini, pieces)?;
    running.put_of(Class::Relro, pieces)?;
    running.reach(repr_len(running.end().next_multiple_of(PAGE)))?;
    Ok(Relocated {
        start,
        slots_at,
        init,
        fini,
        end: running.end(),
    })
}

// Data that may be written; that of zeros alone has no bytes in the file.
#[tactic(auto, unfolding(crate::specs::Segments::with_writable))]
fn place_writable(running: &mut Running, pieces: &ByClass<'_>) -> Result<Writable, Refusal>
    requires { All IsPiece pieces.now }
    ensures { Yields (λ part. (running.new, part)) result (with_writable pieces.now running.old) }
{
    running.put_of(Class::Data, pieces)?;
    let file_end = running.end();
    running.put_of(Class::Bss, pieces)?;
    Ok(Writable {
        file_end,
        mem_end: running.end(),
    })
}

// The largest alignment of pieces and a page.
#[tactic(auto, using(crate::proofs::PlaceAlignment::largest_none, crate::proofs::PlaceAlignment::largest_more, crate::proofs::PlaceAlignment::largest_done))]
fn largest(pieces: &[Piece]) -> u64
    ensures { result ≡ largest_of pieces.now }
{
    let mut largest = PAGE;
    for piece in pieces {
        largest = largest.max(piece.align);
    }
    largest
}

// The alignment of the file: also that at which a range of code up to this end is exact.
#[tactic(auto, using(crate::proofs::PlaceAlignment::largest_whole))]
fn alignment(pieces: &[Piece], end: u64) -> u64
    requires { end ≤ 2 ^ 26 }
    ensures { result ≡ whole_alignment pieces.now end }
{
    largest(pieces).max(repr_align(end))
}

// The parts of the file, by its segments.
#[tactic(auto, unfolding(crate::specs::Segments::parts_from))]
fn parts(
    pieces: &[Piece],
    read_only: &ReadOnly,
    code: &CodePart,
    relocated: &Relocated,
    writable: &Writable,
) -> Parts
    requires { relocated.now.end ≤ 2 ^ 26 }
    ensures { result ≡ parts_from pieces.now read_only.now code.now relocated.now writable.now }
{
    let tables = &read_only.tables;
    Parts {
        ro_end: read_only.end,
        code_start: code.start,
        code_end: code.end,
        table_start: relocated.start,
        table_end: relocated.end,
        data_start: relocated.end,
        file_end: writable.file_end,
        mem_end: writable.mem_end,
        symbols_at: tables.symbols_at,
        relas_at: tables.relas_at,
        cap_relocs_at: tables.cap_relocs_at,
        hash_at: tables.hash_at,
        names_at: tables.names_at,
        stubs_at: code.start,
        dynamic_at: relocated.start,
        slots_at: relocated.slots_at,
        init_at: relocated.init.at,
        init_size: relocated.init.size,
        fini_at: relocated.fini.at,
        fini_size: relocated.fini.size,
        align: alignment(pieces, relocated.end),
    }
}

// One segment after another, from 0 on.
#[tactic(auto, unfolding(crate::specs::Segments::with_all))]
fn walk_classes(
    alloc: Global,
    pieces: &ByClass<'_>,
    sizes: &Sizes,
) -> Result<(Running, Parts), Refusal>
    requires small { AreSmall sizes.now }
    requires sound { All IsPiece pieces.now }
    ensures { Yields (λ placed. placed) result (with_all pieces.now sizes.now) }
{
    let mut running = Running::new(alloc);
    let read_only = place_read_only(&mut running, pieces, sizes)?;
    let code = place_code(&mut running, pieces, sizes)?;
    let relocated = place_relocated(&mut running, pieces, sizes)?;
    let writable = place_writable(&mut running, pieces)?;
    let parts = parts(pieces.all(), &read_only, &code, &relocated, &writable);
    Ok((running, parts))
}

// The same, once it is known where the pieces of each class stand.
fn walk(alloc: Global, pieces: &[Piece], sizes: &Sizes) -> Result<(Running, Parts), Refusal>
    requires small { AreSmall sizes.now }
    requires sound { All IsPiece pieces.now }
    ensures { Yields (λ placed. placed) result (with_all pieces.now sizes.now) }
{
    let by_class = ByClass::new(alloc, pieces)?;
    walk_classes(alloc, &by_class, sizes)
}

/// Places all segments: the addresses of the pieces in order of their classes, and where each part stands.
pub(crate) fn place_all(
    alloc: Global,
    pieces: &[Piece],
    sizes: &Sizes,
) -> Result<(Running, Parts), Refusal>
    requires small { AreSmall sizes.now }
    requires sound { All IsPiece pieces.now }
    ensures ends { Yields (λ _. tt) result (each ends_low (padded_ends pieces.now sizes.now)) }
    ensures places { IfOk result (λ placed. placed ≡ all_places pieces.now sizes.now) }
{
    walk(alloc, pieces, sizes)
}
