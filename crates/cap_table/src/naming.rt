//! The symbols of the linked file, and how many bytes its names have.

ghost use Rattle.std.specs.Prelude.{◌≡◌, ◌+◌, ◌&&◌, ◌==◌, not, ◌^◌, ◌*◌, ◌<◌, ◌≤◌, All, map, length, IfOk};
ghost use Rattle.cap_layout.specs.Places.{of_class};
ghost use Rattle.cap_layout.specs.Parts.{has_bytes as has_bytes_of};
ghost use Rattle.cap_layout.specs.IsPiece.{IsPiece};
ghost use Rattle.cap_elf.specs.Classes.{same_class};
ghost use Rattle.cap_syms.specs.Resolved.{row_of};
ghost use Rattle.cap_syms.specs.Decisions.{is_present as is_present_of};
ghost use Rattle.cap_table.specs.Targets.{is_left_to_load as is_left_to_load_of};
ghost use Rattle.cap_table.specs.Planned.{is_exported as is_exported_of, exported as exported_of, symbol_names, terminated};

use cap_base::{Name, NameList, NoMemory};
use cap_elf::Class;
use cap_layout::{Piece, Pieces};
use cap_syms::{Bound, Shape, Table};
use std::alloc::Global;

/// STV_DEFAULT and STV_PROTECTED.
const DEFAULT: u8 = 0;

const PROTECTED: u8 = 3;

fn is_present(shape: Shape) -> bool
    ensures { result ≡ is_present_of shape }
{
    match shape {
        Shape::Absent { weak: _ } => false,
        Shape::Defined | Shape::Common { size: _, align: _ } => true,
    }
}

fn is_left_to_load(bound: Bound) -> bool
    ensures { result ≡ is_left_to_load_of bound }
{
    matches!(bound, Bound::Dynamic)
}

// Whether the name of a row is a symbol of the linked file.
fn is_exported(table: &Table<'_>, row: u32) -> bool
    requires { row < length table.now }
    ensures { result ≡ is_exported_of (row_of table.now row) }
{
    let entry = table.entry(row);
    if is_present(entry.shape) {
        entry.visibility == DEFAULT || entry.visibility == PROTECTED
    } else {
        is_left_to_load(table.bound(row))
    }
}

/// The rows of the names that are symbols of the linked file, in order.
#[tactic(auto, using(crate::proofs::PlanNames::exported_more, crate::proofs::PlanNames::exported_skip, crate::proofs::PlanNames::exported_all))]
pub(crate) fn exported(alloc: Global, table: &Table<'_>) -> Result<Vec<u32>, NoMemory>
    ensures value { IfOk result (λ rows. rows.items ≡ exported_of table.now) }
    ensures below { IfOk result (λ rows. All (λ row. row < length table.now) rows.items) }
{
    let mut rows = Vec::new(alloc);
    for row in 0..table.len() {
        if is_exported(table, row) {
            rows.push(row)?;
        }
    }
    Ok(rows)
}

fn name_size(table: &Table<'_>, row: u32) -> u64
    requires below { row < length table.now }
    requires short { length (row_of table.now row).name ≤ 255 }
    ensures value { result ≡ length (row_of table.now row).name + 1 }
    ensures small { result ≤ 256 }
{
    table.name(row).len() as u64 + 1
}

/// How many bytes the names of these rows have, each with a zero byte behind it.
#[tactic(auto, using(crate::proofs::PlanNames::names_more, crate::proofs::PlanNames::names_all))]
pub(crate) fn names_size(table: &Table<'_>, rows: &[u32]) -> u64
    requires few { length rows.now ≤ 2 ^ 20 }
    requires below { All (λ row. row < length table.now) rows.now }
    requires short { All (λ row. length (row_of table.now row).name ≤ 255) rows.now }
    ensures value { result ≡ length (terminated (symbol_names table.now rows.now)) }
    ensures small { result ≤ 256 * length rows.now }
{
    let mut size = 0;
    for row in rows {
        size += name_size(table, *row);
    }
    size
}

/// The names of the shared objects that are needed.
#[tactic(auto, using(crate::proofs::PlanNames::needed_more, crate::proofs::PlanNames::needed_all))]
pub(crate) fn needed_names(alloc: Global, needed: &NameList) -> Result<Vec<Name>, NoMemory>
    ensures { IfOk result (λ names. names.items ≡ map (λ n. n.0) needed.now) }
{
    let mut names = Vec::with_capacity(alloc, needed.len())?;
    for i in 0..needed.len() {
        names.push(Name::of(alloc, needed.name(i))?)?;
    }
    Ok(names)
}

/// How many bytes these names have, each with a zero byte behind it.
#[tactic(auto, using(crate::proofs::PlanNames::texts_more, crate::proofs::PlanNames::texts_all))]
pub(crate) fn texts_size(names: &[Name]) -> u64
    requires few { length names.now ≤ 256 }
    requires short { All (λ n. length n ≤ 255) names.now }
    ensures value { result ≡ length (terminated names.now) }
    ensures small { result ≤ 256 * length names.now }
{
    let mut size = 0;
    for name in names {
        size += name.bytes().len() as u64 + 1;
    }
    size
}

fn is_of(class: Class, other: Class) -> bool
    ensures { result ≡ same_class class other }
{
    class == other
}

fn counts(piece: &Piece, class: Class) -> bool
    ensures { result ≡ (same_class piece.now.class class && not (piece.now.size == 0)) }
{
    is_of(piece.class, class) && piece.size != 0
}

#[tactic(auto, using(crate::proofs::PlanArrays::bytes_hit, crate::proofs::PlanArrays::bytes_skip, crate::proofs::PlanArrays::bytes_none))]
fn any_bytes(pieces: &[Piece], class: Class) -> bool
    ensures { result ≡ has_bytes_of (of_class class pieces.now) }
{
    for piece in pieces {
        if counts(piece, class) {
            return true;
        }
    }
    false
}

/// Whether a piece of the class has bytes.
pub(crate) fn has_bytes(pieces: &Pieces, class: Class) -> bool
    ensures value { result ≡ has_bytes_of (of_class class pieces.now.all) }
    ensures sound { All IsPiece pieces.now.all }
{
    any_bytes(pieces.all(), class)
}
