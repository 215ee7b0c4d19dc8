//! The pieces of common symbols.

ghost use Rattle.std.specs.Prelude.{◌≡◌, ◌++◌, ◌^◌, ◌≤◌, Some, None, true, false, if◌then◌else◌, IfOk, OnOk, All, length, map};
ghost use Rattle.std.specs.Option.{option_to_list};
ghost use Rattle.cap_syms.specs.Decisions.{is_merged};
ghost use Rattle.cap_layout.specs.Pieces.{common_piece as common_piece_of, common_pieces, entry_piece};
ghost use Rattle.cap_layout.specs.Commons.{IsSmall, AreApart};

use crate::listed::Listed;
use crate::making::common_piece;
use cap_base::NoMemory;
use cap_syms::{Entry, Shape, Table};
use std::alloc::Global;

/// Adds the piece of a name that is common, and gives its number.
fn add_common(all: &mut Listed, entry: Entry) -> Result<Option<u32>, NoMemory>
    requires { IsSmall entry.shape }
    ensures all { OnOk result (all.new ≡ all.old ++ option_to_list (common_piece_of entry entry.shape)) }
    ensures number { IfOk result (λ number. number ≡ (if is_merged entry.shape then Some (length all.old) else None)) }
{
    match entry.shape {
        Shape::Common { size, align } => {
            let number = all.len();
            all.push(common_piece(entry, size, align))?;
            Ok(Some(number))
        }
        Shape::Defined | Shape::Absent { .. } => Ok(None),
    }
}

/// Adds the pieces of all common names in the order of the table, and gives the number of each.
pub(crate) fn add_commons(
    alloc: Global,
    all: &mut Listed,
    table: &Table<'_>,
) -> Result<Vec<Option<u32>>, NoMemory>
    requires small { All (λ r. IsSmall r.entry.shape) table.now }
    requires apart { AreApart table.now }
    requires sections { All (λ p. p.common ≡ false) all.old }
    ensures all { OnOk result (all.new ≡ all.old ++ common_pieces table.now) }
    ensures commons { IfOk result (λ commons. commons.items ≡ map (λ r. entry_piece (all.old ++ common_pieces table.now) r.entry r.entry.shape) table.now) }
{
    let mut commons = Vec::new(alloc);
    for row in 0..table.len() {
        commons.push(add_common(all, table.entry(row))?)?;
    }
    Ok(commons)
}
