//! The pieces of a class, each appended to the file at its address.

ghost use Rattle.std.specs.Prelude.{◌≡◌, ◌<◌, length, OnOk};
ghost use Rattle.cap_layout.specs.IsPiece.{IsLaid};
ghost use Rattle.cap_layout.specs.ByClass.{IsSpanOf};
ghost use Rattle.cap_emit.specs.Written.{padded, piece_chunk, class_chunks, with_chunks};

use crate::tables::pad_to;
use cap_base::NoMemory;
use cap_elf::Class;
use cap_layout::{ByClass, Layout};
use cap_table::Bodies;

/// Appends a piece at its address, if it is of a class.
#[tactic(auto, unfolding(crate::specs::Written::piece_chunk))]
fn push_piece(
    file: &mut Vec<u8>,
    layout: &Layout<'_>,
    bodies: &Bodies,
    class: Class,
    piece: u32,
) -> Result<(), NoMemory>
    requires piece { piece < length layout.now.pieces.all }
    requires count { length bodies.now.pieces ≡ length layout.now.pieces.all }
    ensures written { OnOk result (file.new.items ≡ with_chunks file.old.items (piece_chunk layout.now bodies.now class piece)) }
    ensures laid { IsLaid layout.now }
{
    let address = layout.address(piece);
    if layout.pieces().get(piece).class == class {
        pad_to(file, address)?;
        file.extend_from_slice(bodies.bytes(piece))?;
    }
    Ok(())
}

/// Between which numbers the pieces of a class stand.
fn span(layout: &Layout<'_>, by_class: &ByClass<'_>, class: Class) -> (u32, u32)
    requires { by_class.now ≡ layout.now.pieces.all }
    ensures { IsSpanOf layout.now.pieces.all class result.0 result.1 }
{
    let count = layout.pieces().len();
    let (first, end) = by_class.span(class);
    (first as u32, end as u32)
}

/// Appends the pieces of a class, each at its address.
pub(crate) fn push_pieces(
    file: &mut Vec<u8>,
    layout: &Layout<'_>,
    bodies: &Bodies,
    by_class: &ByClass<'_>,
    class: Class,
) -> Result<(), NoMemory>
    requires count { length bodies.now.pieces ≡ length layout.now.pieces.all }
    requires pieces { by_class.now ≡ layout.now.pieces.all }
    ensures { OnOk result (file.new.items ≡ with_chunks file.old.items (class_chunks layout.now bodies.now class)) }
{
    let (first, end) = span(layout, by_class, class);
    for piece in first..end {
        push_piece(file, layout, bodies, class, piece)?;
    }
    Ok(())
}
