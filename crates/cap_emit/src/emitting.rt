//! Writing the linked file.
//!
//! One buffer is made as large as the file, and written from front to back, segment by segment: each part behind zeros
//! up to its address.

ghost use Rattle.std.specs.Prelude.{◌≡◌, ◌+◌, ◌*◌, ◌^◌, ◌<◌, ◌≤◌, length, IfOk, OnOk};
ghost use Rattle.cap_emit.specs.File.{emit_of, AreFitting};
ghost use Rattle.cap_emit.specs.Written.{padded, with_chunks, with_tables, with_code, with_once_written};

use crate::pieces::push_pieces;
use crate::records::push_file_header;
use crate::tables::{
    pad_to, push_cap_relocs, push_dynamics, push_hash, push_relas, push_segments, push_symbols,
};
use cap_base::NoMemory;
use cap_elf::Class;
use cap_layout::{ByClass, Layout, Parts};
use cap_table::{Bodies, CapTable};
use std::alloc::Global;

/// Where the headers of the segments stand.
const SEGMENTS_AT: u64 = 64;

/// Appends the headers of the segments, and the tables of the first one.
#[tactic(auto, unfolding(crate::specs::Written::with_tables))]
fn push_tables(
    alloc: Global,
    file: &mut Vec<u8>,
    at: &Parts,
    lists: &CapTable<'_>,
) -> Result<(), NoMemory>
    requires some { 1 ≤ length lists.now.symbols }
    requires few { length lists.now.symbols ≤ 2 ^ 20 }
    requires dynamics { at.now.dynamic_at + 16 * length lists.now.dynamics < 2 ^ 64 }
    ensures { OnOk result (file.new.items ≡ with_tables file.old.items at.now lists.now) }
{
    pad_to(file, SEGMENTS_AT)?;
    push_segments(file, at, lists.dynamics().len())?;
    pad_to(file, at.symbols_at)?;
    push_symbols(file, lists)?;
    pad_to(file, at.relas_at)?;
    push_relas(file, lists)?;
    pad_to(file, at.cap_relocs_at)?;
    push_cap_relocs(file, lists)?;
    pad_to(file, at.hash_at)?;
    push_hash(alloc, file, lists)?;
    pad_to(file, at.names_at)?;
    file.extend_from_slice(lists.names())?;
    Ok(())
}

/// Appends the stubs and the pieces of code.
fn push_code(
    file: &mut Vec<u8>,
    layout: &Layout<'_>,
    bodies: &Bodies,
    by_class: &ByClass<'_>,
) -> Result<(), NoMemory>
    requires pieces { by_class.now ≡ layout.now.pieces.all }
    requires count { length bodies.now.pieces ≡ length layout.now.pieces.all }
    ensures { OnOk result (file.new.items ≡ with_code file.old.items layout.now bodies.now) }
{
    pad_to(file, layout.parts().stubs_at)?;
    file.extend_from_slice(bodies.stubs())?;
    push_pieces(file, layout, bodies, by_class, Class::Code)?;
    Ok(())
}

/// Appends what is read-only once it is relocated: the dynamic table, the slots of the capability table, and the pieces.
fn push_once_written(
    file: &mut Vec<u8>,
    layout: &Layout<'_>,
    lists: &CapTable<'_>,
    bodies: &Bodies,
    by_class: &ByClass<'_>,
) -> Result<(), NoMemory>
    requires pieces { by_class.now ≡ layout.now.pieces.all }
    requires count { length bodies.now.pieces ≡ length layout.now.pieces.all }
    ensures { OnOk result (file.new.items ≡ with_once_written file.old.items layout.now lists.now bodies.now) }
{
    let at = layout.parts();
    pad_to(file, at.dynamic_at)?;
    push_dynamics(file, lists)?;
    pad_to(file, at.slots_at)?;
    file.extend_from_slice(bodies.slots())?;
    push_pieces(file, layout, bodies, by_class, Class::Init)?;
    push_pieces(file, layout, bodies, by_class, Class::Fini)?;
    push_pieces(file, layout, bodies, by_class, Class::Relro)?;
    Ok(())
}

/// The bytes of the linked file: an ELF file (ET_DYN) with six program headers and no section headers. Each part stands
/// at the file offset that is its address, with zeros between; the file ends with the last piece of data that has bytes.
///
/// The parts follow one another (`emit_laws`), each piece of the layout has its bytes, and there are from 1 to 2^20
/// symbols, the null symbol too. `flags` and `entry` are those of the ELF header (e_flags, e_entry). `NoMemory` comes where the machine refuses memory
/// for the file or for its hash table.
#[tactic(auto, using(crate::proofs::Emitted::emitted, crate::proofs::Emitted::dynamics_fit))]
pub fn emit(
    alloc: Global,
    layout: &Layout<'_>,
    lists: &CapTable<'_>,
    bodies: &Bodies,
    flags: u32,
    entry: u64,
) -> Result<Vec<u8>, NoMemory>
    requires fitting { AreFitting layout.now lists.now bodies.now }
    requires count { length bodies.now.pieces ≡ length layout.now.pieces.all }
    requires some { 1 ≤ length lists.now.symbols }
    requires few { length lists.now.symbols ≤ 2 ^ 20 }
    ensures { IfOk result (λ file. file.items ≡ emit_of layout.now lists.now bodies.now flags entry) }
{
    let at = layout.parts();
    let by_class = ByClass::new(alloc, layout.pieces().all())?;
    let mut file = Vec::with_capacity(alloc, at.file_end as usize)?;
    push_file_header(&mut file, flags, entry)?;
    push_tables(alloc, &mut file, &at, lists)?;
    push_pieces(&mut file, layout, bodies, &by_class, Class::Ro)?;
    push_code(&mut file, layout, bodies, &by_class)?;
    push_once_written(&mut file, layout, lists, bodies, &by_class)?;
    pad_to(&mut file, at.table_end)?;
    push_pieces(&mut file, layout, bodies, &by_class, Class::Data)?;
    Ok(file)
}
