//! The bytes of pieces, stubs and slots.

ghost use Rattle.std.specs.Prelude.{◌≡◌, ◌++◌, ◌+◌, ◌-◌, ◌*◌, ◌^◌, ◌<◌, ◌≤◌, [], ◌∷◌, All, IfOk, OnOk, IsTrue, true, replicate, fold, filter, map, length};
ghost use Rattle.std.specs.List.{flat_map};
ghost use Rattle.cap_elf.specs.Classes.{is_bss as is_bss_of};
ghost use Rattle.cap_layout.specs.IsPiece.{IsPiece, IsPieceOf};
ghost use Rattle.cap_table.specs.Kinds.{is_slot, width_of};
ghost use Rattle.cap_table.specs.Checks.{reloc_of};
ghost use Rattle.cap_layout.specs.Pieces.{piece_of};
ghost use Rattle.cap_table.specs.Planned.{is_field, fields_of};
ghost use Rattle.cap_table.specs.Lists.{AreListsOf};
ghost use Rattle.cap_table.specs.Bodies.{plain_of, AreLong, held as held_of, put as put_bytes, put_in as put_bytes_in, piece_bytes, offset_in_piece, slot_held, source_bytes, with_held, body_length};
ghost use Rattle.cap_table.specs.Facts.{IsStepOf, ArePlanned, HasSource, first_held};

use crate::filling::CapTable;
use crate::meaning::{fixed_value, is_fixed};
use crate::planned::Plan;
use crate::sources::Sources;
use crate::target::{Step, Target};
use crate::wants::{CAPABILITY, is_field_kind, reloc_at};
use cap_base::NoMemory;
use cap_elf::{Class, RelFile, Reloc};
use cap_layout::{Layout, Piece};
use smallvec::SmallVec;
use std::alloc::Global;
use std::marker::Model;

/// The bytes of a piece. Most pieces are a word or a capability, and take no allocation of their own.
#[derive(Drop)]
struct Body {
    bytes: SmallVec<u8, 16>,
}

impl Model for Body {
    ghost use Rattle.std.specs.Prelude.{List, ℕ};

    ghost Value = { List ℕ };

    ghost view = { λ b. b.bytes.items };
}

impl Body {
    ghost use Rattle.std.specs.Prelude.{◌≡◌, ◌+◌, ◌≤◌, length};
    ghost use Rattle.cap_table.specs.Bodies.{put};

    fn bytes(&self) -> &[u8]
        ensures { result.now ≡ self.now }
    {
        self.bytes.as_slice()
    }

    /// Replaces bytes from a place on.
    fn put(&mut self, at: usize, with: &[u8])
        requires { at + length with.now ≤ length self.old }
        ensures { self.new ≡ put self.old at with.now }
    {
        replace(self.bytes.as_mut_slice(), at, with);
    }
}

/// The bytes that the linked file has of every piece, of the stubs and of the slots of the capability table.
#[derive(Drop)]
pub struct Bodies {
    pieces: Vec<Body>,
    stubs: Vec<u8>,
    slots: Vec<u8>,
}

impl Model for Bodies {
    ghost use Rattle.cap_table.specs.Bodies.{BodiesValue};

    ghost Value = { BodiesValue };

    ghost view = { λ b. record { pieces = b.pieces.items; stubs = b.stubs.items; slots = b.slots.items } };
}

/// The bytes before code is relocated: those of the sections, with fixed values in relocated fields, and zeros between.
///
/// `NoMemory` comes where the machine refuses memory.
pub fn plain(
    alloc: Global,
    sources: &Sources<'_>,
    layout: &Layout<'_>,
    lists: &CapTable<'_>,
) -> Result<Bodies, NoMemory>
    requires lists { AreListsOf sources.now layout.now lists.now }
    ensures value { IfOk result (λ bodies. bodies ≡ plain_of sources.now lists.now.plan layout.now.pieces.all) }
    ensures long { IfOk result (AreLong layout.now.pieces.all lists.now.plan) }
{
    plain_planned(alloc, lists.plan(), sources, layout)
}

/// The bytes of a plan that fits the layout.
#[tactic(auto, unfolding(crate::specs::Bodies::plain_of))]
fn plain_planned(
    alloc: Global,
    plan: &Plan,
    sources: &Sources<'_>,
    layout: &Layout<'_>,
) -> Result<Bodies, NoMemory>
    requires { ArePlanned sources.now layout.now plan.now }
    ensures value { IfOk result (λ bodies. bodies ≡ plain_of sources.now plan.now layout.now.pieces.all) }
    ensures long { IfOk result (AreLong layout.now.pieces.all plan.now) }
{
    let mut pieces = sections(alloc, sources.rels(), layout.pieces().all())?;
    hold_fields(alloc, &mut pieces, plan, sources, layout)?;
    Ok(Bodies {
        pieces,
        stubs: zeros(alloc, 16 * plan.stubs().len())?,
        slots: slots(alloc, plan.slots())?,
    })
}

/// The bytes of the pieces in their sections.
fn sections(alloc: Global, rels: &[RelFile], pieces: &[Piece]) -> Result<Vec<Body>, NoMemory>
    requires of_inputs { All (IsPieceOf rels.now) pieces.now }
    requires sound { All IsPiece pieces.now }
    ensures value { IfOk result (λ bodies. bodies.items ≡ map (source_bytes rels.now) pieces.now) }
    ensures long { IfOk result (λ bodies. map length bodies.items ≡ map body_length pieces.now) }
{
    let mut bodies = Vec::with_capacity(alloc, pieces.len())?;
    for piece in pieces {
        bodies.push(section(alloc, rels, piece)?)?;
    }
    Ok(bodies)
}

/// The bytes of a piece in its section; none where it has none in the file.
fn section(alloc: Global, rels: &[RelFile], piece: &Piece) -> Result<Body, NoMemory>
    requires of_inputs { IsPieceOf rels.now piece.now }
    requires sound { IsPiece piece.now }
    ensures value { IfOk result (λ body. body ≡ source_bytes rels.now piece.now) }
    ensures long { IfOk result (λ body. length body ≡ body_length piece.now) }
{
    if is_bss(piece.class) {
        Ok(Body {
            bytes: SmallVec::new(alloc),
        })
    } else {
        section_part(alloc, rels, piece)
    }
}

/// Whether a class has no bytes in the file.
fn is_bss(class: Class) -> bool
    ensures { result ≡ is_bss_of class }
{
    matches!(class, Class::Bss)
}

/// The bytes of a piece in its section, and zeros up to its padded size.
fn section_part(alloc: Global, rels: &[RelFile], piece: &Piece) -> Result<Body, NoMemory>
    requires { HasSource rels.now piece.now }
    ensures value { IfOk result (λ body. body ≡ source_bytes rels.now piece.now) }
    ensures long { IfOk result (λ body. length body ≡ body_length piece.now) }
{
    let start = piece.start as usize;
    let end = start + piece.size as usize;
    let content = rels[piece.file as usize].content(piece.place);
    let mut bytes = SmallVec::with_capacity(alloc, piece.padded as usize)?;
    bytes.extend_from_slice(&content[start..end])?;
    pad(&mut bytes, (piece.padded - piece.size) as usize)?;
    Ok(Body { bytes })
}

/// Appends so many zeros.
#[tactic(auto, using(crate::proofs::BodyRoom::padded_by))]
fn pad(bytes: &mut SmallVec<u8, 16>, count: usize) -> Result<(), NoMemory>
    requires { length bytes.old.items + count < 2 ^ 64 }
    ensures { OnOk result (bytes.new.items ≡ bytes.old.items ++ replicate count 0) }
{
    bytes.resize(bytes.len() + count, 0)?;
    Ok(())
}

/// So many zeros.
fn zeros(alloc: Global, count: usize) -> Result<Vec<u8>, NoMemory>
    ensures { IfOk result (λ bytes. bytes.items ≡ replicate count 0) }
{
    Ok(vec![in alloc; 0; count]?)
}

/// The bytes of the slots.
fn slots(alloc: Global, targets: &[Target]) -> Result<Vec<u8>, NoMemory>
    ensures { IfOk result (λ bytes. bytes.items ≡ flat_map slot_held targets.now) }
{
    let mut bytes = Vec::with_capacity(alloc, 16 * targets.len())?;
    for target in targets {
        push_held(&mut bytes, CAPABILITY, target, 0)?;
    }
    Ok(bytes)
}

/// Writes what each relocated field holds.
fn hold_fields(
    alloc: Global,
    bodies: &mut Vec<Body>,
    plan: &Plan,
    sources: &Sources<'_>,
    layout: &Layout<'_>,
) -> Result<(), NoMemory>
    requires rels { layout.now.rels ≡ sources.now.rels }
    requires steps { All (IsStepOf sources.now layout.now.pieces.all) plan.now.steps }
    requires long { map length bodies.old.items ≡ map body_length layout.now.pieces.all }
    ensures value { OnOk result (bodies.new.items ≡ fold (with_held sources.now layout.now.pieces.all) bodies.old.items (fields_of sources.now plan.now.steps)) }
    ensures long { OnOk result (map length bodies.new.items ≡ map body_length layout.now.pieces.all) }
{
    let mut held = Vec::new(alloc);
    for step in plan.steps() {
        hold_field(bodies, &mut held, sources, layout, step)?;
    }
    Ok(())
}

/// Writes what the field of a step holds, where it is relocated when the file is loaded, or holds a fixed value.
fn hold_field(
    bodies: &mut Vec<Body>,
    held: &mut Vec<u8>,
    sources: &Sources<'_>,
    layout: &Layout<'_>,
    step: &Step,
) -> Result<(), NoMemory>
    requires rels { layout.now.rels ≡ sources.now.rels }
    requires step { IsStepOf sources.now layout.now.pieces.all step.now }
    requires long { map length bodies.old.items ≡ map body_length layout.now.pieces.all }
    ensures value { OnOk result (bodies.new.items ≡ fold (with_held sources.now layout.now.pieces.all) bodies.old.items (filter (is_field sources.now) (step.now ∷ []))) }
    ensures long { OnOk result (map length bodies.new.items ≡ map body_length layout.now.pieces.all) }
{
    let reloc = reloc_at(sources, layout, step);
    if is_field_kind(reloc.kind) {
        let target = sources.target_ref(step.file, reloc.symbol);
        let offset = field_offset(sources, layout, step, &reloc);
        held.clear();
        push_held(held, reloc.kind, target, reloc.addend)?;
        put_in(bodies, step.piece, offset as usize, held);
    }
    Ok(())
}

/// Where the field of a step begins in its piece.
fn field_offset(sources: &Sources<'_>, layout: &Layout<'_>, step: &Step, reloc: &Reloc) -> u64
    requires rels { layout.now.rels ≡ sources.now.rels }
    requires step { IsStepOf sources.now layout.now.pieces.all step.now }
    requires reloc { reloc.now ≡ reloc_of sources.now.rels step.now }
    requires slot { is_slot reloc.now.kind ≡ true }
    ensures value { result ≡ offset_in_piece sources.now.rels layout.now.pieces.all step.now }
    ensures room { result + width_of reloc.now.kind ≤ body_length (piece_of layout.now.pieces.all step.now.piece) }
{
    let pieces = layout.pieces();
    let piece = pieces.get(step.piece);
    reloc.offset - piece.start
}

/// Replaces bytes of a piece.
fn put_in(bodies: &mut Vec<Body>, piece: u32, at: usize, with: &[u8])
    requires piece { piece < length bodies.old.items }
    requires inside { at + length with.now ≤ length (piece_bytes bodies.old.items piece) }
    ensures { bodies.new.items ≡ put_bytes_in bodies.old.items piece at with.now }
{
    bodies[piece as usize].put(at, with);
}

/// Appends what a relocated field holds in the file: a fixed value, and else zeros.
#[tactic(auto, using(crate::proofs::BodyHeld::held_capability, crate::proofs::BodyHeld::held_word))]
fn push_held(bytes: &mut Vec<u8>, kind: u32, target: &Target, addend: i64) -> Result<(), NoMemory>
    requires { IsTrue (is_slot kind) }
    ensures { OnOk result (bytes.new.items ≡ bytes.old.items ++ held_of kind target.now addend) }
{
    bytes.extend_from_slice(&first_bytes(target, addend))?;
    if kind == CAPABILITY {
        push_eight_zeros(bytes)?;
    }
    Ok(())
}

fn push_eight_zeros(bytes: &mut Vec<u8>) -> Result<(), NoMemory>
    ensures { OnOk result (bytes.new.items ≡ bytes.old.items ++ replicate 8 0) }
{
    bytes.extend_from_slice(&[0; 8])?;
    Ok(())
}

/// The first eight bytes of a relocated field.
#[tactic(auto, unfolding(crate::specs::Facts::first_held))]
fn first_bytes(target: &Target, addend: i64) -> [u8; 8]
    ensures { result ≡ first_held target.now addend }
{
    if is_fixed(target) {
        fixed_value(target, addend).to_le_bytes()
    } else {
        [0; 8]
    }
}

/// Replaces bytes from a place on.
fn replace(bytes: &mut [u8], at: usize, with: &[u8])
    requires { at + length with.now ≤ length bytes.old }
    ensures { bytes.new ≡ put_bytes bytes.old at with.now }
{
    let end = at + with.len();
    bytes[at..end].copy_from_slice(with);
}

impl Bodies {
    ghost use Rattle.std.specs.Prelude.{◌+◌, ◌<◌, ◌≤◌, length};
    ghost use Rattle.cap_table.specs.Bodies.{put, put_in, piece_bytes};

    /// The bytes of a piece; none where it has none in the file.
    pub fn bytes(&self, piece: u32) -> &[u8]
        requires { piece < length self.now.pieces }
        ensures { result.now ≡ piece_bytes self.now.pieces piece }
    {
        self.pieces[piece as usize].bytes()
    }

    /// The bytes of the stubs, 16 each.
    pub fn stubs(&self) -> &[u8]
        ensures { result.now ≡ self.now.stubs }
    {
        &self.stubs
    }

    /// The bytes of the slots, 16 each.
    pub fn slots(&self) -> &[u8]
        ensures { result.now ≡ self.now.slots }
    {
        &self.slots
    }

    /// Replaces bytes of a piece, from an offset in it on. It takes no memory.
    pub fn put(&mut self, piece: u32, offset: u64, bytes: &[u8])
        requires piece { piece < length self.old.pieces }
        requires inside { offset + length bytes.now ≤ length (piece_bytes self.old.pieces piece) }
        ensures { self.new ≡ record self.old { pieces = put_in self.old.pieces piece offset bytes.now } }
    {
        self.pieces[piece as usize].put(offset as usize, bytes);
    }

    /// Replaces bytes of the stubs. It takes no memory.
    pub fn put_stub(&mut self, at: u64, bytes: &[u8])
        requires { at + length bytes.now ≤ length self.old.stubs }
        ensures { self.new ≡ record self.old { stubs = put self.old.stubs at bytes.now } }
    {
        replace(self.stubs.as_mut_slice(), at as usize, bytes);
    }
}
