//! Writing fields and stubs.

ghost use Rattle.std.specs.Prelude.{◌≡◌, ◌+◌, ◌*◌, ◌^◌, ◌<◌, ◌≤◌, ◌++◌, false, length, take};
ghost use Rattle.std.specs.List.{flat_map};
ghost use Rattle.cap_base.specs.Field.{number_bytes};
ghost use Rattle.cap_table.specs.Kinds as kinds;
ghost use Rattle.cap_table.specs.Checks.{reloc_of};
ghost use Rattle.cap_table.specs.Bodies.{AreLong, put_in, piece_bytes};
ghost use Rattle.cap_code.specs.Patched.{with_value, stub_bytes};
ghost use Rattle.cap_code.specs.Steps.{IsStepIn};

use crate::field::{field_in, high_part, low_part, patched_field};
use crate::instructions::{high_word, low_word};
use crate::kinds::width_of;
use crate::scene::Scene;
use cap_table::{Bodies, Step, Target};

/// The words of a stub, without the distance to its slot: it loads the capability of the slot into a register, and jumps
/// there.
const AUIPC: u32 = 0x0000_0397;

const LOAD: u32 = 0x0003_a38f;

const JUMP: u32 = 0xfec3_805b;

const NOP: u32 = 0x0000_0013;

/// Replaces bytes of a piece, whose length stays.
fn put_bytes(scene: &Scene<'_>, piece: u32, at: u64, bytes: &[u8], bodies: &mut Bodies)
    requires piece { piece < length scene.now.laid.pieces.all }
    requires inside { at + length bytes.now ≤ length (piece_bytes bodies.old.pieces piece) }
    requires long { AreLong scene.now.laid.pieces.all scene.now.lists.plan bodies.old }
    ensures value { bodies.new ≡ record bodies.old { pieces = put_in bodies.old.pieces piece at bytes.now } }
    ensures long { AreLong scene.now.laid.pieces.all scene.now.lists.plan bodies.new }
{
    bodies.put(piece, at, bytes);
}

/// Writes the value of a step into its field.
pub(crate) fn write_value(scene: &Scene<'_>, step: &Step, value: u64, bodies: &mut Bodies)
    requires step { IsStepIn scene.now step.now }
    requires code { kinds.is_slot (reloc_of scene.now.named.rels step.now).kind ≡ false }
    requires long { AreLong scene.now.laid.pieces.all scene.now.lists.plan bodies.old }
    ensures value { bodies.new ≡ record bodies.old { pieces = with_value scene.now bodies.old.pieces step.now value } }
    ensures long { AreLong scene.now.laid.pieces.all scene.now.lists.plan bodies.new }
{
    let kind = scene.reloc(step).kind;
    let width = width_of(kind) as usize;
    let at = scene.offset(step);
    let field = field_in(bodies.bytes(step.piece), at as usize, width);
    let bytes = patched_field(kind, field, value).to_le_bytes();
    put_bytes(scene, step.piece, at, &bytes[..width], bodies);
}

/// Writes the next word of a stub.
#[tactic(auto, using(crate::proofs::Stubs::put_next))]
fn write_word(word: u32, at: u64, bodies: &mut Bodies)
    requires { at + 4 ≤ length bodies.old.stubs }
    ensures written { take (at + 4) bodies.new.stubs ≡ take at bodies.old.stubs ++ number_bytes 4 word }
    ensures long { length bodies.new.stubs ≡ length bodies.old.stubs }
    ensures rest { bodies.new ≡ record bodies.old { stubs = bodies.new.stubs } }
{
    bodies.put_stub(at, &word.to_le_bytes());
}

/// Writes the stub of a target: AUIPC and a load of the capability of its slot, a jump to it, and a NOP.
fn write_stub(scene: &Scene<'_>, target: &Target, at: u64, bodies: &mut Bodies)
    requires inside { at + 16 ≤ length bodies.old.stubs }
    requires fits { at + 16 < 2 ^ 64 }
    ensures written { take (at + 16) bodies.new.stubs ≡ take at bodies.old.stubs ++ stub_bytes scene.now.lists target.now }
    ensures long { length bodies.new.stubs ≡ length bodies.old.stubs }
    ensures rest { bodies.new ≡ record bodies.old { stubs = bodies.new.stubs } }
{
    let value = scene.stub_value(target);
    write_word(high_word(AUIPC, high_part(value)), at, bodies);
    write_word(low_word(LOAD, low_part(value)), at + 4, bodies);
    write_word(JUMP, at + 8, bodies);
    write_word(NOP, at + 12, bodies);
}

/// Writes the stubs in order, 16 bytes each.
#[tactic(auto, using(crate::proofs::Stubs::one_more, crate::proofs::Stubs::all_stubs))]
pub(crate) fn write_stubs(scene: &Scene<'_>, bodies: &mut Bodies)
    requires { AreLong scene.now.laid.pieces.all scene.now.lists.plan bodies.old }
    ensures value { bodies.new ≡ record bodies.old { stubs = flat_map (stub_bytes scene.now.lists) scene.now.lists.plan.stubs } }
    ensures long { AreLong scene.now.laid.pieces.all scene.now.lists.plan bodies.new }
{
    let stubs = scene.stubs();
    let count = bodies.stubs().len() / 16;
    for k in 0..count {
        write_stub(scene, &stubs[k], 16 * k as u64, bodies);
    }
}
