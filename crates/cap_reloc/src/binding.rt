// Binding the relocations of an object.
ghost use Rattle.std.specs.Prelude.{◌≡◌, ◌<◌, ◌≤◌, [], length, map, All};
ghost use Rattle.cap_reloc.specs.Binding.{AreMappings, IsUnrelocated, Binds, IsUnfitBound, AreNarrowed, AreNoted};
ghost use Rattle.cap_reloc.specs.Setting.{setting_of};

use crate::RelocRefusal;
use crate::plan::make_plan;
use crate::storing::store_all;
use cap_mem::Memory;
use cap_own::Root;
use cap_scope::{Object, Rule};
use std::alloc::Global;

/// Stores what the relocations of the object of this index want in its memory, which has no tag yet. `roots` are the
/// mappings of the objects, in their order; `scope` are the places of the objects in which names are looked up, by this
/// rule.
///
/// The whole list is planned first and then stored, which takes no memory: a refusal leaves the memory as it was. The
/// relocations are those of `__cap_relocs`, then DT_RELA, then DT_JMPREL, and the first that fails a check decides. An
/// entry of `__cap_relocs` is refused, in this order,
///
/// - Malformed by `RelocationSlot`, where the 16 bytes at its location aren't in one writable PT_LOAD, aren't at a
///   multiple of 16, or share a byte with the slot of an earlier relocation;
/// - by `CapabilityPermissions`, where its permissions aren't bit 63 (a function), bit 62 (data for reading) or none
///   (data);
/// - by `SymbolInterval`, where a function's address is in no PT_LOAD with PF_X, or data is in no PT_LOAD, or partly in
///   PT_GNU_RELRO;
/// - by `CapabilityPermissions`, where data that is to be written can't be;
/// - by `Addend`, where the offset into a function isn't 0, or that into data is past its end;
/// - Inexact with no hit, where a capability can't have the bounds of the data, or of the range of code, exactly.
///
/// A record of the kind NONE is passed over. Any other is refused, in this order,
///
/// - Unsupported by `RelocationKind`, where its kind isn't NONE, R_RISCV_64, R_RISCV_RELATIVE, R_RISCV_JUMP_SLOT or
///   CAPABILITY (193);
/// - Malformed by `RelocationSlot`, as above, for the 8 or 16 bytes of its slot, where one of 8 bytes may stand at any
///   place;
/// - Unresolved, where it isn't R_RISCV_RELATIVE, its symbol is GLOBAL and no definition was found;
/// - by `SymbolInterval`, `Addend` and Inexact, as above, where it asks for a capability to what isn't absolute; a symbol
///   of the type SECTION, FILE or COMMON fails the first of them.
///
/// NoMemory may come in place of any answer.
pub fn relocate(
    alloc: Global,
    objects: &[Object],
    roots: &[Root],
    index: u32,
    scope: &[u32],
    rule: Rule,
    memory: &mut Memory,
) -> Result<(), RelocRefusal>
    requires few { length objects.now ≤ 256 }
    requires mappings { AreMappings (map (λ o. o.records) objects.now) 0 roots.now }
    requires index { index < length objects.now }
    requires scope { All (λ i. i < length objects.now) scope.now }
    requires memory { IsUnrelocated roots.now index memory.old }
    ensures binds { Binds (setting_of objects.now roots.now index scope.now rule) memory.old memory.new result }
    ensures narrowed { AreNarrowed roots.now memory.new }
    ensures noted { AreNoted (map (λ o. o.records) objects.now) memory.new }
    ensures unfit { IsUnfitBound (setting_of objects.now roots.now index scope.now rule) result }
{
    match make_plan(alloc, objects, roots, index, scope, rule) {
        Ok(planned) => {
            store_all(memory, planned);
            Ok(())
        }
        Err(refusal) => Err(refusal),
    }
}
