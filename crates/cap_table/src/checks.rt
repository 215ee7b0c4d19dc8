//! The checks of a relocation.

ghost use Rattle.std.specs.Prelude.{◌≡◌};
ghost use Rattle.cap_elf.specs.Classes as classes;
ghost use Rattle.cap_table.specs.Checks as checks;

use crate::kinds::{
    is_array, is_capability, is_code, is_low, is_relative, is_slot_high, is_transfer, needs_address,
};
use crate::target::{SECTION_SYMBOL, Target};
use cap_elf::Class;

fn is_kept(class: Class) -> bool
    ensures { result ≡ classes.is_kept class }
{
    !matches!(class, Class::Dropped)
}

/// Whether a relocation of the kind can't refer to this target: it is in a section that is dropped, it has no address
/// where the kind needs one, it is a fixed number to which no distance is counted, or it is a section of code or of an
/// array as a whole, for which there is no capability.
#[tactic(auto, unfolding(crate::specs::Checks::refuses_target))]
pub(crate) fn refuses_target(kind: u32, target: &Target) -> bool
    ensures { result ≡ checks.refuses_target kind target.now }
{
    target.is_in_section() && !is_kept(target.class)
        || needs_address(kind) && !target.is_here()
        || is_relative(kind) && target.is_fixed()
        || (is_capability(kind) || is_slot_high(kind))
            && target.as_is.kind == SECTION_SYMBOL
            && (is_code(target.class) || is_array(target.class))
}

fn is_nothing(addend: i64) -> bool
    ensures { result ≡ checks.is_nothing addend }
{
    addend == 0
}

fn is_within(addend: i64, size: u64) -> bool
    ensures { result ≡ checks.is_within addend size }
{
    addend >= 0 && addend as u64 <= size
}

#[tactic(auto, unfolding(crate::specs::Checks::capability_addend))]
fn capability_addend(target: &Target, addend: i64) -> bool
    ensures { result ≡ checks.capability_addend target.now addend }
{
    if target.is_fixed() || target.is_dynamic() {
        true
    } else if target.is_loose() {
        target.names_place(addend)
    } else if !is_code(target.class) && target.size != 0 {
        is_within(addend, target.size)
    } else {
        is_nothing(addend)
    }
}

#[tactic(auto, unfolding(crate::specs::Checks::other_addend))]
fn other_addend(kind: u32, target: &Target, addend: i64) -> bool
    ensures { result ≡ checks.other_addend kind target.now addend }
{
    if is_slot_high(kind) || is_low(kind) {
        is_nothing(addend)
    } else if is_transfer(kind) && target.is_dynamic() {
        is_nothing(addend)
    } else if target.is_loose() {
        target.names_place(addend)
    } else {
        true
    }
}

/// Whether a relocation of the kind may have this addend.
#[tactic(auto, unfolding(crate::specs::Checks::addend_passes))]
pub(crate) fn addend_passes(kind: u32, target: &Target, addend: i64) -> bool
    ensures { result ≡ checks.addend_passes kind target.now addend }
{
    if is_capability(kind) {
        capability_addend(target, addend)
    } else {
        other_addend(kind, target, addend)
    }
}
