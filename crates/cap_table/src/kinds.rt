//! The kinds of relocations, by the numbers and names of the RISC-V ELF psABI; the last three are those of pure
//! capabilities.

ghost use Rattle.std.specs.Prelude.{◌≡◌, ◌<◌, false};
ghost use Rattle.cap_table.specs.Kinds as kinds;
ghost use Rattle.cap_elf.specs.Classes as classes;

use cap_elf::Class;

const NONE: u32 = 0;

const WORD_64: u32 = 2;

const BRANCH: u32 = 16;

const JAL: u32 = 17;

const CALL: u32 = 18;

const CALL_PLT: u32 = 19;

const PCREL_HI20: u32 = 23;

const PCREL_LO12_I: u32 = 24;

const PCREL_LO12_S: u32 = 25;

const ADD8: u32 = 33;

const ADD16: u32 = 34;

const ADD64: u32 = 36;

const SUB8: u32 = 37;

const SUB16: u32 = 38;

const SUB64: u32 = 40;

const RVC_BRANCH: u32 = 44;

const RVC_JUMP: u32 = 45;

const RELAX: u32 = 51;

const SUB6: u32 = 52;

const SET6: u32 = 53;

const SET8: u32 = 54;

const SET16: u32 = 55;

const SET32: u32 = 56;

const PCREL_32: u32 = 57;

const CAPTAB_PCREL_HI20: u32 = 192;

pub(crate) const CAPABILITY: u32 = 193;

const CCALL: u32 = 198;

/// Whether nothing is done for the kind: none at all, or a hint to relax.
pub(crate) fn is_passed_over(kind: u32) -> bool
    ensures { result ≡ kinds.is_passed_over kind }
{
    kind == NONE || kind == RELAX
}

/// Whether the field gets a capability.
pub(crate) fn is_capability(kind: u32) -> bool
    ensures { result ≡ kinds.is_capability kind }
{
    kind == CAPABILITY
}

/// Whether the field gets an address of eight bytes.
pub(crate) fn is_word(kind: u32) -> bool
    ensures { result ≡ kinds.is_word kind }
{
    kind == WORD_64
}

/// Whether the field is relocated when the file is loaded, or holds a fixed value.
pub(crate) fn is_slot(kind: u32) -> bool
    ensures { result ≡ kinds.is_slot kind }
{
    is_capability(kind) || is_word(kind)
}

fn is_distance(kind: u32) -> bool
    ensures { result ≡ kinds.is_distance kind }
{
    kind == PCREL_32
}

fn is_sum(kind: u32) -> bool
    ensures { result ≡ kinds.is_add kind }
{
    ADD8 <= kind && kind <= ADD64
}

fn is_difference(kind: u32) -> bool
    ensures { result ≡ kinds.is_sub kind }
{
    SUB8 <= kind && kind <= SUB64 || kind == SUB6
}

fn is_setting(kind: u32) -> bool
    ensures { result ≡ kinds.is_set kind }
{
    SET6 <= kind && kind <= SET32
}

fn is_value(kind: u32) -> bool
    ensures { result ≡ kinds.is_value kind }
{
    is_sum(kind) || is_difference(kind) || is_setting(kind)
}

fn is_branch(kind: u32) -> bool
    ensures { result ≡ kinds.is_branch kind }
{
    kind == BRANCH || kind == JAL
}

fn is_short_branch(kind: u32) -> bool
    ensures { result ≡ kinds.is_short_branch kind }
{
    kind == RVC_BRANCH || kind == RVC_JUMP
}

fn is_call(kind: u32) -> bool
    ensures { result ≡ kinds.is_call kind }
{
    kind == CALL || kind == CALL_PLT || kind == CCALL
}

/// Whether control goes to the target: a branch or a call.
pub(crate) fn is_transfer(kind: u32) -> bool
    ensures { result ≡ kinds.is_transfer kind }
{
    is_branch(kind) || is_short_branch(kind) || is_call(kind)
}

fn is_high(kind: u32) -> bool
    ensures { result ≡ kinds.is_high kind }
{
    kind == PCREL_HI20
}

/// Whether the field gets the high part of the distance to a slot of the capability table.
pub(crate) fn is_slot_high(kind: u32) -> bool
    ensures { result ≡ kinds.is_slot_high kind }
{
    kind == CAPTAB_PCREL_HI20
}

/// Whether the field gets a low part, of the distance that another relocation has the high part of.
pub(crate) fn is_low(kind: u32) -> bool
    ensures { result ≡ kinds.is_low kind }
{
    kind == PCREL_LO12_I || kind == PCREL_LO12_S
}

/// How many bytes the field has; 0 exactly where the kind is passed over.
pub(crate) fn width_of(kind: u32) -> u64
    ensures { result ≡ kinds.width_of kind }
{
    if is_passed_over(kind) {
        0
    } else if is_capability(kind) {
        16
    } else if is_word(kind) || is_call(kind) || kind == ADD64 || kind == SUB64 {
        8
    } else if is_short_branch(kind) || kind == ADD16 || kind == SUB16 || kind == SET16 {
        2
    } else if kind == ADD8 || kind == SUB8 || kind == SUB6 || kind == SET6 || kind == SET8 {
        1
    } else {
        4
    }
}

/// The same of a kind that isn't passed over.
pub(crate) fn field_width(kind: u32) -> u64
    requires { kinds.is_passed_over kind ≡ false }
    ensures width { result ≡ kinds.width_of kind }
    ensures some { 0 < result }
{
    width_of(kind)
}

fn is_written_data(class: Class) -> bool
    ensures { result ≡ kinds.is_written_data class }
{
    matches!(class, Class::Relro | Class::Data)
}

pub(crate) fn is_code(class: Class) -> bool
    ensures { result ≡ classes.is_code class }
{
    matches!(class, Class::Code)
}

pub(crate) fn is_array(class: Class) -> bool
    ensures { result ≡ classes.is_array class }
{
    matches!(class, Class::Init | Class::Fini)
}

fn is_bss(class: Class) -> bool
    ensures { result ≡ classes.is_bss class }
{
    matches!(class, Class::Bss)
}

/// Whether a relocation of the kind may change a section of this class.
pub(crate) fn is_accepted(class: Class, kind: u32) -> bool
    ensures { result ≡ kinds.is_accepted class kind }
{
    is_passed_over(kind)
        || is_capability(kind) && (is_written_data(class) || is_array(class))
        || is_word(kind) && is_written_data(class)
        || (is_distance(kind) || is_value(kind)) && !is_bss(class)
        || (is_transfer(kind) || is_high(kind) || is_slot_high(kind) || is_low(kind))
            && is_code(class)
}

/// Whether the value is counted from the field.
pub(crate) fn is_relative(kind: u32) -> bool
    ensures { result ≡ kinds.is_relative kind }
{
    is_distance(kind) || is_high(kind) || is_transfer(kind)
}

/// Whether the target has to have an address that is known here.
pub(crate) fn needs_address(kind: u32) -> bool
    ensures { result ≡ kinds.needs_address kind }
{
    is_distance(kind) || is_value(kind) || is_high(kind)
}
