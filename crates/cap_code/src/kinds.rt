//! The kinds of relocations whose values are known when the file is linked, by the numbers and names of the RISC-V ELF
//! psABI; the last three are those of pure capabilities.

ghost use Rattle.std.specs.Prelude.{◌≡◌, ◌≤◌, ◌||◌, false};
ghost use Rattle.cap_table.specs.Kinds as kinds;
ghost use Rattle.cap_code.specs.Steps.{IsWidth};

const WORD_64: u32 = 2;

pub(crate) const BRANCH: u32 = 16;

pub(crate) const JAL: u32 = 17;

const CALL: u32 = 18;

const CALL_PLT: u32 = 19;

const PCREL_HI20: u32 = 23;

pub(crate) const PCREL_LO12_I: u32 = 24;

pub(crate) const PCREL_LO12_S: u32 = 25;

const ADD8: u32 = 33;

const ADD16: u32 = 34;

const ADD32: u32 = 35;

const ADD64: u32 = 36;

const SUB8: u32 = 37;

const SUB16: u32 = 38;

const SUB32: u32 = 39;

const SUB64: u32 = 40;

pub(crate) const RVC_BRANCH: u32 = 44;

pub(crate) const RVC_JUMP: u32 = 45;

const SUB6: u32 = 52;

const SET6: u32 = 53;

const SET8: u32 = 54;

const SET16: u32 = 55;

const SET32: u32 = 56;

pub(crate) const PCREL_32: u32 = 57;

const CAPTAB_PCREL_HI20: u32 = 192;

const CAPABILITY: u32 = 193;

const CCALL: u32 = 198;

/// Whether the field is relocated when the file is loaded, or holds a fixed value.
pub(crate) fn is_slot(kind: u32) -> bool
    ensures { result ≡ kinds.is_slot kind }
{
    kind == CAPABILITY || kind == WORD_64
}

/// Whether the field gets a distance of 32 bits.
pub(crate) fn is_distance(kind: u32) -> bool
    ensures { result ≡ kinds.is_distance kind }
{
    kind == PCREL_32
}

/// Whether the value is added to the field.
pub(crate) fn is_sum(kind: u32) -> bool
    ensures { result ≡ kinds.is_add kind }
{
    ADD8 <= kind && kind <= ADD64
}

/// Whether the value is taken away from the field.
pub(crate) fn is_difference(kind: u32) -> bool
    ensures { result ≡ kinds.is_sub kind }
{
    SUB8 <= kind && kind <= SUB64 || kind == SUB6
}

/// Whether the field is a call: AUIPC and the jump after it.
pub(crate) fn is_call(kind: u32) -> bool
    ensures { result ≡ kinds.is_call kind }
{
    kind == CALL || kind == CALL_PLT || kind == CCALL
}

/// Whether control goes to the target: a branch or a call.
pub(crate) fn is_transfer(kind: u32) -> bool
    ensures { result ≡ kinds.is_transfer kind }
{
    kind == BRANCH || kind == JAL || kind == RVC_BRANCH || kind == RVC_JUMP || is_call(kind)
}

/// Whether the field gets the high part of the distance to a place.
pub(crate) fn is_place_high(kind: u32) -> bool
    ensures { result ≡ kinds.is_high kind }
{
    kind == PCREL_HI20
}

/// Whether the field gets the high part of the distance to a slot of the capability table.
pub(crate) fn is_slot_high(kind: u32) -> bool
    ensures { result ≡ kinds.is_slot_high kind }
{
    kind == CAPTAB_PCREL_HI20
}

/// Whether the field gets the high part of a distance.
pub(crate) fn is_high(kind: u32) -> bool
    ensures { result ≡ (kinds.is_high kind || kinds.is_slot_high kind) }
{
    is_place_high(kind) || is_slot_high(kind)
}

/// Whether the field gets a low part, of the distance that another relocation has the high part of.
pub(crate) fn is_low(kind: u32) -> bool
    ensures { result ≡ kinds.is_low kind }
{
    kind == PCREL_LO12_I || kind == PCREL_LO12_S
}

/// How many bytes the field has.
pub(crate) fn width_of(kind: u32) -> u32
    requires changes { kinds.is_passed_over kind ≡ false }
    requires code { kinds.is_slot kind ≡ false }
    ensures value { result ≡ kinds.width_of kind }
    ensures width { IsWidth result }
{
    if is_call(kind) || kind == ADD64 || kind == SUB64 {
        8
    } else if kind == RVC_BRANCH
        || kind == RVC_JUMP
        || kind == ADD16
        || kind == SUB16
        || kind == SET16
    {
        2
    } else if kind == ADD8 || kind == SUB8 || kind == SUB6 || kind == SET6 || kind == SET8 {
        1
    } else {
        4
    }
}

/// How many bits a sum, a difference or a value has.
pub(crate) fn value_bits(kind: u32) -> u32
    ensures value { result ≡ kinds.value_bits kind }
    ensures few { result ≤ 64 }
{
    if kind == SUB6 || kind == SET6 {
        6
    } else if kind == ADD8 || kind == SUB8 || kind == SET8 {
        8
    } else if kind == ADD16 || kind == SUB16 || kind == SET16 {
        16
    } else if kind == ADD32 || kind == SUB32 || kind == SET32 {
        32
    } else {
        64
    }
}
