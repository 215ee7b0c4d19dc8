//! Fields of instructions and of numbers: what a field becomes by the value of its relocation.

ghost use Rattle.std.specs.Prelude.{◌≡◌, ◌+◌, ◌*◌, ◌^◌, ◌<◌, ◌≤◌, length, take};
ghost use Rattle.cap_base.specs.Field.{number_at, number_bytes};
ghost use Rattle.cap_table.specs.Kinds.{width_of};
ghost use Rattle.cap_code.specs.Patched as patched;
ghost use Rattle.cap_code.specs.Steps.{IsWidth};

use crate::instructions::{
    branch_word, high_word, jump_word, low_word, short_branch_word, short_jump_word, store_word,
};
use crate::kinds;
use cap_base::{u16_in, u32_in, u64_in};

/// The high part of a value, which carries what the low part takes away.
pub(crate) fn high_part(value: u64) -> u64
    ensures { result ≡ patched.high_part value }
{
    value.wrapping_add(0x800) / 0x1000 % 0x10_0000
}

/// The low part of a value.
pub(crate) fn low_part(value: u64) -> u64
    ensures { result ≡ patched.low_part value }
{
    value % 0x1000
}

fn word_of(field: u64) -> u32
    requires { field < 2 ^ 32 }
    ensures { result ≡ field }
{
    field as u32
}

/// Two words, of which the first gets the high part and the second the low part.
fn patched_call(field: u64, value: u64) -> u64
    ensures { result ≡ patched.patched_call field value }
{
    let upper = high_word((field % 0x1_0000_0000) as u32, high_part(value));
    let lower = low_word((field / 0x1_0000_0000) as u32, low_part(value));
    u64::from(upper) + 0x1_0000_0000 * u64::from(lower)
}

fn power(n: u32) -> u128
    requires { n ≤ 64 }
    ensures value { result ≡ 2 ^ n }
    ensures some { 0 < result }
{
    1 << n
}

/// What the low bits of a number are computed from.
fn amount(kind: u32, field: u64, value: u64) -> u128
    ensures { result ≡ patched.amount kind field value }
{
    let field = u128::from(field);
    let value = u128::from(value);
    if kinds::is_sum(kind) {
        field + value
    } else if kinds::is_difference(kind) {
        field + 0x1_0000_0000_0000_0000 - value
    } else {
        value
    }
}

/// The number with its low bits computed anew.
#[tactic(auto, unfolding(crate::specs::Patched::computed))]
fn computed(kind: u32, field: u64, value: u64) -> u64
    ensures { result ≡ patched.computed kind field value }
{
    let modulus = power(kinds::value_bits(kind));
    (u128::from(field) / modulus * modulus + amount(kind, field, value) % modulus) as u64
}

/// The field with the value in it.
#[tactic(auto, unfolding(crate::specs::Patched::patched_field))]
pub(crate) fn patched_field(kind: u32, field: u64, value: u64) -> u64
    requires { field < 2 ^ (8 * width_of kind) }
    ensures { result ≡ patched.patched_field kind field value }
{
    if kind == kinds::BRANCH {
        u64::from(branch_word(word_of(field), value))
    } else if kind == kinds::JAL {
        u64::from(jump_word(word_of(field), value))
    } else if kind == kinds::RVC_BRANCH {
        u64::from(short_branch_word(word_of(field), value))
    } else if kind == kinds::RVC_JUMP {
        u64::from(short_jump_word(word_of(field), value))
    } else if kinds::is_call(kind) {
        patched_call(field, value)
    } else if kinds::is_high(kind) {
        u64::from(high_word(word_of(field), high_part(value)))
    } else if kind == kinds::PCREL_LO12_I {
        u64::from(low_word(word_of(field), low_part(value)))
    } else if kind == kinds::PCREL_LO12_S {
        u64::from(store_word(word_of(field), low_part(value)))
    } else if kind == kinds::PCREL_32 {
        value % 0x1_0000_0000
    } else {
        computed(kind, field, value)
    }
}

/// The number in a field of 1, 2, 4 or 8 bytes.
#[tactic(auto, using(crate::proofs::Fields::one_byte))]
pub(crate) fn field_in(bytes: &[u8], at: usize, width: usize) -> u64
    requires width { IsWidth width }
    requires inside { at + width ≤ length bytes.now }
    ensures value { result ≡ number_at width bytes.now at }
    ensures small { result < 2 ^ (8 * width) }
{
    if width == 1 {
        u64::from(bytes[at])
    } else if width == 2 {
        u64::from(u16_in(bytes, at))
    } else if width == 4 {
        u64::from(u32_in(bytes, at))
    } else {
        u64_in(bytes, at)
    }
}
