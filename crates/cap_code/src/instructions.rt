//! Instruction words with the bits of a value in their fields.

ghost use Rattle.std.specs.Prelude.{◌≡◌, ◌+◌, ◌^◌, ◌<◌, ◌≤◌};
ghost use Rattle.cap_code.specs.Forms.{Bits, with_bits, with_form, upper_form, immediate_form, store_form, branch_form, jump_form, short_branch_form, short_jump_form};

fn power(n: u32) -> u64
    requires { n ≤ 32 }
    ensures value { result ≡ 2 ^ n }
    ensures some { 0 < result }
{
    1 << n
}

/// The word with `count` bits from `to` on replaced by those of the value from `from` on.
fn set_bits(word: u32, value: u64, to: u32, from: u32, count: u32) -> u32
    requires inside { to + count ≤ 32 }
    requires some { from < 64 }
    ensures { result ≡ with_bits value word (record { to = to; from = from; count = count }) }
{
    let word = u64::from(word);
    let low = power(to);
    let width = power(count);
    let high = power(to + count);
    (word / high * high + (value >> from) % width * low + word % low) as u32
}

/// The upper 20 bits.
pub(crate) fn high_word(word: u32, value: u64) -> u32
    ensures { result ≡ with_form upper_form word value }
{
    set_bits(word, value, 12, 0, 20)
}

/// The immediate of a load or of arithmetic.
pub(crate) fn low_word(word: u32, value: u64) -> u32
    ensures { result ≡ with_form immediate_form word value }
{
    set_bits(word, value, 20, 0, 12)
}

/// The immediate of a store.
pub(crate) fn store_word(word: u32, value: u64) -> u32
    ensures { result ≡ with_form store_form word value }
{
    set_bits(set_bits(word, value, 25, 5, 7), value, 7, 0, 5)
}

/// The distance of a conditional branch.
pub(crate) fn branch_word(word: u32, value: u64) -> u32
    ensures { result ≡ with_form branch_form word value }
{
    let word = set_bits(set_bits(word, value, 31, 12, 1), value, 25, 5, 6);
    set_bits(set_bits(word, value, 8, 1, 4), value, 7, 11, 1)
}

/// The distance of a jump.
pub(crate) fn jump_word(word: u32, value: u64) -> u32
    ensures { result ≡ with_form jump_form word value }
{
    let word = set_bits(set_bits(word, value, 31, 20, 1), value, 21, 1, 10);
    set_bits(set_bits(word, value, 20, 11, 1), value, 12, 12, 8)
}

/// The distance of a short conditional branch.
pub(crate) fn short_branch_word(word: u32, value: u64) -> u32
    ensures { result ≡ with_form short_branch_form word value }
{
    let word = set_bits(set_bits(word, value, 12, 8, 1), value, 10, 3, 2);
    let word = set_bits(set_bits(word, value, 5, 6, 2), value, 3, 1, 2);
    set_bits(word, value, 2, 5, 1)
}

/// The distance of a short jump.
pub(crate) fn short_jump_word(word: u32, value: u64) -> u32
    ensures { result ≡ with_form short_jump_form word value }
{
    let word = set_bits(set_bits(word, value, 12, 11, 1), value, 11, 4, 1);
    let word = set_bits(set_bits(word, value, 9, 8, 2), value, 8, 10, 1);
    let word = set_bits(set_bits(word, value, 7, 6, 1), value, 6, 7, 1);
    set_bits(set_bits(word, value, 3, 1, 3), value, 2, 5, 1)
}
