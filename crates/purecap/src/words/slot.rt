//! What the words of `reach` say of a slot.

ghost use Rattle.std.specs.Prelude.{◌≡◌, ◌<◌, ◌≤◌, true, length};
ghost use Rattle.std.specs.Str.Parse.{digits_value};
ghost use Rattle.std.specs.Char.{digit_value};
ghost use Rattle.std.specs.List.{list_all};
ghost use Rattle.purecap.specs.WordRules.{Meant};
ghost use Rattle.purecap.specs.SlotWords.{is_hex_digit as is_hex_digit_in, is_slot as is_slot_in, slot_in as slot_in_text, slot_of as slot_of_text};

use crate::faults::Failure;

// The address that a word writes.
#[tactic(auto, unfolding(crate::specs::SlotWords::slot_of))]
pub(super) fn slot_of(word: &str) -> Result<u64, Failure>
    ensures { Meant (λ slot. slot) result (slot_of_text word.now) }
{
    let bytes = word.as_bytes();
    if !is_slot(bytes) {
        return Err(Failure::Usage);
    }
    Ok(slot_in(bytes))
}

// Whether a word is `0x` and 1 to 16 digits of base 16 in lower case.
#[tactic(auto, unfolding(crate::specs::SlotWords::is_slot))]
fn is_slot(word: &[u8]) -> bool
    ensures { result ≡ is_slot_in word.now }
{
    word.starts_with(b"0x") && word.len() > 2 && word.len() <= 18 && has_digits_alone(&word[2..])
}

fn has_digits_alone(digits: &[u8]) -> bool
    ensures { result ≡ list_all is_hex_digit_in digits.now }
{
    digits.iter().all(is_hex_digit)
}

fn is_hex_digit(byte: &u8) -> bool
    ensures { result ≡ is_hex_digit_in byte.now }
{
    byte.is_ascii_digit() || (b'a' <= *byte && *byte <= b'f')
}

// The number that the digits of such a word write.
#[tactic(auto, unfolding(crate::specs::SlotWords::slot_in))]
fn slot_in(word: &[u8]) -> u64
    requires { is_slot_in word.now ≡ true }
    ensures { result ≡ slot_in_text word.now }
{
    number_in(&word[2..])
}

// The number that digits of base 16 write.
#[tactic(auto, using(crate::proofs::Slots::grows))]
fn number_in(digits: &[u8]) -> u64
    requires digits { list_all is_hex_digit_in digits.now ≡ true }
    requires few { length digits.now ≤ 16 }
    ensures { result ≡ digits_value 16 digits.now }
{
    let mut number = 0u64;
    for digit in digits {
        number = 16 * number + hex_value(*digit);
    }
    number
}

// What a digit counts.
fn hex_value(digit: u8) -> u64
    requires { is_hex_digit_in digit ≡ true }
    ensures value { result ≡ digit_value digit }
    ensures small { result < 16 }
{
    if digit.is_ascii_digit() {
        u64::from(digit - b'0')
    } else {
        u64::from(digit - b'a') + 10
    }
}
