//! Numbers in texts.

ghost use Rattle.std.specs.Prelude.{◌≡◌, ◌++◌, ◌<◌, OnOk, decimal, false};
ghost use Rattle.std.specs.Fmt.{digit_glyph};
ghost use Rattle.cap_image.specs.Report.{hex};

use cap_base::NoMemory;
use itoa::Buffer;

/// Appends the lowest digits of a number in base 16, as many as `digits`.
#[tactic(auto, using(crate::proofs::Growing::no_digit, crate::proofs::Growing::last_digit))]
pub fn push_hex(text: &mut Vec<u8>, number: u128, digits: u32) -> Result<(), NoMemory>
    ensures { OnOk result (text.new.items ≡ text.old.items ++ hex digits number) }
{
    if digits > 0 {
        push_hex(text, number / 16, digits - 1)?;
        text.push(glyph((number % 16) as u8))?;
    }
    Ok(())
}

/// Appends a number in base 16, with as many digits as `digits`, behind what it is called.
pub fn push_number(
    text: &mut Vec<u8>,
    label: &[u8],
    number: u128,
    digits: u32,
) -> Result<(), NoMemory>
    ensures { OnOk result (text.new.items ≡ text.old.items ++ label.now ++ hex digits number) }
{
    text.extend_from_slice(label)?;
    push_hex(text, number, digits)
}

fn glyph(digit: u8) -> u8
    requires { digit < 16 }
    ensures { result ≡ digit_glyph false digit }
{
    if digit < 10 {
        b'0' + digit
    } else {
        b'a' - 10 + digit
    }
}

/// Appends a number in base 10.
pub fn push_decimal(text: &mut Vec<u8>, number: u64) -> Result<(), NoMemory>
    ensures { OnOk result (text.new.items ≡ text.old.items ++ decimal number) }
{
    let mut buffer = Buffer::new();
    text.extend_from_slice(buffer.format(number).as_bytes())?;
    Ok(())
}
