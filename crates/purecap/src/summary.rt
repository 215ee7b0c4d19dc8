//! The summary of a session.

ghost use Rattle.std.specs.Prelude.{◌≡◌, ◌++◌, ◌+◌, ◌*◌, ◌%◌, ◌^◌, ◌≤◌, All, IfOk, OnOk, length, flat_map, sum, decimal};
ghost use Rattle.cap_image.specs.Report.{hex, last_line};
ghost use Rattle.cap_session.specs.Session.{IsSession};
ghost use Rattle.purecap.specs.Demo.{image_line, number_line};
ghost use Rattle.purecap.specs.Summing.{address_if, memory_addresses, ArePages, session_summary, summary_text as summary_text_of};

use crate::faults::hex_digit;
use crate::loading::image_bytes_of;
use cap_base::NoMemory;
use cap_image::image_laws;
use cap_mem::Memory;
use cap_session::Session;
use itoa::Buffer;
use std::alloc::Global;

// The summary of what a session has loaded for a number.
pub fn summary(alloc: Global, number: u32, session: &Session) -> Result<Vec<u8>, NoMemory>
    requires { IsSession session.now }
    ensures { IfOk result (λ text. text.items ≡ session_summary number session.now) }
{
    image_laws();
    let image = image_bytes_of(alloc, session)?;
    let addresses = word_addresses(alloc, session.memories())?;
    summary_text(alloc, number, session.memories().len(), &addresses, &image)
}

// The summary: how many objects there are, the addresses of the tagged words, and the bytes of the image.
#[tactic(auto, unfolding(crate::specs::Summing::summary_text, crate::specs::Demo::summary_lines))]
fn summary_text(
    alloc: Global,
    number: u32,
    objects: usize,
    addresses: &[u64],
    image: &[u8],
) -> Result<Vec<u8>, NoMemory>
    ensures { IfOk result (λ text. text.items ≡ summary_text_of number objects addresses.now (length image.now)) }
{
    let mut text = Vec::new(alloc);
    push_number_line(&mut text, number)?;
    push_count_line(&mut text, objects, addresses.len())?;
    push_image_line(&mut text, image.len(), wrapped_sum(addresses))?;
    Ok(text)
}

#[tactic(auto, unfolding(crate::specs::Demo::number_line))]
fn push_number_line(text: &mut Vec<u8>, number: u32) -> Result<(), NoMemory>
    ensures { OnOk result (text.new.items ≡ text.old.items ++ number_line number) }
{
    push_decimal(text, b"demo ", u64::from(number))?;
    text.extend_from_slice(b"\n")?;
    Ok(())
}

fn push_count_line(text: &mut Vec<u8>, objects: usize, words: usize) -> Result<(), NoMemory>
    ensures { OnOk result (text.new.items ≡ text.old.items ++ last_line objects words) }
{
    push_decimal(text, b"objects ", objects as u64)?;
    push_decimal(text, b" words ", words as u64)?;
    text.extend_from_slice(b"\n")?;
    Ok(())
}

#[tactic(auto, unfolding(crate::specs::Demo::image_line))]
fn push_image_line(text: &mut Vec<u8>, size: usize, total: u64) -> Result<(), NoMemory>
    ensures { OnOk result (text.new.items ≡ text.old.items ++ image_line size total) }
{
    push_decimal(text, b"image ", size as u64)?;
    text.extend_from_slice(b" sum 0x")?;
    push_hex(text, total, 16)?;
    text.extend_from_slice(b"\n")?;
    Ok(())
}

// Appends a word, and a number in base 10.
fn push_decimal(text: &mut Vec<u8>, word: &[u8], number: u64) -> Result<(), NoMemory>
    ensures { OnOk result (text.new.items ≡ text.old.items ++ word.now ++ decimal number) }
{
    let mut buffer = Buffer::new();
    text.extend_from_slice(word)?;
    text.extend_from_slice(buffer.format(number).as_bytes())?;
    Ok(())
}

// Appends the lowest digits of a number in base 16, as many as `digits`.
#[tactic(auto, using(cap_image::proofs::Growing::no_digit, cap_image::proofs::Growing::last_digit))]
fn push_hex(text: &mut Vec<u8>, number: u64, digits: u32) -> Result<(), NoMemory>
    ensures { OnOk result (text.new.items ≡ text.old.items ++ hex digits number) }
{
    if digits > 0 {
        push_hex(text, number / 16, digits - 1)?;
        text.push(hex_digit(number % 16))?;
    }
    Ok(())
}

// The sum of numbers, modulo 2^64.
fn wrapped_sum(numbers: &[u64]) -> u64
    ensures { result ≡ sum numbers.now % 2 ^ 64 }
{
    let mut total = 0u64;
    for number in numbers {
        total = total.wrapping_add(*number);
    }
    total
}

// The addresses of the tagged words of memories.
fn word_addresses(alloc: Global, memories: &[Memory]) -> Result<Vec<u64>, NoMemory>
    requires { All ArePages memories.now }
    ensures { IfOk result (λ addresses. addresses.items ≡ flat_map memory_addresses memories.now) }
{
    let mut addresses = Vec::new(alloc);
    for memory in memories {
        push_addresses(&mut addresses, memory)?;
    }
    Ok(addresses)
}

// Appends the addresses of the tagged words of a memory.
#[tactic(auto, using(crate::proofs::WordSums::first_none, crate::proofs::WordSums::first_more))]
fn push_addresses(addresses: &mut Vec<u64>, memory: &Memory) -> Result<(), NoMemory>
    requires { ArePages memory.now }
    ensures { OnOk result (addresses.new.items ≡ addresses.old.items ++ memory_addresses memory.now) }
{
    for k in 0..memory.len() / 16 {
        push_address(addresses, memory, k)?;
    }
    Ok(())
}

// Appends that of the granule of this number, where it is tagged.
#[tactic(auto, using(crate::proofs::WordSums::tagged_address, crate::proofs::WordSums::no_address))]
fn push_address(addresses: &mut Vec<u64>, memory: &Memory, k: u64) -> Result<(), NoMemory>
    requires pages { ArePages memory.now }
    requires inside { 16 * k + 16 ≤ length memory.now.bytes }
    ensures { OnOk result (addresses.new.items ≡ addresses.old.items ++ address_if memory.now k) }
{
    let (word, is_tagged) = memory.word_at(memory.base() + 16 * k);
    if is_tagged {
        addresses.push(word.address)?;
    }
    Ok(())
}
