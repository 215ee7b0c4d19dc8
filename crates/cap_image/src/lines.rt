//! The lines of a report.

ghost use Rattle.std.specs.Prelude.{◌≡◌, ◌++◌, ◌<◌, OnOk, Some, length, slice_index_or};
ghost use Rattle.cap_conc.specs.Computed.{fields_of};
ghost use Rattle.cap_image.specs.Parts.{no_object, no_word};
ghost use Rattle.cap_image.specs.Report.{object_line, cap_line, fields_text, seal_text, flag_text as flag_text_of, last_line, name_text as name_text_of, record_text, source_text, IsGranuleOf};
ghost use Rattle.cap_image.specs.Entries.{numbered, IsNumber, AreEntries};

use crate::digits::{push_decimal, push_number};
use crate::entries::entry_of;
use crate::granules::word_at;
use crate::image::Image;
use cap_base::NoMemory;
use cap_conc::{Fields, Word, decode};

/// The object type of a capability that isn't sealed.
pub const UNSEALED: u32 = 262_143;

/// The object type of a sealed entry.
pub const SENTRY: u32 = 262_142;

/// Appends the line of object `i`.
pub(crate) fn push_object_line(text: &mut Vec<u8>, image: &Image, i: u32) -> Result<(), NoMemory>
    requires { i < length image.now.objects }
    ensures { OnOk result (text.new.items ≡ text.old.items ++ object_line (slice_index_or image.now.objects i no_object)) }
{
    push_number(text, b"object 0x", u128::from(image.base(i)), 16)?;
    push_number(text, b" 0x", u128::from(image.size(i)), 16)?;
    text.extend_from_slice(b" ")?;
    text.extend_from_slice(image.name(i))?;
    text.extend_from_slice(b"\n")?;
    Ok(())
}

/// Appends the line of a granule of object `i`.
#[tactic(auto, unfolding(crate::specs::Report::cap_line))]
pub(crate) fn push_cap_line(
    text: &mut Vec<u8>,
    image: &Image,
    i: u32,
    entries: &[Option<u32>],
    granule: u64,
) -> Result<(), NoMemory>
    requires object { i < length image.now.objects }
    requires granule { IsGranuleOf (slice_index_or image.now.objects i no_object) granule }
    requires entries { AreEntries (slice_index_or image.now.objects i no_object) 0 entries.now }
    ensures value { OnOk result (text.new.items ≡ text.old.items ++ cap_line (slice_index_or image.now.objects i no_object) granule) }
    ensures longer { OnOk result (length text.old.items < length text.new.items) }
{
    let word = word_at(image, i, granule);
    push_number(text, b"cap 0x", u128::from(granule), 16)?;
    push_word(text, word)?;
    push_source(text, image, i, entries, granule)?;
    text.extend_from_slice(b"\n")?;
    Ok(())
}

/// Appends what the word of a granule of object `i` is made from, where a word record says so.
#[tactic(auto, unfolding(crate::specs::Report::source_text))]
fn push_source(
    text: &mut Vec<u8>,
    image: &Image,
    i: u32,
    entries: &[Option<u32>],
    granule: u64,
) -> Result<(), NoMemory>
    requires object { i < length image.now.objects }
    requires granule { IsGranuleOf (slice_index_or image.now.objects i no_object) granule }
    requires entries { AreEntries (slice_index_or image.now.objects i no_object) 0 entries.now }
    ensures { OnOk result (text.new.items ≡ text.old.items ++ source_text (slice_index_or image.now.objects i no_object) granule) }
{
    let entry = entry_of(entries, image, i, granule);
    push_entry(text, image, i, entry)
}

/// Appends what the word record of this number says, if there is one.
fn push_entry(text: &mut Vec<u8>, image: &Image, i: u32, entry: Option<u32>) -> Result<(), NoMemory>
    requires object { i < length image.now.objects }
    requires entry { IsNumber (slice_index_or image.now.objects i no_object) entry }
    ensures { OnOk result (text.new.items ≡ text.old.items ++ record_text (numbered (slice_index_or image.now.objects i no_object) entry)) }
{
    match entry {
        None => Ok(()),
        Some(k) => push_record(text, image, i, k),
    }
}

/// Appends what word record `k` of object `i` says.
fn push_record(text: &mut Vec<u8>, image: &Image, i: u32, k: u32) -> Result<(), NoMemory>
    requires object { i < length image.now.objects }
    requires word { k < length (slice_index_or image.now.objects i no_object).words }
    ensures { OnOk result (text.new.items ≡ text.old.items ++ record_text (Some (slice_index_or (slice_index_or image.now.objects i no_object).words k no_word))) }
{
    text.extend_from_slice(b" owner ")?;
    push_decimal(text, u64::from(image.word(i, k).owner))?;
    text.extend_from_slice(b" symbol ")?;
    text.extend_from_slice(name_text(image.word_name(i, k)))?;
    Ok(())
}

/// The name of a symbol, or `-` where it has none.
fn name_text(name: &[u8]) -> &[u8]
    ensures { result.now ≡ name_text_of name.now }
{
    if name.is_empty() { b"-" } else { name }
}

/// Appends the last line, with the numbers of objects and of tagged words.
pub(crate) fn push_last_line(text: &mut Vec<u8>, objects: u32, words: usize) -> Result<(), NoMemory>
    ensures { OnOk result (text.new.items ≡ text.old.items ++ last_line objects words) }
{
    text.extend_from_slice(b"objects ")?;
    push_decimal(text, u64::from(objects))?;
    text.extend_from_slice(b" words ")?;
    push_decimal(text, words as u64)?;
    text.extend_from_slice(b"\n")?;
    Ok(())
}

fn push_word(text: &mut Vec<u8>, word: Word) -> Result<(), NoMemory>
    ensures { OnOk result (text.new.items ≡ text.old.items ++ fields_text (fields_of word)) }
{
    push_fields(text, decode(word))
}

#[tactic(auto, unfolding(crate::specs::Report::fields_text))]
fn push_fields(text: &mut Vec<u8>, fields: Fields) -> Result<(), NoMemory>
    ensures { OnOk result (text.new.items ≡ text.old.items ++ fields_text fields) }
{
    push_number(text, b" base 0x", u128::from(fields.base), 16)?;
    push_number(text, b" top 0x", fields.top, 17)?;
    push_number(text, b" cursor 0x", u128::from(fields.cursor), 16)?;
    push_number(text, b" perms ", u128::from(fields.perms), 4)?;
    text.extend_from_slice(b" flag ")?;
    text.extend_from_slice(flag_text(fields.flag))?;
    text.extend_from_slice(b" ")?;
    push_seal(text, fields.otype)
}

fn flag_text(flag: bool) -> &'static [u8]
    ensures { result.now ≡ flag_text_of flag }
{
    if flag { b"1" } else { b"0" }
}

fn push_seal(text: &mut Vec<u8>, object_type: u32) -> Result<(), NoMemory>
    ensures { OnOk result (text.new.items ≡ text.old.items ++ seal_text object_type) }
{
    match object_type {
        UNSEALED => text.extend_from_slice(b"unsealed")?,
        SENTRY => text.extend_from_slice(b"sentry")?,
        _ => {
            text.extend_from_slice(b"sealed ")?;
            push_decimal(text, u64::from(object_type))?;
        }
    }
    Ok(())
}
