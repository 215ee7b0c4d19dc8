//! Names in the string table, and among them those of the libraries that an object needs and its own.

ghost use Rattle.std.specs.Prelude.{◌≡◌, ◌==◌, option_copied, position, IfSome};
ghost use Rattle.cap_base.specs.Steps.{Answers, Gives};
ghost use Rattle.cap_elf.specs.Names.{name_of, rest_of, has_slash as has_slash_of, is_file_name as is_file_name_of};
ghost use Rattle.cap_elf.specs.NamePlaces.{IsNameAt};
ghost use Rattle.cap_elf.specs.FileNames.{file_name_of, name_step, names_of, names_view};

use crate::decode::DynEntry;
use crate::tags::{NEEDED, SONAME};
use cap_base::{Check, Fault, Name, Stop, is_plain, refuse};
use memchr::memchr;
use std::alloc::Global;

#[tactic(auto, using(crate::proofs::FirstByte::first_is))]
fn zero_at(bytes: &[u8]) -> Option<usize>
    ensures { result ≡ position (λ b. b == 0) bytes.now }
{
    memchr(0, bytes)
}

/// The bytes from `offset` on: a name, a zero byte, and what follows.
pub(crate) fn rest_at(strings: &[u8], offset: u64) -> Option<&[u8]>
    ensures { option_copied result ≡ rest_of strings.now offset }
{
    if offset >= strings.len() as u64 {
        return None;
    }
    Some(&strings[offset as usize..])
}

/// The bytes from `offset` on up to the next zero byte.
pub(crate) fn name_at(strings: &[u8], offset: u64) -> Option<&[u8]>
    ensures value { option_copied result ≡ name_of strings.now offset }
    ensures place { IfSome result (λ n. IsNameAt strings.now offset n.now) }
{
    if offset >= strings.len() as u64 {
        return None;
    }
    let rest = &strings[offset as usize..];
    match zero_at(rest) {
        Some(len) => Some(&rest[..len]),
        None => Some(rest),
    }
}

fn has_slash(name: &[u8]) -> bool
    ensures { result ≡ has_slash_of name.now }
{
    name.iter().any(|byte| *byte == b'/')
}

/// Whether this is the name of a file in a directory.
pub(crate) fn is_file_name(name: &[u8]) -> bool
    ensures { result ≡ is_file_name_of name.now }
{
    !name.is_empty() && is_plain(name) && !has_slash(name)
}

/// The names of the needed libraries in order, and the object's own.
#[derive(Drop)]
pub(crate) struct FileNames {
    pub(crate) needed: Vec<Name>,
    pub(crate) soname: Option<Name>,
}

#[tactic(auto, unfolding(crate::specs::FileNames::file_name_of))]
fn file_name<'a>(strings: &'a [u8], entry: &DynEntry) -> Result<&'a [u8], Fault>
    ensures { Answers (λ n. n.now) result (file_name_of strings.now entry.now) }
{
    let fault = Fault {
        check: Check::NeededName,
        at: entry.at,
    };
    let name = name_at(strings, entry.value).ok_or(fault)?;
    refuse(!is_file_name(name), Check::NeededName, entry.at)?;
    refuse(name.len() > 255, Check::NameLength, 0)?;
    Ok(name)
}

#[tactic(auto, unfolding(crate::specs::FileNames::name_step))]
fn with_entry(
    alloc: Global,
    names: FileNames,
    strings: &[u8],
    entry: &DynEntry,
) -> Result<FileNames, Stop>
    ensures { Gives (λ n. names_view n) result (name_step strings.now (names_view names) entry.now) }
{
    let FileNames { mut needed, soname } = names;
    if entry.tag == NEEDED {
        let name = file_name(strings, entry)?;
        needed.push(Name::of(alloc, name)?)?;
        Ok(FileNames { needed, soname })
    } else if entry.tag == SONAME {
        let name = file_name(strings, entry)?;
        let soname = Some(Name::of(alloc, name)?);
        Ok(FileNames { needed, soname })
    } else {
        Ok(FileNames { needed, soname })
    }
}

#[tactic(auto, using(cap_base::proofs::Walk::steps_more, cap_base::proofs::Walk::steps_stop))]
pub(crate) fn read_names(
    alloc: Global,
    strings: &[u8],
    listed: &[DynEntry],
) -> Result<FileNames, Stop>
    ensures { Gives (λ n. names_view n) result (names_of strings.now listed.now) }
{
    let mut names = FileNames {
        needed: Vec::new(alloc),
        soname: None,
    };
    for entry in listed {
        names = with_entry(alloc, names, strings, entry)?;
    }
    Ok(names)
}
