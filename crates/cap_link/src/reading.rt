//! Reading the inputs.

ghost use Rattle.std.specs.Prelude.{◌≡◌, ℕ, ◌+◌, ◌-◌, ◌<◌, ◌≤◌, All, map, not, length, IfOk, OnOk, OnErr};
ghost use Rattle.std.specs.List.{list_any, suffix_len};
ghost use Rattle.std.specs.Str.{bytes_eq};
ghost use Rattle.cap_base.specs.Steps.{Yields};
ghost use Rattle.cap_syms.specs.Distinct.{with_new};
ghost use Rattle.cap_link.specs.Inputs.{is_shared as is_shared_of, is_slash, needed_name as needed_name_of, files_of, shared_input, relocatable_input, read_input as read_input_of};
ghost use Rattle.cap_base.specs.Steps.{in_file};
ghost use Rattle.cap_link.specs.Counts.{AreRead, IsShortName};

use crate::inputs::Inputs;
use cap_base::{Name, NameList, NoMemory, Refusal, u16_at};
use cap_elf::{DynFile, RelFile, read_dyn, read_rel};
use std::alloc::Global;
use std::marker::Model;

/// What was read: the relocatable objects, the shared objects, and the names under which these are needed.
#[derive(Drop)]
pub(crate) struct Files {
    pub(crate) rels: Vec<RelFile>,
    pub(crate) dyns: Vec<DynFile>,
    pub(crate) needed: NameList,
}

impl Model for Files {
    ghost use Rattle.std.specs.Prelude.{map};
    ghost use Rattle.cap_link.specs.Inputs.{FilesRead};

    ghost Value = { FilesRead };

    ghost view = { λ f. record { rels = f.rels.items; dyns = f.dyns.items; needed = map (λ n. n.0) f.needed } };
}

/// Whether an input is a shared object, by its type (e_type).
fn is_shared(bytes: &[u8]) -> bool
    ensures { result ≡ is_shared_of bytes.now }
{
    match u16_at(bytes, 16) {
        Some(kind) => kind == 3,
        None => false,
    }
}

/// Where the part behind the last slash begins.
fn name_start(word: &[u8]) -> usize
    ensures value { result ≡ length word.now - suffix_len (λ b. not (is_slash b)) word.now }
    ensures within { result ≤ length word.now }
{
    let mut start = word.len();
    while start > 0 && word[start - 1] != b'/' {
        start -= 1;
    }
    start
}

/// The name under which a shared object is needed.
fn needed_name<'a>(word: &'a [u8], object: &'a DynFile) -> &'a [u8]
    ensures value { result.now ≡ needed_name_of word.now object.now.records.soname }
    ensures short { length word.now ≤ 255 → length result.now ≤ 255 }
{
    match object.soname() {
        Some(name) => name,
        None => &word[name_start(word)..],
    }
}

/// Whether a name is among others.
#[tactic(auto, using(crate::proofs::ReadingLemmas::among_skip, crate::proofs::ReadingLemmas::among_hit, crate::proofs::ReadingLemmas::among_none))]
fn is_among(names: &NameList, name: &[u8]) -> bool
    ensures { result ≡ list_any (bytes_eq name.now) (map (λ n. n.0) names.now) }
{
    for i in 0..names.len() {
        if name == names.name(i) {
            return true;
        }
    }
    false
}

/// Adds a name, where it isn't there yet. A refusal changes nothing.
fn add_needed(names: &mut NameList, name: &[u8]) -> Result<(), NoMemory>
    ensures short { All IsShortName (map (λ n. n.0) names.old) → length name.now ≤ 255 → All IsShortName (map (λ n. n.0) names.new) }
    ensures few { length (map (λ n. n.0) names.new) ≤ length (map (λ n. n.0) names.old) + 1 }
    ensures ok { OnOk result (map (λ n. n.0) names.new ≡ with_new bytes_eq (map (λ n. n.0) names.old) name.now) }
    ensures err { OnErr result (names.new ≡ names.old) }
{
    if is_among(names, name) {
        return Ok(());
    }
    names.push(name, true)
}

impl Files {
    ghost use Rattle.cap_link.specs.Inputs.{none_read};

    /// Nothing. It takes no memory.
    fn new(alloc: Global) -> Files
        ensures none { result ≡ none_read }
        ensures few { AreRead 0 result }
    {
        Files {
            rels: Vec::new(alloc),
            dyns: Vec::new(alloc),
            needed: NameList::new(alloc),
        }
    }

    /// Reads a shared object.
    fn read_shared(
        self,
        alloc: Global,
        number: u32,
        word: &[u8],
        bytes: &[u8],
    ) -> Result<Files, Refusal>
        requires short { length word.now ≤ 255 }
        ensures value { Yields (λ f. f) result (in_file number (shared_input self number word.now bytes.now)) }
        ensures few { (n : ℕ) → AreRead n self → IfOk result (AreRead (n + 1)) }
    {
        let Files {
            rels,
            mut dyns,
            mut needed,
        } = self;
        let object = read_dyn(alloc, number, bytes)?;
        add_needed(&mut needed, needed_name(word, &object))?;
        dyns.push(object)?;
        Ok(Files { rels, dyns, needed })
    }

    /// Reads a relocatable object.
    fn read_relocatable(self, alloc: Global, number: u32, bytes: Vec<u8>) -> Result<Files, Refusal>
        ensures value { Yields (λ f. f) result (in_file number (relocatable_input self number bytes.items)) }
        ensures few { (n : ℕ) → AreRead n self → IfOk result (AreRead (n + 1)) }
    {
        let Files {
            mut rels,
            dyns,
            needed,
        } = self;
        rels.push(read_rel(alloc, number, bytes)?)?;
        Ok(Files { rels, dyns, needed })
    }

    /// Reads one more input.
    fn read(self, alloc: Global, number: u32, file: (Name, Vec<u8>)) -> Result<Files, Refusal>
        requires short { length file.0 ≤ 255 }
        ensures value { Yields (λ f. f) result (in_file number (read_input_of self number (file.0, file.1.items))) }
        ensures few { (n : ℕ) → AreRead n self → IfOk result (AreRead (n + 1)) }
    {
        let (word, bytes) = file;
        if is_shared(&bytes) {
            self.read_shared(alloc, number, word.bytes(), &bytes)
        } else {
            self.read_relocatable(alloc, number, bytes)
        }
    }
}

/// Reads all inputs, by their places.
pub(crate) fn read_files(alloc: Global, inputs: Inputs) -> Result<Files, Refusal>
    ensures value { Yields (λ f. f) result (files_of inputs) }
    ensures few { IfOk result (AreRead 256) }
{
    let mut files = Files::new(alloc);
    let mut number = 0;
    for file in inputs.files {
        files = files.read(alloc, number, file)?;
        number += 1;
    }
    Ok(files)
}
