//! Shared objects whose hash tables were adopted.

ghost use Rattle.std.specs.Prelude.{◌≡◌, ◌<◌, [], length, map, zip, slice_index_or, IfOk, IfSome};
ghost use Rattle.cap_chain.specs.Adopted.{walk_of};
ghost use Rattle.cap_elf.specs.Exported.{is_defined as is_defined_at};
ghost use Rattle.cap_elf.specs.Records.{null_symbol};
ghost use Rattle.cap_names.specs.Hash.{system_v_hash_of};
ghost use Rattle.cap_names.specs.Named.{first_defined, IsOnly};
ghost use Rattle.cap_scope.specs.Candidates.{can_be_chosen as is_choosable, defined_name, hash_table, candidate as candidate_of, candidates_in, list_of};
ghost use Rattle.cap_scope.specs.Making.{MakesObject};

use crate::choice::{Candidate, Hit, LookUp};
use cap_base::{Check, Fault, NameList, NoMemory, Refusal};
use cap_chain::{AdoptRefusal, ChainCounts, count_chains};
use cap_elf::{DynFile, Place, Symbol};
use std::alloc::Global;
use std::marker::Model;

/// A shared object, and the counts of its hash chains. Contracts see the file.
#[derive(Drop)]
pub struct Object {
    file: DynFile,
    counts: ChainCounts,
}

impl Model for Object {
    ghost use Rattle.cap_chain.specs.Counted.{IsCounted};
    ghost use Rattle.cap_elf.specs.DynView.{DynValue};
    ghost use Rattle.cap_scope.specs.Candidates.{hash_table};

    ghost Value = { DynValue };

    ghost view = { λ o. o.file };

    ghost invariant = { λ o. IsCounted o.file.records.hash_words (hash_table o.file.records).names o.counts };
}

/// Whether a symbol of this place is defined: in a section, or absolute.
fn is_defined(place: Place) -> bool
    ensures { result ≡ is_defined_at place }
{
    match place {
        Place::Absolute | Place::Section(_) => true,
        Place::Undefined | Place::Common => false,
    }
}

/// Whether another object may choose the symbol: it is defined, GLOBAL or WEAK, of visibility DEFAULT or PROTECTED.
fn can_be_chosen(symbol: Symbol) -> bool
    ensures { result ≡ is_choosable symbol }
{
    is_defined(symbol.place)
        && (symbol.binding == 1 || symbol.binding == 2)
        && (symbol.visibility == 0 || symbol.visibility == 3)
}

/// The names of the symbols, each defined where its symbol can be chosen.
fn names_of(alloc: Global, file: &DynFile) -> Result<NameList, NoMemory>
    ensures { IfOk result (λ names. names ≡ map defined_name (zip file.now.records.symbols file.now.records.names)) }
{
    let symbols = file.symbols();
    let mut names = NameList::new(alloc);
    for i in 0..symbols.len() {
        names.push(file.name(i as u32), can_be_chosen(symbols[i]))?;
    }
    Ok(names)
}

/// The symbol that can be chosen and has this name, whose hash is given; None exactly where there is none.
fn find(file: &DynFile, name: &[u8], hash: u32) -> Option<u32>
    requires { hash ≡ system_v_hash_of name.now }
    ensures first { result ≡ first_defined (hash_table file.now.records).names name.now }
    ensures only { IsOnly (hash_table file.now.records).names name.now result }
{
    match file.find_exported(name, hash) {
        Some(symbol) => {
            if can_be_chosen(file.symbols()[symbol as usize]) {
                Some(symbol)
            } else {
                None
            }
        }
        None => None,
    }
}

/// A symbol of the object that has the number `i`, as a definition.
fn candidate(file: &DynFile, i: u32, symbol: u32) -> Candidate
    requires { symbol < length file.now.records.symbols }
    ensures { result ≡ candidate_of i (symbol, (slice_index_or file.now.records.symbols symbol (null_symbol 0), [])) }
{
    Candidate {
        hit: Hit { object: i, symbol },
        is_strong: file.symbols()[symbol as usize].binding == 1,
    }
}

impl Object {
    /// The object of a file.
    ///
    /// Malformed comes exactly where the words of its hash table aren't a sound table of the names of its symbols, in
    /// which a name counts as defined where its symbol can be chosen: with the number of the file and the offset of the
    /// table.
    pub fn new(alloc: Global, file: DynFile) -> Result<Object, Refusal>
        ensures { MakesObject file result }
    {
        let Ok(names) = names_of(alloc, &file) else {
            return Err(Refusal::NoMemory);
        };
        match count_chains(alloc, file.hash_words(), &names) {
            Ok(counts) => Ok(Object { file, counts }),
            Err(AdoptRefusal::Fault) => {
                let fault = Fault {
                    check: Check::HashChain,
                    at: file.hash_at(),
                };
                Err(fault.refusal(file.number()))
            }
            Err(AdoptRefusal::NoMemory) => Err(Refusal::NoMemory),
        }
    }

    /// The file of the object.
    pub fn file(&self) -> &DynFile
        ensures { result.now ≡ self.now }
    {
        &self.file
    }

    /// The names of its symbols, each defined where its symbol can be chosen.
    pub fn names(&self, alloc: Global) -> Result<NameList, NoMemory>
        ensures { IfOk result (λ names. names ≡ (hash_table self.now.records).names) }
    {
        names_of(alloc, &self.file)
    }

    /// The definition of a name, whose hash is given, in this object, which has the number `i`; and how many entries of
    /// the name's chain its look-up passes. It takes no step along the chain.
    pub(crate) fn look_up(&self, i: u32, name: &[u8], hash: u32) -> LookUp
        requires { hash ≡ system_v_hash_of name.now }
        ensures value { candidates_in self.now.records i name.now ≡ list_of result.found }
        ensures there { IfSome result.found (λ c. (c.hit.object ≡ i) × (c.hit.symbol < length self.now.records.symbols)) }
        ensures walked { result.walked ≡ walk_of (hash_table self.now.records) name.now }
    {
        let found = find(&self.file, name, hash);
        let walked = self.counts.passed(self.file.hash_words(), hash, found);
        match found {
            Some(symbol) => LookUp {
                found: Some(candidate(&self.file, i, symbol)),
                walked,
            },
            None => LookUp {
                found: None,
                walked,
            },
        }
    }
}
