//! The table of names, and the resolution that makes it.

ghost use Rattle.std.specs.Prelude.{◌≡◌, ◌+◌, ◌≤◌, ◌++◌, ◌∷◌, [], ℕ, length, map, IfOk, OnOk};
ghost use Rattle.std.specs.List.{list_any};
ghost use Rattle.cap_base.specs.Steps.{Yields, each};
ghost use Rattle.cap_elf.specs.RelObject.{file_of};
ghost use Rattle.cap_syms.specs.Output.{is_program as is_program_of};
ghost use Rattle.cap_syms.specs.Decisions.{is_strongly_absent as is_strongly_absent_of};
ghost use Rattle.cap_syms.specs.Resolved.{resolve_of};
ghost use Rattle.cap_syms.specs.IsResolved.{IsResolved};
ghost use Rattle.cap_syms.specs.Tally.{second_from, refuse_this, decided_row, is_missing as is_missing_of, refuse_name, refuse_missing as refuse_missing_row};

use crate::decision::bound;
use crate::entries::{Bound, Entry, Shape};
use crate::names::Names;
use crate::offered::offered;
use crate::places::Rows;
use crate::seen::{Seen, tally_all};
use crate::tally::{Second, Tally};
use cap_base::{Check, Fault, Kind, NoMemory, Refusal};
use cap_elf::{DynFile, RelFile};
use std::alloc::Global;
use std::marker::Model;

/// The names of the relocatable inputs that aren't local, in order of first appearance, each with the decision on it.
#[derive(Drop)]
pub struct Table<'a> {
    names: Names<'a>,
    tallies: Vec<Tally>,
    program: bool,
    rows: Rows,
}

impl<'a> Model for Table<'a> {
    ghost use Rattle.std.specs.Prelude.{◌≡◌, List, map, zip, length, ◌<◌, ◌^◌};
    ghost use Rattle.cap_syms.specs.Resolved.{Resolved};
    ghost use Rattle.cap_syms.specs.Tally.{decided_row};

    ghost Value = { List Resolved };

    ghost view = { λ t. map (decided_row t.program) (zip t.names t.tallies.items) };

    ghost invariant = { λ t. (length t.names ≡ length t.tallies.items) × (length t.tallies.items < 2 ^ 32) };
}

/// The number of the input at a place; 0 where there is none.
fn number_of(rels: &[RelFile], file: u32) -> u32
    ensures { result ≡ (file_of rels.now file).number }
{
    match rels.get(file as usize) {
        Some(rel) => rel.number(),
        None => 0,
    }
}

/// Refuses a name that has a second definition, at that one.
fn refuse_second(rels: &[RelFile], second: Option<Second>) -> Result<(), Refusal>
    ensures { result ≡ refuse_this rels.now second }
{
    match second {
        Some(second) => {
            let fault = Fault {
                check: Check::DuplicateDefinition,
                at: second.at,
            };
            Err(fault.refusal(number_of(rels, second.file)))
        }
        None => Ok(()),
    }
}

/// Refuses the first name that has a second definition.
#[tactic(auto, using(cap_base::proofs::Walk::steps_more, cap_base::proofs::Walk::steps_fault, cap_base::proofs::Walk::steps_done))]
fn refuse_seconds(rels: &[RelFile], tallies: &[Tally]) -> Result<(), Refusal>
    ensures { result ≡ each (λ t. refuse_this rels.now (second_from t)) tallies.now }
{
    for tally in tallies {
        refuse_second(rels, tally.second())?;
    }
    Ok(())
}

/// The table of the names that were seen, each with its decision.
fn decide<'a>(rels: &[RelFile], seen: Seen<'a>, program: bool) -> Result<Table<'a>, NoMemory>
    ensures { IfOk result (λ table. table ≡ map (decided_row program) seen.entry) }
{
    let names = seen.names;
    let tallies = seen.tallies;
    let mut rows = seen.rows;
    rows.set_starts(rels)?;
    Ok(Table {
        names,
        tallies,
        program,
        rows,
    })
}

fn is_strongly_absent(shape: Shape) -> bool
    ensures { result ≡ is_strongly_absent_of shape }
{
    match shape {
        Shape::Defined | Shape::Common { .. } => false,
        Shape::Absent { weak } => !weak,
    }
}

/// Whether a name is absent and must not be: a reference isn't weak, and it can't be left to load.
fn is_missing(program: bool, offered: &Names, name: &[u8], entry: Entry) -> bool
    ensures { result ≡ is_missing_of program offered.now name.now entry }
{
    is_strongly_absent(entry.shape) && (entry.visibility != 0 || (program && !offered.has(name)))
}

/// Refuses a name that is missing, at the occurrence that decides on it.
fn refuse_missing(
    rels: &[RelFile],
    program: bool,
    offered: &Names,
    name: &[u8],
    entry: Entry,
) -> Result<(), Refusal>
    ensures { result ≡ refuse_name rels.now program offered.now name.now entry }
{
    if is_missing(program, offered, name, entry) {
        Err(Refusal::Unresolved {
            file: number_of(rels, entry.file),
            symbol: entry.symbol,
        })
    } else {
        Ok(())
    }
}

/// Whether what is linked is a program.
fn is_program(kind: &Kind) -> bool
    ensures { result ≡ is_program_of kind.now }
{
    match kind {
        Kind::Program => true,
        Kind::Shared(_) => false,
    }
}

/// Resolves the names of the inputs: all symbols that aren't local (STB_LOCAL) of the relocatable ones, in order.
///
/// Of the occurrences of a name that which decides is the first GLOBAL definition, else the first common symbol, with
/// the largest size (in bytes) and the largest alignment of all common symbols of the name, else the first WEAK
/// definition. Else the name is absent, weakly where every reference is WEAK. The visibility is the most constraining of
/// all occurrences (System V gABI, "Symbol Table": "the most constraining visibility attribute must be propagated").
/// The merging of common symbols is this project's own.
///
/// - Malformed comes exactly where a name has two GLOBAL definitions, by the check of the duplicate definition: for the
///   first such name, with the number of the file of its second one, and the offset of that symbol's record.
/// - Unresolved comes exactly where no name has two, and an absent name with a reference that isn't WEAK can't be left
///   to load: its visibility isn't DEFAULT, or a program is linked and no shared input has a symbol of that name that
///   can be chosen. It has the number of the file, and the index of the symbol, of the first GLOBAL reference to the
///   first such name.
/// - NoMemory may come in place of any answer.
pub fn resolve<'a>(
    alloc: Global,
    rels: &'a [RelFile],
    dyns: &[DynFile],
    kind: &Kind,
) -> Result<Table<'a>, Refusal>
    requires few { length rels.now + length dyns.now ≤ 256 }
    ensures value { Yields (λ table. table) result (resolve_of rels.now dyns.now (is_program_of kind.now)) }
    ensures sound { IfOk result (IsResolved rels.now) }
{
    let program = is_program(kind);
    let seen = tally_all(alloc, rels)?;
    refuse_seconds(rels, &seen.tallies)?;
    let table = decide(rels, seen, program)?;
    let offered = offered(alloc, dyns, program)?;
    table.refuse_missing(rels, &offered, program)?;
    Ok(table)
}

impl<'a> Table<'a> {
    ghost use Rattle.std.specs.Prelude.{◌<◌};
    ghost use Rattle.cap_syms.specs.Resolved.{row_of, index_of};

    /// Refuses the first name that is missing.
    fn refuse_missing(
        &self,
        rels: &[RelFile],
        offered: &Names,
        program: bool,
    ) -> Result<(), Refusal>
        ensures { result ≡ each (refuse_missing_row rels.now program offered.now) self.now }
    {
        for i in 0..self.tallies.len() {
            refuse_missing(
                rels,
                program,
                offered,
                self.names.name(i),
                self.tallies[i].entry(),
            )?;
        }
        Ok(())
    }

    /// How many names there are.
    pub fn len(&self) -> u32
        ensures { result ≡ length self.now }
    {
        self.tallies.len() as u32
    }

    /// The name of a row.
    pub fn name(&self, row: u32) -> &[u8]
        requires { row < length self.now }
        ensures { result.now ≡ (row_of self.now row).name }
    {
        self.names.name(row as usize)
    }

    /// The decision on the name of a row.
    pub fn entry(&self, row: u32) -> Entry
        requires { row < length self.now }
        ensures { result ≡ (row_of self.now row).entry }
    {
        self.tallies[row as usize].entry()
    }

    /// How references to the name of a row are bound.
    pub fn bound(&self, row: u32) -> Bound
        requires { row < length self.now }
        ensures { result ≡ (row_of self.now row).bound }
    {
        bound(self.program, self.tallies[row as usize].entry())
    }

    /// The row of a name; None exactly where no input names it. The look-up is by hash.
    pub fn find(&self, name: &[u8]) -> Option<u32>
        ensures { result ≡ index_of self.now name.now }
    {
        match self.names.find(name) {
            Some(row) => Some(row as u32),
            None => None,
        }
    }

    /// The row of a name, as `find` gives it. A name that this symbol of the input at this place has is compared once,
    /// and any other is looked up by hash.
    pub fn find_at(&self, file: u32, symbol: u32, name: &[u8]) -> Option<u32>
        ensures { result ≡ index_of self.now name.now }
    {
        match self.names.find_at(self.rows.of(file, symbol), name) {
            Some(row) => Some(row as u32),
            None => None,
        }
    }
}
