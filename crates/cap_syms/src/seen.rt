//! One pass over the relocatable inputs.

ghost use Rattle.std.specs.Prelude.{◌≡◌, ◌<◌, ◌≤◌, [], length, All, IfOk, OnOk, fold, vec_len, vec_capacity};
ghost use Rattle.std.specs.List.{enumerate_from};
ghost use Rattle.cap_elf.specs.RelObject.{name_of, symbol_of};
ghost use Rattle.cap_elf.specs.IsRelRead.{IsRelRead};
ghost use Rattle.cap_syms.specs.Occurrences.{occurrences, is_local as is_local_of};
ghost use Rattle.cap_syms.specs.Tally.{noted, noted_if_outside, entered, with_input, tallied};

use crate::names::Names;
use crate::places::Rows;
use crate::tally::{Spot, Tally};
use cap_base::NoMemory;
use cap_elf::{RelFile, Symbol};
use std::alloc::Global;
use std::marker::Model;

/// The names so far, in order of first appearance, each with its tally.
#[derive(Drop)]
pub(crate) struct Seen<'a> {
    pub(crate) names: Names<'a>,
    pub(crate) tallies: Vec<Tally>,
    pub(crate) rows: Rows,
}

impl<'a> Model for Seen<'a> {
    ghost use Rattle.std.specs.Prelude.{◌≡◌, List, ℕ, zip, length, ◌<◌, ◌^◌};
    ghost use Rattle.cap_syms.specs.declared.tally.Tally.{Tally};

    ghost Value = { List (List ℕ × Tally) };

    ghost view = { λ s. zip s.names s.tallies.items };

    ghost invariant = { λ s. (length s.names ≡ length s.tallies.items) × (length s.tallies.items < 2 ^ 32) };
}

/// Takes one more occurrence into the tally of this row; a row behind the last is a new one, for which there is room.
fn enter(tallies: &mut Vec<Tally>, row: usize, spot: Spot, symbol: Symbol)
    requires there { row ≤ length tallies.old.items }
    requires room { vec_len tallies.old < vec_capacity tallies.old }
    ensures { tallies.new.items ≡ entered tallies.old.items row (record { name = []; file = spot.file; symbol = spot.symbol; as_is = symbol }) }
{
    if row == tallies.len() {
        tallies.push_reserved(Tally::new().with(spot, symbol));
    } else {
        tallies[row] = tallies[row].with(spot, symbol);
    }
}

impl<'a> Seen<'a> {
    /// No names, with room for those of so many symbols, where each name is defined once and referred to once.
    fn with_capacity(alloc: Global, symbols: usize) -> Result<Seen<'a>, NoMemory>
        ensures { IfOk result (λ seen. seen ≡ []) }
    {
        Ok(Seen {
            names: Names::with_capacity(alloc, symbols / 2)?,
            tallies: Vec::with_capacity(alloc, symbols / 2)?,
            rows: Rows::with_capacity(alloc, symbols)?,
        })
    }

    /// Takes in one more occurrence of a name.
    fn note(&mut self, name: &'a [u8], spot: Spot, symbol: Symbol) -> Result<(), NoMemory>
        ensures { OnOk result (self.new ≡ noted self.old (record { name = name.now; file = spot.file; symbol = spot.symbol; as_is = symbol })) }
    {
        if self.tallies.len() >= u32::MAX as usize {
            return Err(NoMemory);
        }
        self.tallies.reserve(1)?;
        let row = self.names.add_near(self.rows.next(), name)?;
        enter(&mut self.tallies, row, spot, symbol);
        self.rows.push(row)?;
        Ok(())
    }

    /// Passes over a symbol.
    fn pass_over(&mut self) -> Result<(), NoMemory>
        ensures { self.new ≡ self.old }
    {
        self.rows.push(0)
    }

    /// Takes in a symbol of an input, unless it is local.
    fn note_symbol(&mut self, rel: &'a RelFile, spot: Spot, symbol: &Symbol) -> Result<(), NoMemory>
        requires { spot.symbol < length rel.now.symbols }
        ensures { OnOk result (self.new ≡ noted_if_outside self.old (record { name = name_of rel.now spot.symbol; file = spot.file; symbol = spot.symbol; as_is = symbol.now })) }
    {
        if symbol.binding == 0 {
            self.pass_over()
        } else {
            self.note(rel.name(spot.symbol), spot, *symbol)
        }
    }

    /// Takes in the symbols of the input at this place.
    fn note_input(&mut self, file: u32, rel: &'a RelFile) -> Result<(), NoMemory>
        ensures seen { OnOk result (self.new ≡ with_input self.old (file, rel.now)) }
        ensures sound { IsRelRead rel.now }
    {
        let symbols = rel.symbols();
        for i in 0..symbols.len() {
            let spot = Spot {
                file,
                symbol: i as u32,
            };
            self.note_symbol(rel, spot, &symbols[i])?;
        }
        Ok(())
    }
}

/// How many symbols the inputs have.
fn count_symbols(rels: &[RelFile]) -> usize {
    let mut count = 0usize;
    for rel in rels {
        count = count.saturating_add(rel.symbols().len());
    }
    count
}

/// The names of the inputs, in order of first appearance, each with the tally of its occurrences.
pub(crate) fn tally_all<'a>(alloc: Global, rels: &'a [RelFile]) -> Result<Seen<'a>, NoMemory>
    requires few { length rels.now ≤ 256 }
    ensures seen { IfOk result (λ seen. seen ≡ tallied (occurrences rels.now)) }
    ensures sound { OnOk result (All IsRelRead rels.now) }
{
    let mut seen = Seen::with_capacity(alloc, count_symbols(rels))?;
    for file in 0..rels.len() {
        seen.note_input(file as u32, &rels[file])?;
    }
    Ok(seen)
}
