//! Where the names of symbols were entered.

use cap_base::NoMemory;
use cap_elf::RelFile;
use std::alloc::Global;

/// The rows at which the symbols of all inputs were entered, in order. Nothing rests on them: they say where a name is
/// sought first.
#[derive(Drop)]
pub(crate) struct Rows {
    rows: Vec<u32>,
    starts: Vec<usize>,
}

impl Rows {
    /// No rows, with room for those of so many symbols.
    pub(crate) fn with_capacity(alloc: Global, symbols: usize) -> Result<Rows, NoMemory> {
        let rows = Vec::with_capacity(alloc, symbols)?;
        Ok(Rows {
            rows,
            starts: Vec::new(alloc),
        })
    }

    /// Appends the row of the next symbol.
    pub(crate) fn push(&mut self, row: usize) -> Result<(), NoMemory> {
        self.rows.push(u32::try_from(row).unwrap_or(0))?;
        Ok(())
    }

    /// Behind the row of the last symbol: the names of one input often follow one another as those of another do.
    pub(crate) fn next(&self) -> usize {
        match self.rows.last() {
            Some(row) => (*row as usize).wrapping_add(1),
            None => 0,
        }
    }

    /// Notes where the symbols of each input begin.
    pub(crate) fn set_starts(&mut self, rels: &[RelFile]) -> Result<(), NoMemory> {
        let mut start = 0usize;
        for rel in rels {
            self.starts.push(start)?;
            start = start.saturating_add(rel.symbols().len());
        }
        Ok(())
    }

    /// The row of a symbol; 0 where there is none.
    pub(crate) fn of(&self, file: u32, symbol: u32) -> usize {
        match self.starts.get(file as usize) {
            Some(start) => self.at(start.saturating_add(symbol as usize)),
            None => 0,
        }
    }

    fn at(&self, i: usize) -> usize {
        match self.rows.get(i) {
            Some(row) => *row as usize,
            None => 0,
        }
    }
}
