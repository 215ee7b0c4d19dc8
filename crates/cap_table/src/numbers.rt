//! The index of the linked file's symbol of each row.

ghost use Rattle.std.specs.Prelude.{◌≡◌, ◌+◌, ◌^◌, ◌<◌, Some, All, drop, length, replicate, IfOk};
ghost use Rattle.cap_table.specs.Lists.{symbol_index};
ghost use Rattle.cap_table.specs.Numbers.{AreNumbers, AreNumbersFrom};

use cap_base::NoMemory;
use std::alloc::Global;
use std::marker::Model;

/// The rows that are symbols of the linked file, and by each row the index of its symbol, 0 where it has none.
#[derive(Drop)]
pub(crate) struct SymbolNumbers<'a> {
    rows: &'a [u32],
    by_row: Vec<u32>,
}

impl<'a> Model for SymbolNumbers<'a> {
    ghost use Rattle.std.specs.Prelude.{List, ℕ};
    ghost use Rattle.cap_table.specs.Numbers.{AreNumbers};

    ghost Value = { List ℕ };

    ghost view = { λ n. n.rows.now };

    ghost invariant = { λ n. AreNumbers n.rows.now n.by_row.items };
}

impl<'a> SymbolNumbers<'a> {
    ghost use Rattle.cap_table.specs.Lists.{symbol_index};

    /// Numbers the rows, each of them below `count`.
    pub(crate) fn new(
        alloc: Global,
        rows: &'a [u32],
        count: u32,
    ) -> Result<SymbolNumbers<'a>, NoMemory>
        requires { All (λ row. row < count) rows.now }
        ensures { IfOk result (λ n. n ≡ rows.now) }
    {
        let by_row = numbers(alloc, rows, count)?;
        Ok(SymbolNumbers { rows, by_row })
    }

    /// The index of the symbol of a row; 0 where there is none.
    pub(crate) fn of(&self, row: Option<u32>) -> u32
        ensures { result ≡ symbol_index self.now row }
    {
        match row {
            Some(row) => number_in(self.rows, &self.by_row, row),
            None => 0,
        }
    }
}

fn number_in(rows: &[u32], by_row: &[u32], row: u32) -> u32
    requires { AreNumbers rows.now by_row.now }
    ensures { result ≡ symbol_index rows.now (Some row) }
{
    match by_row.get(row as usize) {
        Some(number) => *number,
        None => 0,
    }
}

/// The index of the symbol of each row. The rows are gone through backwards, so that the first of equal rows stays.
fn numbers(alloc: Global, rows: &[u32], count: u32) -> Result<Vec<u32>, NoMemory>
    requires { All (λ row. row < count) rows.now }
    ensures { IfOk result (λ by_row. AreNumbers rows.now by_row.items) }
{
    let len = u32::try_from(rows.len()).map_err(|_| NoMemory)?;
    let mut by_row = none(alloc, count)?;
    for k in (0..len).rev() {
        enter(&mut by_row, rows, k);
    }
    Ok(by_row)
}

fn none(alloc: Global, count: u32) -> Result<Vec<u32>, NoMemory>
    ensures { IfOk result (λ by_row. by_row.items ≡ replicate count 0) }
{
    Ok(vec![in alloc; 0; count as usize]?)
}

/// Enters the row of the symbol behind `k` others, where all behind it are entered.
fn enter(by_row: &mut Vec<u32>, rows: &[u32], k: u32)
    requires k { k < length rows.now }
    requires few { length rows.now < 2 ^ 32 }
    requires rows { All (λ row. row < length by_row.old.items) rows.now }
    requires behind { AreNumbersFrom (k + 1) (drop (k + 1) rows.now) by_row.old.items }
    ensures numbers { AreNumbersFrom k (drop k rows.now) by_row.new.items }
    ensures len { length by_row.new.items ≡ length by_row.old.items }
{
    let row = rows[k as usize] as usize;
    by_row[row] = k + 1;
}
