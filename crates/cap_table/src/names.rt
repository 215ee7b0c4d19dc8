//! The names of the linked file: a string table (gABI, "String Table").

ghost use Rattle.std.specs.Prelude.{◌≡◌, ◌++◌, ◌<◌, ◌≤◌, [], ◌∷◌, All, take, drop, length, IfOk, OnOk, option_to_list};
ghost use Rattle.cap_table.specs.Planned.{symbol_names as symbol_names_of, name_bytes};
ghost use Rattle.cap_table.specs.Lists.{name_offsets};
ghost use Rattle.cap_table.specs.NameTable.{NamesValue, with_names, null_name, behind, names_of};

use crate::planned::Plan;
use crate::sources::Sources;
use cap_base::NoMemory;
use cap_syms::Table;
use std::alloc::Global;
use std::marker::Model;

/// The bytes of names, and where each of them begins.
#[derive(Drop)]
struct Names {
    bytes: Vec<u8>,
    offsets: Vec<u32>,
}

impl Model for Names {
    ghost use Rattle.cap_table.specs.NameTable.{NamesValue};

    ghost Value = { NamesValue };

    ghost view = { λ n. record { bytes = n.bytes.items; offsets = n.offsets.items } };
}

impl Names {
    ghost use Rattle.cap_table.specs.NameTable.{with_name};

    /// Appends a name and a zero byte.
    #[tactic(auto, unfolding(crate::specs::NameTable::with_name))]
    fn push(&mut self, name: &[u8]) -> Result<(), NoMemory>
        ensures { OnOk result (self.new ≡ with_name self.old name.now) }
    {
        let at = u32::try_from(self.bytes.len()).map_err(|_| NoMemory)?;
        self.offsets.push(at)?;
        self.bytes.extend_from_slice(name)?;
        self.bytes.push(0)?;
        Ok(())
    }
}

/// The names of the symbols, the file's own name and the needed names: the bytes; where the name of each symbol begins,
/// that of the null symbol first; and where each of the others begins.
pub(crate) fn all_names(
    alloc: Global,
    plan: &Plan,
    table: &Table<'_>,
) -> Result<(Vec<u8>, Vec<u32>, Vec<u32>), NoMemory>
    requires { All (λ row. row < length table.now) plan.now.symbols }
    ensures bytes { IfOk result (λ n. n.0.items ≡ name_bytes (names_of table.now plan.now)) }
    ensures symbols { IfOk result (λ n. n.1.items ≡ 0 ∷ take (length plan.now.symbols) (name_offsets 1 (names_of table.now plan.now))) }
    ensures own { IfOk result (λ n. n.2.items ≡ drop (length plan.now.symbols) (name_offsets 1 (names_of table.now plan.now))) }
    ensures long { IfOk result (λ n. length (option_to_list plan.now.soname) ≤ length n.2.items) }
{
    let room = Vec::with_capacity(alloc, plan.sizes().names as usize)?;
    let Names { bytes, offsets } = symbol_names(alloc, room, table, plan.symbols())?;
    let Names {
        bytes,
        offsets: own,
    } = own_names(alloc, bytes, plan)?;
    Ok((bytes, offsets, own))
}

/// The names of symbols, the null symbol first.
fn symbol_names(
    alloc: Global,
    bytes: Vec<u8>,
    table: &Table<'_>,
    rows: &[u32],
) -> Result<Names, NoMemory>
    requires none { bytes.items ≡ [] }
    requires rows { All (λ row. row < length table.now) rows.now }
    ensures { IfOk result (λ names. names ≡ with_names null_name (symbol_names_of table.now rows.now)) }
{
    let mut names = Names {
        bytes,
        offsets: Vec::with_capacity(alloc, rows.len() + 1)?,
    };
    names.bytes.push(0)?;
    names.offsets.push(0)?;
    push_symbols(&mut names, table, rows)?;
    Ok(names)
}

/// The file's own name and the needed names, behind these bytes.
fn own_names(alloc: Global, bytes: Vec<u8>, plan: &Plan) -> Result<Names, NoMemory>
    ensures { IfOk result (λ names. names ≡ with_names (behind bytes.items) (option_to_list plan.now.soname ++ plan.now.needed)) }
{
    let mut names = Names {
        bytes,
        offsets: Vec::new(alloc),
    };
    push_soname(&mut names, plan)?;
    push_needed(&mut names, plan)?;
    Ok(names)
}

/// Appends the names of rows.
fn push_symbols(names: &mut Names, table: &Table<'_>, rows: &[u32]) -> Result<(), NoMemory>
    requires { All (λ row. row < length table.now) rows.now }
    ensures { OnOk result (names.new ≡ with_names names.old (symbol_names_of table.now rows.now)) }
{
    for row in rows {
        names.push(table.name(*row))?;
    }
    Ok(())
}

/// Appends the file's own name.
fn push_soname(names: &mut Names, plan: &Plan) -> Result<(), NoMemory>
    ensures { OnOk result (names.new ≡ with_names names.old (option_to_list plan.now.soname)) }
{
    match plan.soname() {
        Some(soname) => names.push(soname),
        None => Ok(()),
    }
}

/// Appends the names of the files that are needed.
fn push_needed(names: &mut Names, plan: &Plan) -> Result<(), NoMemory>
    ensures { OnOk result (names.new ≡ with_names names.old plan.now.needed) }
{
    for i in 0..plan.needed_len() {
        names.push(plan.needed(i))?;
    }
    Ok(())
}
