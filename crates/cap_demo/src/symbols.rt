//! The symbols of an object.

ghost use Rattle.std.specs.Prelude.{◌≡◌, ◌+◌, ◌≤◌, length, IfOk, OnOk};
ghost use Rattle.cap_demo.specs.Choices.{AreSizes};
ghost use Rattle.cap_demo.specs.Symbols.{function_symbol as function_of, table_symbol as table_of, datum_symbol as datum_of, undefined_symbol as undefined_of, own_symbols as own_of, place_of, with_target, symbols_of};

use crate::names::SymbolName;
use cap_base::NoMemory;
use std::alloc::Global;

/// The types of symbols.
const STT_NOTYPE: u8 = 0;

const STT_OBJECT: u8 = 1;

const STT_FUNC: u8 = 2;
/// The sections that symbols stand in.
const SHN_UNDEF: u16 = 0;

const CODE: u16 = 1;

const DATA: u16 = 2;
/// How many bytes the function and the table have.
const FUNCTION_SIZE: u64 = 4;

pub(crate) const TABLE_SIZE: u64 = 1040;

/// A global symbol.
#[derive(Clone, Copy, Debug)]
pub(crate) struct Symbol {
    pub(crate) name: SymbolName,
    pub(crate) kind: u8,
    pub(crate) section: u16,
    pub(crate) value: u64,
    pub(crate) size: u64,
}

#[tactic(auto, unfolding(crate::specs::Symbols::function_symbol))]
fn function_symbol(number: u32) -> Symbol
    ensures { result ≡ function_of number }
{
    Symbol {
        name: SymbolName::Function(number),
        kind: STT_FUNC,
        section: CODE,
        value: 0,
        size: FUNCTION_SIZE,
    }
}

#[tactic(auto, unfolding(crate::specs::Symbols::table_symbol))]
fn table_symbol(number: u32) -> Symbol
    ensures { result ≡ table_of number }
{
    Symbol {
        name: SymbolName::Table(number),
        kind: STT_OBJECT,
        section: DATA,
        value: 0,
        size: TABLE_SIZE,
    }
}

#[tactic(auto, unfolding(crate::specs::Symbols::datum_symbol))]
fn datum_symbol(number: u32, index: u32, at: u64, size: u64) -> Symbol
    ensures { result ≡ datum_of number index at size }
{
    Symbol {
        name: SymbolName::Datum(number, index),
        kind: STT_OBJECT,
        section: DATA,
        value: at,
        size,
    }
}

#[tactic(auto, unfolding(crate::specs::Symbols::undefined_symbol))]
fn undefined_symbol(name: SymbolName) -> Symbol
    ensures { result ≡ undefined_of name }
{
    Symbol {
        name,
        kind: STT_NOTYPE,
        section: SHN_UNDEF,
        value: 0,
        size: 0,
    }
}

/// The symbols that an object defines.
#[tactic(auto, using(crate::proofs::Sizes::own_first))]
fn own_symbols(alloc: Global, number: u32, sizes: &[u64]) -> Result<Vec<Symbol>, NoMemory>
    requires { AreSizes sizes.now }
    ensures symbols { IfOk result (λ symbols. symbols.items ≡ own_of number sizes.now) }
    ensures count { IfOk result (λ symbols. length symbols.items ≡ 2 + length sizes.now) }
{
    let mut symbols = Vec::with_capacity(alloc, 2 + sizes.len())?;
    symbols.push(function_symbol(number))?;
    symbols.push(table_symbol(number))?;
    let mut at = TABLE_SIZE;
    for (index, size) in sizes.iter().enumerate() {
        symbols.push(datum_symbol(number, index as u32, at, *size))?;
        at += *size;
    }
    Ok(symbols)
}

/// Where the first symbol of a name stands; behind all of them where there is none.
#[tactic(auto, using(crate::proofs::Placing::place_skip, crate::proofs::Placing::place_hit, crate::proofs::Placing::place_none))]
pub(crate) fn place(symbols: &[Symbol], name: SymbolName) -> usize
    ensures value { result ≡ place_of symbols.now name }
    ensures bound { result ≤ length symbols.now }
{
    for (i, symbol) in symbols.iter().enumerate() {
        if symbol.name.is(name) {
            return i;
        }
    }
    symbols.len()
}

/// Appends a target as an undefined symbol, where none of the symbols has its name.
#[tactic(auto, unfolding(crate::specs::Symbols::with_target))]
fn add_target(symbols: &mut Vec<Symbol>, target: SymbolName) -> Result<(), NoMemory>
    ensures value { OnOk result (symbols.new.items ≡ with_target symbols.old.items target) }
    ensures count { OnOk result (length symbols.new.items ≤ length symbols.old.items + 1) }
{
    if place(symbols, target) < symbols.len() {
        Ok(())
    } else {
        symbols.push(undefined_symbol(target))?;
        Ok(())
    }
}

/// The symbols of an object: its own, and then targets that it doesn't define, in the order of their first use.
#[tactic(auto, unfolding(crate::specs::Symbols::symbols_of), using(crate::proofs::Folding::fold_more, crate::proofs::Folding::fold_done))]
pub(crate) fn symbols(
    alloc: Global,
    number: u32,
    sizes: &[u64],
    targets: &[SymbolName],
) -> Result<Vec<Symbol>, NoMemory>
    requires { AreSizes sizes.now }
    ensures value { IfOk result (λ symbols. symbols.items ≡ symbols_of number sizes.now targets.now) }
    ensures count { IfOk result (λ symbols. length symbols.items ≤ 2 + length sizes.now + length targets.now) }
{
    let mut symbols = own_symbols(alloc, number, sizes)?;
    for target in targets {
        add_target(&mut symbols, *target)?;
    }
    Ok(symbols)
}
