//! Symbols with an index of the names of those that are exported.

ghost use Rattle.std.specs.Prelude.{◌≡◌, ◌+◌, ◌<◌, ◌^◌, length, IfSome};
ghost use Rattle.cap_base.specs.Steps.{Gives};
ghost use Rattle.cap_elf.specs.Listed.{refuse_first as refuse_first_of};
ghost use Rattle.cap_elf.specs.Symbols.{named_of};

use crate::decode::SymbolEntry;
use crate::records::Symbol;
use crate::symbols::list_symbols;
use cap_base::{Check, Fault, Stop};
use cap_names::{NameHash, NameIndex};
use std::alloc::Global;
use std::marker::Model;

/// Symbols with their names, and an index of the names of those that are exported, no two of which are equal. Contracts
/// see each symbol with its name.
#[derive(Drop)]
pub(crate) struct IndexedSymbols {
    symbols: Vec<Symbol>,
    index: NameIndex,
}

impl Model for IndexedSymbols {
    ghost use Rattle.std.specs.Prelude.{List};
    ghost use Rattle.cap_elf.specs.Named.{NamedSymbol};
    ghost use Rattle.cap_elf.specs.Flagged.{flagged_by, AreIndexed};

    ghost Value = { List NamedSymbol };

    ghost view = { λ s. flagged_by s.symbols.items s.index.names };

    ghost invariant = { λ s. AreIndexed s.symbols.items s.index.rule s.index.names };
}

impl IndexedSymbols {
    ghost use Rattle.std.specs.Prelude.{map, slice_index_or, []};
    ghost use Rattle.cap_names.specs.Hash.{system_v_hash_of};
    ghost use Rattle.cap_names.specs.Named.{first_defined, IsOnly};
    ghost use Rattle.cap_elf.specs.Flagged.{flagged};

    /// The symbols.
    #[tactic(auto, using(crate::proofs::Flags::symbols_by))]
    pub(crate) fn symbols(&self) -> &[Symbol]
        ensures { result.now ≡ map (λ n. n.symbol) self.now }
    {
        self.symbols.as_slice()
    }

    /// The name of the symbol of this index.
    #[tactic(auto, using(crate::proofs::Flags::count_by, crate::proofs::Flags::name_by))]
    pub(crate) fn name(&self, i: usize) -> &[u8]
        requires { i < length self.now }
        ensures { result.now ≡ slice_index_or (map (λ n. n.name) self.now) i [] }
    {
        self.index.names().name(i)
    }

    /// The only index whose symbol is exported and has this name, whose hash is given.
    pub(crate) fn find(&self, name: &[u8], hash: u32) -> Option<u32>
        requires { hash ≡ system_v_hash_of name.now }
        ensures first { result ≡ first_defined (flagged self.now) name.now }
        ensures only { IsOnly (flagged self.now) name.now result }
    {
        self.index.find(hash, name)
    }
}

/// Refuses by the second definition of these symbols, if there is one; else by the fault of the symbol behind them.
fn refuse_first(
    symbols: &[Symbol],
    repeated: Option<u32>,
    next_fault: Option<Fault>,
) -> Result<(), Fault>
    requires { IfSome repeated (λ i. i < length symbols.now) }
    ensures { result ≡ refuse_first_of symbols.now repeated next_fault }
{
    if let Some(i) = repeated {
        let check = Check::DuplicateSymbol;
        let at = symbols[i as usize].at;
        return Err(Fault { check, at });
    }
    match next_fault {
        Some(fault) => Err(fault),
        None => Ok(()),
    }
}

/// The symbols of entries, the null symbol first.
///
/// The checks that a symbol passes alone are made in one pass, up to the first that fails. A name that is exported twice
/// is told by the index, once for all symbols before that one: there it comes first.
#[tactic(auto, using(crate::proofs::Flags::indexed, crate::proofs::Settled::repeated_among))]
pub(crate) fn checked_symbols(
    alloc: Global,
    strings: &[u8],
    at: u64,
    entries: &[SymbolEntry],
) -> Result<IndexedSymbols, Stop>
    requires { length entries.now + 1 < 2 ^ 32 }
    ensures { Gives (λ s. s) result (named_of strings.now at entries.now) }
{
    let (named, next_fault) = list_symbols(alloc, strings, at, entries)?;
    let (symbols, names) = named.apart();
    let index = NameIndex::new(alloc, NameHash::SystemV, names)?;
    refuse_first(&symbols, index.first_repeated(), next_fault)?;
    Ok(IndexedSymbols { symbols, index })
}
