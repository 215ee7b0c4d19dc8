//! Symbols with their names, as they are read.

ghost use Rattle.std.specs.Prelude.{◌≡◌, ◌∷◌, [], IfOk, OnOk};
ghost use Rattle.cap_elf.specs.Exported.{is_exported as is_exported_of};
ghost use Rattle.cap_elf.specs.Symbols.{null_named};

use crate::decode::null_symbol;
use crate::records::{Place, Symbol};
use cap_base::{NameList, NoMemory};
use std::alloc::Global;
use std::marker::Model;

/// Whether no other such symbol may have the name.
fn is_exported(symbol: &Symbol) -> bool
    ensures { result ≡ is_exported_of symbol.now }
{
    symbol.binding != 0 && matches!(symbol.place, Place::Absolute | Place::Section(_))
}

/// Symbols with their names, each of which counts as defined where its symbol is exported.
#[derive(Drop)]
pub(crate) struct Named {
    symbols: Vec<Symbol>,
    names: NameList,
}

impl Model for Named {
    ghost use Rattle.std.specs.Prelude.{List};
    ghost use Rattle.cap_elf.specs.Named.{NamedSymbol};
    ghost use Rattle.cap_elf.specs.Flagged.{flagged_by, AreFlagged};

    ghost Value = { List NamedSymbol };

    ghost view = { λ n. flagged_by n.symbols.items n.names };

    ghost invariant = { λ n. AreFlagged n.symbols.items n.names };
}

impl Named {
    ghost use Rattle.std.specs.Prelude.{◌++◌, map};
    ghost use Rattle.cap_elf.specs.Flagged.{flagged};

    /// No symbol, and room for so many.
    #[tactic(auto, using(crate::proofs::Flags::none_flagged), unfolding(crate::specs::Named::named_by))]
    pub(crate) fn with_capacity(alloc: Global, symbols: usize) -> Result<Named, NoMemory>
        ensures { IfOk result (λ n. n ≡ []) }
    {
        Ok(Named {
            symbols: Vec::with_capacity(alloc, symbols)?,
            names: NameList::new(alloc),
        })
    }

    /// Takes one symbol more.
    #[tactic(auto, using(crate::proofs::Flags::named_push, crate::proofs::Flags::flags_push))]
    pub(crate) fn push(&mut self, symbol: Symbol, name: &[u8]) -> Result<(), NoMemory>
        ensures { OnOk result (self.new ≡ self.old ++ record { symbol = symbol; name = name.now } ∷ []) }
    {
        self.symbols.reserve(1)?;
        self.names.push(name, is_exported(&symbol))?;
        self.symbols.push_reserved(symbol);
        Ok(())
    }

    /// The symbols, and the names by the same indices.
    #[tactic(auto, using(crate::proofs::Flags::symbols_by))]
    pub(crate) fn apart(self) -> (Vec<Symbol>, NameList)
        ensures symbols { result.0.items ≡ map (λ n. n.symbol) self }
        ensures names { result.1 ≡ flagged self }
    {
        let Named { symbols, names } = self;
        (symbols, names)
    }
}

/// The symbol of index 0 alone, and room for so many.
pub(crate) fn null_alone(alloc: Global, at: u64, symbols: usize) -> Result<Named, NoMemory>
    ensures { IfOk result (λ n. n ≡ null_named at ∷ []) }
{
    let mut named = Named::with_capacity(alloc, symbols)?;
    named.push(null_symbol(at), b"")?;
    Ok(named)
}
