//! The symbols of a relocatable object, with where their names stand in its file.

ghost use Rattle.std.specs.Prelude.{◌≡◌, ◌∷◌, [], ◌≤◌, ◌+◌, length, map, IfOk, OnOk};

use crate::decode::null_symbol;
use crate::records::Symbol;
use cap_base::NoMemory;
use std::alloc::Global;
use std::marker::Model;

/// Where a name stands among the strings of its file.
#[derive(Clone, Copy, Debug, PartialEq, Eq)]
pub(crate) struct NamePlace {
    pub(crate) offset: u32,
    pub(crate) len: u32,
}

/// Symbols, each with the place of its name among these strings. No name is copied.
#[derive(Drop)]
pub(crate) struct RelNamed<'a> {
    strings: &'a [u8],
    symbols: Vec<Symbol>,
    places: Vec<NamePlace>,
}

impl<'a> Model for RelNamed<'a> {
    ghost use Rattle.std.specs.Prelude.{◌≡◌, length};
    ghost use Rattle.cap_elf.specs.NamePlaces.{RelNamedValue, rel_named_value, AreWithin};

    ghost Value = { RelNamedValue };

    ghost view = { λ n. rel_named_value n.strings.now n.symbols.items n.places.items };

    ghost invariant = { λ n. (length n.places.items ≡ length n.symbols.items) × AreWithin (length n.strings.now) n.places.items };
}

impl<'a> RelNamed<'a> {
    ghost use Rattle.std.specs.Prelude.{◌++◌};
    ghost use Rattle.cap_elf.specs.NamePlaces.{IsNameAt, names_at, AreWithin};
    ghost use Rattle.cap_elf.specs.Symbols.{null_named};

    /// No symbol, and room for so many.
    #[tactic(auto, unfolding(crate::specs::NamePlaces::names_at, crate::specs::Named::named_by))]
    fn with_capacity(
        alloc: Global,
        strings: &'a [u8],
        symbols: usize,
    ) -> Result<RelNamed<'a>, NoMemory>
        ensures strings { IfOk result (λ n. n.strings ≡ strings.now) }
        ensures named { IfOk result (λ n. n.named ≡ []) }
    {
        Ok(RelNamed {
            strings,
            symbols: Vec::with_capacity(alloc, symbols)?,
            places: Vec::with_capacity(alloc, symbols)?,
        })
    }

    /// Takes one symbol more, whose name stands at an offset.
    #[tactic(auto, using(crate::proofs::ByName::place_push, crate::proofs::ByName::within_push))]
    pub(crate) fn push(&mut self, symbol: Symbol, offset: u32, name: &[u8]) -> Result<(), NoMemory>
        requires place { IsNameAt self.old.strings offset name.now }
        requires short { length name.now ≤ 255 }
        ensures strings { self.new.strings ≡ self.old.strings }
        ensures named { OnOk result (self.new.named ≡ self.old.named ++ record { symbol = symbol; name = name.now } ∷ []) }
    {
        let place = NamePlace {
            offset,
            len: name.len() as u32,
        };
        self.symbols.reserve(1)?;
        self.places.push(place)?;
        self.symbols.push_reserved(symbol);
        Ok(())
    }

    /// The symbol of index 0 alone, and room for so many.
    pub(crate) fn null_alone(
        alloc: Global,
        strings: &'a [u8],
        at: u64,
        symbols: usize,
    ) -> Result<RelNamed<'a>, NoMemory>
        ensures strings { IfOk result (λ n. n.strings ≡ strings.now) }
        ensures named { IfOk result (λ n. n.named ≡ null_named at ∷ []) }
    {
        let mut named = RelNamed::with_capacity(alloc, strings, symbols)?;
        named.push(null_symbol(at), 0, b"")?;
        Ok(named)
    }

    /// The symbols, and the places of their names by the same indices.
    #[tactic(auto, using(crate::proofs::ByName::symbols_by, crate::proofs::ByName::names_by, crate::proofs::ByName::place_count))]
    pub(crate) fn apart(self) -> (Vec<Symbol>, Vec<NamePlace>)
        ensures symbols { result.0.items ≡ map (λ n. n.symbol) self.entry.named }
        ensures names { names_at self.entry.strings result.1.items ≡ map (λ n. n.name) self.entry.named }
        ensures within { AreWithin (length self.entry.strings) result.1.items }
    {
        let RelNamed {
            symbols,
            places,
            ..
        } = self;
        (symbols, places)
    }
}
