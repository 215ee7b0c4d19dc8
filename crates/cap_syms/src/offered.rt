//! What the shared inputs offer.

ghost use Rattle.std.specs.Prelude.{◌≡◌, ◌&&◌, ◌<◌, [], not, length, IfOk, OnOk, fold, List, ℕ, slice_index_or};
ghost use Rattle.std.specs.List.{list_any};
ghost use Rattle.std.specs.Str.{bytes_eq};
ghost use Rattle.cap_syms.specs.Resolved.{can_be_chosen as can_be_chosen_of, is_offered};
ghost use Rattle.cap_syms.specs.Tally.{with_choosable, with_choosables};

use crate::names::Names;
use crate::tally::is_definition;
use cap_base::NoMemory;
use cap_elf::{DynFile, Symbol};
use std::alloc::Global;

/// Whether another object may choose the symbol: it is defined, GLOBAL or WEAK, of visibility DEFAULT or PROTECTED.
fn can_be_chosen(symbol: Symbol) -> bool
    ensures { result ≡ can_be_chosen_of symbol }
{
    is_definition(symbol.place)
        && (symbol.binding == 1 || symbol.binding == 2)
        && (symbol.visibility == 0 || symbol.visibility == 3)
}

/// Adds the name of a symbol that can be chosen.
fn offer<'a>(names: &mut Names<'a>, name: &'a [u8], symbol: Symbol) -> Result<(), NoMemory>
    ensures { OnOk result (names.new ≡ with_choosable names.old (name.now, symbol)) }
{
    if can_be_chosen(symbol) {
        names.add(name)?;
    }
    Ok(())
}

/// Adds the names that an object offers.
fn offer_all<'a>(names: &mut Names<'a>, object: &'a DynFile) -> Result<(), NoMemory>
    ensures { OnOk result (names.new ≡ with_choosables names.old object.now) }
{
    let symbols = object.symbols();
    for i in 0..symbols.len() {
        offer(names, object.name(i as u32), symbols[i])?;
    }
    Ok(())
}

/// The names that the shared inputs offer.
#[tactic(auto, using(crate::proofs::Loops::fold_more, crate::proofs::Loops::fold_done))]
fn all_offered<'a>(alloc: Global, dyns: &'a [DynFile]) -> Result<Names<'a>, NoMemory>
    ensures { IfOk result (λ names. names ≡ fold with_choosables [] dyns.now) }
{
    let mut names = Names::new(alloc);
    for object in dyns {
        offer_all(&mut names, object)?;
    }
    Ok(names)
}

/// The names that the shared inputs offer to a program. No others are asked for.
pub(crate) fn offered<'a>(
    alloc: Global,
    dyns: &'a [DynFile],
    program: bool,
) -> Result<Names<'a>, NoMemory>
    ensures { IfOk result (λ names. (q : List ℕ) → (program && not (list_any (bytes_eq q) names)) ≡ (program && not (is_offered dyns.now q))) }
{
    if program {
        all_offered(alloc, dyns)
    } else {
        Ok(Names::new(alloc))
    }
}
