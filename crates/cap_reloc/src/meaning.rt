// What a reference through a symbol of the relocated object means (gABI, "Symbol Table").
ghost use Rattle.std.specs.Prelude.{◌≡◌, ◌<◌, length};
ghost use Rattle.cap_elf.specs.Exported.{is_defined as is_defined_of};
ghost use Rattle.cap_fits.specs.Places.{is_absolute as is_absolute_of};
ghost use Rattle.cap_reloc.specs.Wanted.{own, target_of as target_of_symbol, target_by as target_by_choice, is_own as is_own_symbol, is_local as is_local_symbol, value_of as value_of_hit, symbol_of};
ghost use Rattle.cap_reloc.specs.Sound.{IsIn, IsChoiceIn, IsTargetIn};

use crate::loaded::Loaded;
use crate::target::Target;
use cap_elf::{Place, Symbol};
use cap_scope::{Choice, Hit};

/// Whether a symbol of this place is defined: in a section, or absolute.
fn is_defined(place: Place) -> bool
    ensures { result ≡ is_defined_of place }
{
    match place {
        Place::Absolute | Place::Section(_) => true,
        Place::Undefined | Place::Common => false,
    }
}

/// Whether its value is no address (SHN_ABS).
pub(crate) fn is_absolute(place: Place) -> bool
    ensures { result ≡ is_absolute_of place }
{
    match place {
        Place::Absolute => true,
        Place::Undefined | Place::Common | Place::Section(_) => false,
    }
}

/// Whether it is STB_LOCAL.
fn is_local(symbol: Symbol) -> bool
    ensures { result ≡ is_local_symbol symbol }
{
    symbol.binding == 0
}

/// Whether it is the symbol itself that a reference through it means: it is defined, and LOCAL or of a visibility other
/// than DEFAULT.
fn is_own(symbol: Symbol) -> bool
    ensures { result ≡ is_own_symbol symbol }
{
    is_defined(symbol.place) && (is_local(symbol) || symbol.visibility != 0)
}

/// What a reference through a symbol means whose name has this choice.
fn target_by(symbol: Symbol, choice: Choice) -> Target
    ensures { result ≡ target_by_choice symbol choice }
{
    match choice {
        Choice::Strong(hit) => Target::Definition(hit),
        Choice::Weak(hit) => Target::Definition(hit),
        Choice::None => {
            if symbol.binding == 2 {
                Target::Zero
            } else {
                Target::Missing
            }
        }
    }
}

/// What a reference through a symbol of the relocated object means.
#[tactic(auto, unfolding(crate::specs::Wanted::target_of))]
pub(crate) fn target_of(loaded: &Loaded<'_, '_>, i: u32) -> Target
    requires { i < length (own loaded.now).symbols }
    ensures value { result ≡ target_of_symbol loaded.now i }
    ensures there { IsTargetIn loaded.now result }
{
    let symbol = loaded.own_symbol(i);
    if i == 0 {
        return Target::Zero;
    }
    if is_own(symbol) {
        return Target::Definition(Hit {
            object: loaded.index(),
            symbol: i,
        });
    }
    if is_local(symbol) {
        return Target::Zero;
    }
    target_by(symbol, loaded.choose(i))
}

/// The address of a definition, modulo 2^64, or the value of an absolute one.
pub(crate) fn value_of(loaded: &Loaded<'_, '_>, hit: Hit) -> u64
    requires { IsIn loaded.now hit }
    ensures { result ≡ value_of_hit loaded.now hit }
{
    let symbol = loaded.symbol(hit);
    if is_absolute(symbol.place) {
        symbol.value
    } else {
        loaded.root(hit.object).base().wrapping_add(symbol.value)
    }
}
