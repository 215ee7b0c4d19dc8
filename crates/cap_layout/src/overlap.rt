//! The first symbol whose cut overlaps that of an earlier one.

ghost use Rattle.std.specs.Prelude.{◌≡◌, ℕ, ◌+◌, ◌^◌, ◌<◌, false, true, IfOk, MatchOption, IfSome, IsSome, Some, ◌||◌, ◌&&◌, length};
ghost use Rattle.std.specs.List.{All};
ghost use Rattle.cap_base.specs.Steps.{Yields, in_file, fault};
ghost use Rattle.cap_base.specs.declared.check.Check.TheVariants.{SymbolOverlap};
ghost use Rattle.cap_elf.specs.IsRelRead.{IsRelRead};
ghost use Rattle.cap_intervals.specs.declared.interval.Interval.{Interval};
ghost use Rattle.cap_intervals.specs.Clash.{clash};
ghost use Rattle.cap_intervals.specs.Earlier.{first_against, NoneAgainst, IsFirstAgainst};
ghost use Rattle.cap_intervals.specs.Groups.{clashes_in, group_count};
ghost use Rattle.cap_layout.specs.Cuts.{cut_section, cut_interval, is_one_section, overlaps, overlap_of};
ghost use Rattle.cap_layout.specs.CutWalk.{clashes_at};

use crate::classes::is_split;
use cap_base::{Check, Fault, Refusal};
use cap_elf::{Place, RelFile, Section, Symbol};
use cap_intervals::{Groups, Interval};
use std::alloc::{AllocError, Global};

/// The section that a symbol cuts.
pub(crate) fn cut_of(sections: &[Section], symbol: &Symbol) -> Option<usize>
    ensures value { result ≡ cut_section sections.now symbol.now }
    ensures below { IfSome result (λ n. n < length sections.now) }
{
    let Place::Section(n) = symbol.place else {
        return None;
    };
    let n = n as usize;
    if n >= sections.len() || symbol.size == 0 {
        return None;
    }
    if is_split(sections[n].class) {
        Some(n)
    } else {
        None
    }
}

/// Takes the cut of a symbol, or says that it overlaps a taken one.
fn take_cut(taken: &mut Groups, sections: &[Section], symbol: &Symbol) -> Result<bool, AllocError>
    requires count { group_count taken.old ≡ length sections.now }
    requires fits { IsSome (cut_section sections.now symbol.now) → symbol.now.value + symbol.now.size < 2 ^ 64 }
    ensures value { IfOk result (λ bad. bad ≡ clashes_at true taken.old (cut_section sections.now symbol.now) (cut_interval symbol.now)) }
    ensures taken { IfOk result (λ bad. bad ≡ false → (g : ℕ) (q : Interval) → clashes_in true taken.new g q ≡ ((is_one_section (Some g) (cut_section sections.now symbol.now) && clash true q (cut_interval symbol.now)) || clashes_in true taken.old g q)) }
    ensures count { group_count taken.new ≡ group_count taken.old }
{
    let Some(section) = cut_of(sections, symbol) else {
        return Ok(false);
    };
    let x = Interval {
        start: symbol.value,
        end: symbol.value + symbol.size,
    };
    if taken.clashes(true, section, x) {
        return Ok(true);
    }
    taken.add(true, section, x)?;
    Ok(false)
}

// The walk, as the definition goes.
fn search(
    alloc: Global,
    sections: &[Section],
    symbols: &[Symbol],
) -> Result<Option<Symbol>, AllocError>
    requires { All (λ s. IsSome (cut_section sections.now s) → s.value + s.size < 2 ^ 64) symbols.now }
    ensures { IfOk result (λ found. found ≡ first_against (overlaps sections.now) symbols.now) }
{
    let mut taken = Groups::new(alloc, sections.len())?;
    for symbol in symbols {
        if take_cut(&mut taken, sections, symbol)? {
            return Ok(Some(*symbol));
        }
    }
    Ok(None)
}

/// The first symbol that overlaps an earlier one.
pub(crate) fn first_overlap(
    alloc: Global,
    sections: &[Section],
    symbols: &[Symbol],
) -> Result<Option<Symbol>, AllocError>
    requires { All (λ s. IsSome (cut_section sections.now s) → s.value + s.size < 2 ^ 64) symbols.now }
    ensures value { IfOk result (λ found. found ≡ first_against (overlaps sections.now) symbols.now) }
    ensures pairs { IfOk result (λ found. MatchOption found (NoneAgainst (overlaps sections.now) symbols.now) (IsFirstAgainst (overlaps sections.now) symbols.now)) }
{
    search(alloc, sections, symbols)
}

/// Refuses a file at its first symbol that overlaps an earlier one.
pub(crate) fn refuse_overlaps(alloc: Global, rel: &RelFile) -> Result<(), Refusal>
    ensures value { Yields (λ u. u) result (in_file rel.now.number (overlap_of rel.now)) }
    ensures sound { IsRelRead rel.now }
{
    match first_overlap(alloc, rel.sections(), rel.symbols()) {
        Ok(None) => Ok(()),
        Ok(Some(symbol)) => Err(overlap_at(symbol.at).refusal(rel.number())),
        Err(_) => Err(Refusal::NoMemory),
    }
}

/// The fault of a symbol whose record stands here.
fn overlap_at(at: u64) -> Fault
    ensures { result ≡ fault SymbolOverlap at }
{
    Fault {
        check: Check::SymbolOverlap,
        at,
    }
}
