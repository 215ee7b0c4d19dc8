//! What is kept of the occurrences of one name.

ghost use Rattle.std.specs.Prelude.{◌≡◌, max, if◌then◌else◌};
ghost use Rattle.cap_syms.specs.Occurrences.{is_global as is_global_of, is_definition_at, is_common_at};
ghost use Rattle.cap_syms.specs.Tally.{larger as larger_of, stricter as stricter_of, no_tally, defines as defines_of, defines_weakly as defines_weakly_of, rank_of, rank_number, is_highest as is_highest_of, with_symbol, shape_from, entry_from, second_from};

use crate::entries::{Entry, Shape};
use cap_elf::{Place, Symbol};

/// Where a symbol stands: the place of its file among the relocatable inputs, and its index in that file.
#[derive(Clone, Copy, Debug, PartialEq, Eq)]
pub(crate) struct Spot {
    pub(crate) file: u32,
    pub(crate) symbol: u32,
}

/// A definition that is one too many: the place of its file, and the offset of its symbol there.
#[derive(Clone, Copy, Debug, PartialEq, Eq)]
pub(crate) struct Second {
    pub(crate) file: u32,
    pub(crate) at: u64,
}

/// What an occurrence of a name is. What stands later here counts more.
#[derive(Clone, Copy, Debug, PartialEq, Eq)]
pub(crate) enum Rank {
    /// There is no occurrence.
    Unseen,
    WeakReference,
    GlobalReference,
    WeakDefinition,
    Common,
    GlobalDefinition,
}

/// What the occurrences of a name so far say of it. There is one of these for each name, so it is kept small.
#[derive(Clone, Copy, Debug, PartialEq, Eq)]
pub(crate) struct Tally {
    /// The occurrence that decides: the first of those that count most.
    spot: Spot,
    /// The largest size and alignment of all common symbols.
    size: u64,
    align: u64,
    /// The second GLOBAL definition, where there are two.
    second_at: u64,
    second_file: u32,
    has_second: bool,
    /// What the occurrence that decides is.
    rank: Rank,
    /// The most constraining visibility.
    visibility: u8,
}

const _: () = prove!(size_of::<Tally>() == 40);

/// Whether a symbol of this place is defined: in a section, or absolute.
pub(crate) fn is_definition(place: Place) -> bool
    ensures { result ≡ is_definition_at place }
{
    match place {
        Place::Absolute | Place::Section(_) => true,
        Place::Undefined | Place::Common => false,
    }
}

fn is_common(place: Place) -> bool
    ensures { result ≡ is_common_at place }
{
    match place {
        Place::Common => true,
        Place::Undefined | Place::Absolute | Place::Section(_) => false,
    }
}

fn is_global(symbol: Symbol) -> bool
    ensures { result ≡ is_global_of symbol }
{
    symbol.binding == 1
}

/// Whether the symbol is a GLOBAL definition.
fn defines(symbol: Symbol) -> bool
    ensures { result ≡ defines_of symbol }
{
    is_global(symbol) && is_definition(symbol.place)
}

/// Whether it is a WEAK one.
fn defines_weakly(symbol: Symbol) -> bool
    ensures { result ≡ defines_weakly_of symbol }
{
    symbol.binding == 2 && is_definition(symbol.place)
}

impl Rank {
    /// What an occurrence with this symbol is.
    fn of(symbol: Symbol) -> Rank
        ensures { result ≡ rank_of symbol }
    {
        if defines(symbol) {
            Rank::GlobalDefinition
        } else if is_common(symbol.place) {
            Rank::Common
        } else if defines_weakly(symbol) {
            Rank::WeakDefinition
        } else if is_global(symbol) {
            Rank::GlobalReference
        } else {
            Rank::WeakReference
        }
    }

    /// How much it counts.
    fn number(self) -> u8
        ensures { result ≡ rank_number self }
    {
        match self {
            Rank::Unseen => 0,
            Rank::WeakReference => 1,
            Rank::GlobalReference => 2,
            Rank::WeakDefinition => 3,
            Rank::Common => 4,
            Rank::GlobalDefinition => 5,
        }
    }

    /// Whether none counts more.
    fn is_highest(self) -> bool
        ensures { result ≡ is_highest_of self }
    {
        match self {
            Rank::Unseen
            | Rank::WeakReference
            | Rank::GlobalReference
            | Rank::WeakDefinition
            | Rank::Common => false,
            Rank::GlobalDefinition => true,
        }
    }

    /// What a name is on which such an occurrence decides, where its common symbols have this size and alignment.
    fn shape(self, size: u64, align: u64) -> Shape
        ensures { result ≡ shape_from self size align }
    {
        match self {
            Rank::Unseen | Rank::WeakReference => Shape::Absent { weak: true },
            Rank::GlobalReference => Shape::Absent { weak: false },
            Rank::WeakDefinition | Rank::GlobalDefinition => Shape::Defined,
            Rank::Common => Shape::Common { size, align },
        }
    }
}

/// This value where it takes the place of the one so far.
fn replaced<T: Copy>(so_far: T, holds: bool, value: T) -> T
    ensures { result ≡ (if holds then value else so_far) }
{
    if holds { value } else { so_far }
}

/// The larger of a number so far and one that may count.
fn larger(so_far: u64, holds: bool, value: u64) -> u64
    ensures { result ≡ larger_of so_far holds value }
{
    if holds { so_far.max(value) } else { so_far }
}

/// The more constraining of two visibilities: INTERNAL, HIDDEN, PROTECTED, DEFAULT.
fn stricter(a: u8, b: u8) -> u8
    ensures { result ≡ stricter_of a b }
{
    if a == 1 || b == 1 {
        1
    } else if a == 2 || b == 2 {
        2
    } else if a == 3 || b == 3 {
        3
    } else {
        0
    }
}

impl Tally {
    /// The tally of no occurrence.
    pub(crate) fn new() -> Tally
        ensures { result ≡ no_tally }
    {
        Tally {
            spot: Spot { file: 0, symbol: 0 },
            size: 0,
            align: 0,
            second_at: 0,
            second_file: 0,
            has_second: false,
            rank: Rank::Unseen,
            visibility: 0,
        }
    }

    /// The tally with one more occurrence.
    #[tactic(auto, unfolding(crate::specs::Tally::with_symbol))]
    pub(crate) fn with(self, spot: Spot, symbol: Symbol) -> Tally
        ensures { result ≡ with_symbol self spot symbol }
    {
        let rank = Rank::of(symbol);
        let decides = self.rank.number() < rank.number();
        let is_second = !self.has_second && self.rank.is_highest() && defines(symbol);
        let is_common = is_common(symbol.place);
        Tally {
            spot: replaced(self.spot, decides, spot),
            size: larger(self.size, is_common, symbol.size),
            align: larger(self.align, is_common, symbol.value),
            second_at: replaced(self.second_at, is_second, symbol.at),
            second_file: replaced(self.second_file, is_second, spot.file),
            has_second: self.has_second || is_second,
            rank: replaced(self.rank, decides, rank),
            visibility: stricter(self.visibility, symbol.visibility),
        }
    }

    /// The second GLOBAL definition, where there is one.
    pub(crate) fn second(self) -> Option<Second>
        ensures { result ≡ second_from self }
    {
        if self.has_second {
            Some(Second {
                file: self.second_file,
                at: self.second_at,
            })
        } else {
            None
        }
    }

    /// The decision on the name.
    pub(crate) fn entry(self) -> Entry
        ensures { result ≡ entry_from self }
    {
        Entry {
            file: self.spot.file,
            symbol: self.spot.symbol,
            shape: self.rank.shape(self.size, self.align),
            visibility: self.visibility,
        }
    }
}
