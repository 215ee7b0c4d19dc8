//! What relocations refer to.

ghost use Rattle.std.specs.Prelude.{◌≡◌};
ghost use Rattle.cap_elf.specs.Classes as classes;
ghost use Rattle.cap_layout.specs.Points.{is_loose};
ghost use Rattle.cap_table.specs.Targets as targets;

use cap_elf::{Class, Place, Symbol};
use cap_syms::Bound;

/// The type of a section's symbol (STT_SECTION).
pub(crate) const SECTION_SYMBOL: u8 = 3;

/// The symbol that a reference means: the one that it names where that is local, else the one that decides on its name.
#[derive(Clone, Copy, Debug, PartialEq, Eq)]
pub struct Target {
    /// The place of its file among the relocatable inputs.
    pub file: u32,
    /// Its index in that file.
    pub symbol: u32,
    /// The row of its name, unless it is local.
    pub row: Option<u32>,
    pub as_is: Symbol,
    /// The size of its section, 0 where it has none.
    pub section_size: u64,
    /// Its own size; the merged one for a common symbol.
    pub size: u64,
    /// The class of its section; Bss for a common symbol, Dropped for a symbol of no section.
    pub class: Class,
    pub bound: Bound,
}

fn is_absolute_at(place: Place) -> bool
    ensures { result ≡ targets.is_absolute_at place }
{
    matches!(place, Place::Absolute)
}

fn is_section_at(place: Place) -> bool
    ensures { result ≡ targets.is_section_at place }
{
    matches!(place, Place::Section(_))
}

fn is_split(class: Class) -> bool
    ensures { result ≡ classes.is_split class }
{
    matches!(class, Class::Ro | Class::Relro | Class::Data | Class::Bss)
}

// Whether the symbol stands for places of its section, and not for an interval.
fn is_loose_symbol(class: Class, symbol: &Symbol) -> bool
    ensures { result ≡ is_loose class symbol.now }
{
    is_split(class) && (symbol.kind == SECTION_SYMBOL || symbol.binding == 0 && symbol.size == 0)
}

impl Target {
    /// Whether it has an address in the linked file, or a fixed value.
    pub(crate) fn is_here(&self) -> bool
        ensures { result ≡ targets.is_here self.now.bound }
    {
        matches!(self.bound, Bound::Local)
    }

    /// Whether it counts as absolute with value 0.
    pub(crate) fn is_zero(&self) -> bool
        ensures { result ≡ targets.is_zero self.now.bound }
    {
        matches!(self.bound, Bound::Zero)
    }

    /// Whether it is left to load.
    pub(crate) fn is_dynamic(&self) -> bool
        ensures { result ≡ targets.is_dynamic self.now }
    {
        matches!(self.bound, Bound::Dynamic)
    }

    /// Whether it is a fixed number.
    pub(crate) fn is_fixed(&self) -> bool
        ensures { result ≡ targets.is_fixed self.now }
    {
        self.is_zero() || self.is_here() && is_absolute_at(self.as_is.place)
    }

    /// Whether it is an address of the linked file.
    pub(crate) fn is_address(&self) -> bool
        ensures { result ≡ targets.is_address self.now }
    {
        self.is_here() && !is_absolute_at(self.as_is.place)
    }

    /// Whether it lies in a section.
    pub(crate) fn is_in_section(&self) -> bool
        ensures { result ≡ targets.is_section_at self.now.as_is.place }
    {
        is_section_at(self.as_is.place)
    }

    /// Whether it stands for places of a section that is cut at its symbols.
    pub(crate) fn is_loose(&self) -> bool
        ensures { result ≡ targets.is_loose_target self.now }
    {
        self.is_in_section() && is_loose_symbol(self.class, &self.as_is)
    }

    /// Whether its value and an addend name a place of its section, or the end of it.
    pub(crate) fn names_place(&self, addend: i64) -> bool
        ensures { result ≡ targets.names_place self.now addend }
    {
        let offset = i128::from(self.as_is.value) + i128::from(addend);
        offset >= 0 && offset <= i128::from(self.section_size)
    }

    /// Whether both are one symbol.
    pub(crate) fn is_same(&self, other: &Target) -> bool
        ensures { result ≡ targets.same_target self.now other.now }
    {
        self.file == other.file && self.symbol == other.symbol
    }
}

/// A relocation that changes a field of the linked file, by its place among the relocatable inputs and its index there;
/// and the piece in which the field lies.
#[derive(Clone, Copy, Debug, PartialEq, Eq)]
pub struct Step {
    pub file: u32,
    pub index: u32,
    pub piece: u32,
}
