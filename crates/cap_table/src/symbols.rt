//! The symbols of the linked file.

ghost use Rattle.std.specs.Prelude.{◌≡◌, ◌<◌, if◌then◌else◌, All, length, IfOk, unwrap_or};
ghost use Rattle.cap_syms.specs.Decisions.{is_present as is_present_shape, is_weakly_absent, is_merged};
ghost use Rattle.cap_syms.specs.declared.entries.Bound.{Bound};
ghost use Rattle.cap_elf.specs.Classes.{is_code};
ghost use Rattle.cap_table.specs.Lists.{dyn_symbol, present_symbol, absent_symbol, symbols_of, null_dyn_symbol};

use crate::meaning::{interval, is_absolute};
use crate::records::DynSymbol;
use crate::sources::Sources;
use crate::target::Target;
use cap_base::NoMemory;
use cap_elf::Class;
use cap_layout::Layout;
use cap_syms::{Entry, Shape};
use std::alloc::Global;

const GLOBAL: u8 = 1;

const WEAK: u8 = 2;

const NO_TYPE: u8 = 0;

const OBJECT: u8 = 1;

const FUNCTION: u8 = 2;

/// SHN_ABS, and the index that symbols with addresses have.
const ABSOLUTE: u16 = 0xfff1;

const PRESENT: u16 = 1;

/// The null symbol, and the symbols of these rows.
pub(crate) fn symbols<'a>(
    alloc: Global,
    sources: &'a Sources<'_>,
    layout: &Layout<'_>,
    rows: &[u32],
) -> Result<Vec<DynSymbol<'a>>, NoMemory>
    requires rels { layout.now.rels ≡ sources.now.rels }
    requires rows { All (λ row. row < length sources.now.table) rows.now }
    ensures { IfOk result (λ listed. listed.items ≡ symbols_of sources.now rows.now layout.now) }
{
    let mut listed = Vec::with_capacity(alloc, rows.len() + 1)?;
    let mut guess = 0;
    listed.push(null_symbol())?;
    for row in rows {
        listed.push(symbol(sources, layout, *row, &mut guess))?;
    }
    Ok(listed)
}

fn null_symbol<'a>() -> DynSymbol<'a>
    ensures { result ≡ null_dyn_symbol }
{
    DynSymbol {
        name: &[],
        binding: 0,
        kind: NO_TYPE,
        visibility: 0,
        section: 0,
        value: 0,
        size: 0,
    }
}

/// The symbol of a row. The guess is the piece that was found last.
fn symbol<'a>(
    sources: &'a Sources<'_>,
    layout: &Layout<'_>,
    row: u32,
    guess: &mut u32,
) -> DynSymbol<'a>
    requires rels { layout.now.rels ≡ sources.now.rels }
    requires row { row < length sources.now.table }
    ensures { result ≡ dyn_symbol sources.now layout.now row }
{
    let table = sources.table();
    let entry = table.entry(row);
    let name = table.name(row);
    if is_present(&entry.shape) {
        let target = sources.row(row);
        present(sources, layout, name, &entry, &target, guess)
    } else {
        absent(name, &entry)
    }
}

fn is_present(shape: &Shape) -> bool
    ensures { result ≡ is_present_shape shape.now }
{
    !matches!(shape, Shape::Absent { .. })
}

/// A symbol that is there: a function where it stands in code, else an object.
#[tactic(auto, unfolding(crate::specs::Lists::present_symbol))]
fn present<'a>(
    sources: &Sources<'_>,
    layout: &Layout<'_>,
    name: &'a [u8],
    entry: &Entry,
    target: &Target,
    guess: &mut u32,
) -> DynSymbol<'a>
    requires rels { layout.now.rels ≡ sources.now.rels }
    ensures { (bound : Bound) → result ≡ present_symbol layout.now (record { name = name.now; entry = entry.now; bound = bound }) target.now }
{
    let (at, len) = interval(sources, layout, target, guess).unwrap_or((0, 0));
    let absolute = is_absolute(target.as_is.place);
    DynSymbol {
        name,
        binding: binding(entry, target),
        kind: kind(target.class),
        visibility: entry.visibility,
        section: if absolute { ABSOLUTE } else { PRESENT },
        value: if absolute { target.as_is.value } else { at },
        size: if absolute { target.as_is.size } else { len },
    }
}

/// A merged symbol is global.
fn binding(entry: &Entry, target: &Target) -> u8
    ensures { result ≡ (if is_merged entry.now.shape then 1 else target.now.as_is.binding) }
{
    match entry.shape {
        Shape::Common { .. } => GLOBAL,
        Shape::Defined | Shape::Absent { .. } => target.as_is.binding,
    }
}

fn kind(class: Class) -> u8
    ensures { result ≡ (if is_code class then 2 else 1) }
{
    match class {
        Class::Code => FUNCTION,
        Class::Ro
        | Class::Init
        | Class::Fini
        | Class::Relro
        | Class::Data
        | Class::Bss
        | Class::Dropped => OBJECT,
    }
}

/// A symbol that is left to load.
#[tactic(auto, unfolding(crate::specs::Lists::absent_symbol))]
fn absent<'a>(name: &'a [u8], entry: &Entry) -> DynSymbol<'a>
    ensures { (bound : Bound) → result ≡ absent_symbol (record { name = name.now; entry = entry.now; bound = bound }) }
{
    DynSymbol {
        name,
        binding: absent_binding(entry),
        kind: NO_TYPE,
        visibility: 0,
        section: 0,
        value: 0,
        size: 0,
    }
}

fn absent_binding(entry: &Entry) -> u8
    ensures { result ≡ (if is_weakly_absent entry.now.shape then 2 else 1) }
{
    match entry.shape {
        Shape::Absent { weak: true } => WEAK,
        Shape::Absent { weak: false } | Shape::Defined | Shape::Common { .. } => GLOBAL,
    }
}
