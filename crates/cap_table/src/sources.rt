//! The relocatable inputs with the table of their names.

ghost use Rattle.std.specs.Prelude.{◌≡◌, ◌<◌, false, Some, length, slice_get, unwrap_or, IfOk, OnOk};
ghost use Rattle.cap_elf.specs.RelObject.{file_of, symbol_of, name_of};
ghost use Rattle.cap_syms.specs.Occurrences.{is_local};
ghost use Rattle.cap_syms.specs.Resolved.{index_of};
ghost use Rattle.cap_syms.specs.IsResolved.{IsResolved};
ghost use Rattle.cap_table.specs.Targets.{Named, class_of_place, section_size_of, merged_size as merged_size_of, local_bound as local_bound_of, row_target as row_target_of, local_target as local_target_of, target_of};
ghost use Rattle.cap_table.specs.Standing.{Keeps, HaveRows, StandFor, StandForAll};

use crate::target::Target;
use cap_base::NoMemory;
use cap_elf::{Class, Place, RelFile, Symbol};
use cap_syms::{Bound, Shape, Table};
use std::alloc::Global;
use std::marker::Model;

/// Where what the symbols of one input mean stands among the targets, by their indices.
#[derive(Drop)]
struct Places {
    at: Vec<u32>,
}

impl Model for Places {
    ghost use Rattle.std.specs.Prelude.{List, ℕ};

    ghost Value = { List ℕ };

    ghost view = { λ p. p.at.items };
}

impl Places {
    ghost use Rattle.std.specs.Prelude.{slice_index_or};

    fn of(&self, symbol: u32) -> u32
        requires { symbol < length self.now }
        ensures { result ≡ slice_index_or self.now symbol 0 }
    {
        self.at[symbol as usize]
    }
}

/// The relocatable inputs, the table of their names, and what each symbol means when a relocation names it: what each row
/// of the table means stands once, by the row, and behind all rows what each local symbol means.
#[derive(Drop)]
pub struct Sources<'a> {
    rels: &'a [RelFile],
    table: &'a Table<'a>,
    targets: Vec<Target>,
    places: Vec<Places>,
}

impl<'a> Model for Sources<'a> {
    ghost use Rattle.cap_table.specs.Targets.{Named};
    ghost use Rattle.cap_table.specs.Standing.{StandForAll};
    ghost use Rattle.cap_syms.specs.IsResolved.{IsResolved};

    ghost Value = { Named };

    ghost view = { λ s. record { rels = s.rels.now; table = s.table.now } };

    ghost invariant = { λ s. IsResolved s.rels.now s.table.now × StandForAll (record { rels = s.rels.now; table = s.table.now }) s.targets.items s.places.items };
}

// The class of the section where a symbol is placed, and its size.
fn class_of(object: &RelFile, place: Place) -> Class
    ensures { result ≡ class_of_place object.now place }
{
    match place {
        Place::Undefined | Place::Absolute => Class::Dropped,
        Place::Common => Class::Bss,
        Place::Section(n) => match object.sections().get(n as usize) {
            Some(section) => section.class,
            None => Class::Dropped,
        },
    }
}

fn section_size(object: &RelFile, place: Place) -> u64
    ensures { result ≡ section_size_of object.now place }
{
    match place {
        Place::Undefined | Place::Absolute | Place::Common => 0,
        Place::Section(n) => match object.sections().get(n as usize) {
            Some(section) => section.size,
            None => 0,
        },
    }
}

fn merged_size(shape: Shape, own: u64) -> u64
    ensures { result ≡ merged_size_of shape own }
{
    match shape {
        Shape::Common { size, align: _ } => size,
        Shape::Defined | Shape::Absent { weak: _ } => own,
    }
}

fn local_bound(place: Place) -> Bound
    ensures { result ≡ local_bound_of place }
{
    match place {
        Place::Undefined => Bound::Zero,
        Place::Absolute | Place::Common | Place::Section(_) => Bound::Local,
    }
}

#[tactic(auto, unfolding(crate::specs::Targets::local_target))]
fn local_target(object: &RelFile, file: u32, symbol: u32) -> Target
    requires { symbol < length object.now.symbols }
    ensures { result ≡ local_target_of object.now file symbol }
{
    let as_is = object.symbols()[symbol as usize];
    Target {
        file,
        symbol,
        row: None,
        as_is,
        class: class_of(object, as_is.place),
        section_size: section_size(object, as_is.place),
        size: as_is.size,
        bound: local_bound(as_is.place),
    }
}

#[tactic(auto, unfolding(crate::specs::Targets::row_target))]
fn row_target(rels: &[RelFile], table: &Table<'_>, row: u32) -> Target
    requires resolved { IsResolved rels.now table.now }
    requires row { row < length table.now }
    ensures target { result ≡ row_target_of (record { rels = rels.now; table = table.now }) row }
    ensures file { result.file < length rels.now }
    ensures symbol { result.symbol < length (file_of rels.now result.file).symbols }
{
    let entry = table.entry(row);
    let object = &rels[entry.file as usize];
    let as_is = object.symbols()[entry.symbol as usize];
    Target {
        file: entry.file,
        symbol: entry.symbol,
        row: Some(row),
        as_is,
        class: class_of(object, as_is.place),
        section_size: section_size(object, as_is.place),
        size: merged_size(entry.shape, as_is.size),
        bound: table.bound(row),
    }
}

// The row of the name of a symbol that isn't local.
fn row_of(rels: &[RelFile], table: &Table<'_>, file: u32, symbol: u32) -> u32
    requires resolved { IsResolved rels.now table.now }
    requires file { file < length rels.now }
    requires symbol { symbol < length (file_of rels.now file).symbols }
    requires outside { is_local (symbol_of (file_of rels.now file) symbol) ≡ false }
    ensures row { result ≡ unwrap_or (index_of table.now (name_of (file_of rels.now file) symbol)) 0 }
    ensures below { result < length table.now }
{
    table
        .find_at(file, symbol, rels[file as usize].name(symbol))
        .unwrap()
}

// What the rows of the table mean.
#[tactic(auto, using(crate::proofs::SourceTargets::numbered_more))]
fn row_targets(alloc: Global, rels: &[RelFile], table: &Table<'_>) -> Result<Vec<Target>, NoMemory>
    requires resolved { IsResolved rels.now table.now }
    ensures { IfOk result (λ targets. HaveRows (record { rels = rels.now; table = table.now }) targets.items) }
{
    let mut targets = Vec::with_capacity(alloc, table.len() as usize)?;
    for row in 0..table.len() {
        targets.push(row_target(rels, table, row))?;
    }
    Ok(targets)
}

// Appends what a local symbol means.
#[tactic(auto, using(crate::proofs::SourceTargets::keeps_more, crate::proofs::SourceTargets::stands_last))]
fn local_place(
    object: &RelFile,
    file: u32,
    symbol: u32,
    targets: &mut Vec<Target>,
) -> Result<u32, NoMemory>
    requires { symbol < length object.now.symbols }
    ensures place { IfOk result (λ place. slice_get targets.new.items place ≡ Some (local_target_of object.now file symbol)) }
    ensures keeps { OnOk result (Keeps targets.old.items targets.new.items) }
{
    let place = u32::try_from(targets.len()).map_err(|_| NoMemory)?;
    targets.push(local_target(object, file, symbol))?;
    Ok(place)
}

// Where what a symbol means stands, once it does.
#[tactic(auto, unfolding(crate::specs::Targets::target_of))]
fn symbol_place(
    rels: &[RelFile],
    table: &Table<'_>,
    file: u32,
    symbol: u32,
    targets: &mut Vec<Target>,
) -> Result<u32, NoMemory>
    requires resolved { IsResolved rels.now table.now }
    requires file { file < length rels.now }
    requires symbol { symbol < length (file_of rels.now file).symbols }
    requires rows { HaveRows (record { rels = rels.now; table = table.now }) targets.old.items }
    ensures place { IfOk result (λ place. slice_get targets.new.items place ≡ Some (target_of (record { rels = rels.now; table = table.now }) file symbol)) }
    ensures keeps { OnOk result (Keeps targets.old.items targets.new.items) }
{
    let object = &rels[file as usize];
    if object.symbols()[symbol as usize].binding == 0 {
        local_place(object, file, symbol, targets)
    } else {
        Ok(row_of(rels, table, file, symbol))
    }
}

// The same of all symbols of an input.
fn file_places(
    alloc: Global,
    rels: &[RelFile],
    table: &Table<'_>,
    file: u32,
    targets: &mut Vec<Target>,
) -> Result<Places, NoMemory>
    requires resolved { IsResolved rels.now table.now }
    requires file { file < length rels.now }
    requires rows { HaveRows (record { rels = rels.now; table = table.now }) targets.old.items }
    ensures places { IfOk result (λ places. StandFor (record { rels = rels.now; table = table.now }) file targets.new.items places) }
    ensures keeps { OnOk result (Keeps targets.old.items targets.new.items) }
{
    let count = rels[file as usize].symbols().len() as u32;
    let mut at = Vec::with_capacity(alloc, count as usize)?;
    for symbol in 0..count {
        let place = symbol_place(rels, table, file, symbol, targets)?;
        at.push(place)?;
    }
    Ok(Places { at })
}

// The same of all inputs.
fn all_places(
    alloc: Global,
    rels: &[RelFile],
    table: &Table<'_>,
    targets: &mut Vec<Target>,
) -> Result<Vec<Places>, NoMemory>
    requires resolved { IsResolved rels.now table.now }
    requires rows { HaveRows (record { rels = rels.now; table = table.now }) targets.old.items }
    ensures { IfOk result (λ places. StandForAll (record { rels = rels.now; table = table.now }) targets.new.items places.items) }
{
    let count = u32::try_from(rels.len()).map_err(|_| NoMemory)?;
    let mut places = Vec::with_capacity(alloc, count as usize)?;
    for file in 0..count {
        let one = file_places(alloc, rels, table, file, targets)?;
        places.push(one)?;
    }
    Ok(places)
}

impl<'a> Sources<'a> {
    ghost use Rattle.std.specs.Prelude.{◌<◌, length};
    ghost use Rattle.cap_elf.specs.RelObject.{file_of};
    ghost use Rattle.cap_table.specs.Targets.{target_of, row_target};

    /// Finds what each symbol means.
    pub fn new(
        alloc: Global,
        rels: &'a [RelFile],
        table: &'a Table<'a>,
    ) -> Result<Sources<'a>, NoMemory>
        requires { IsResolved rels.now table.now }
        ensures { IfOk result (λ s. s ≡ record { rels = rels.now; table = table.now }) }
    {
        let mut targets = row_targets(alloc, rels, table)?;
        let places = all_places(alloc, rels, table, &mut targets)?;
        Ok(Sources {
            rels,
            table,
            targets,
            places,
        })
    }

    /// The relocatable inputs.
    pub fn rels(&self) -> &'a [RelFile]
        ensures rels { result.now ≡ self.now.rels }
        ensures resolved { IsResolved self.now.rels self.now.table }
    {
        self.rels
    }

    /// The table of their names.
    pub fn table(&self) -> &'a Table<'a>
        ensures table { result.now ≡ self.now.table }
        ensures resolved { IsResolved self.now.rels self.now.table }
    {
        self.table
    }

    /// What a reference to a symbol of an input means.
    pub fn target(&self, file: u32, symbol: u32) -> Target
        requires file { file < length self.now.rels }
        requires symbol { symbol < length (file_of self.now.rels file).symbols }
        ensures { result ≡ target_of self.now file symbol }
    {
        *self.target_ref(file, symbol)
    }

    /// The same by reference: a relocation asks for its target several times.
    pub(crate) fn target_ref(&self, file: u32, symbol: u32) -> &Target
        requires file { file < length self.now.rels }
        requires symbol { symbol < length (file_of self.now.rels file).symbols }
        ensures { result.now ≡ target_of self.now file symbol }
    {
        let place = self.places[file as usize].of(symbol);
        &self.targets[place as usize]
    }

    /// What the name of a row means.
    pub fn row(&self, row: u32) -> Target
        requires { row < length self.now.table }
        ensures target { result ≡ row_target self.now row }
        ensures file { result.file < length self.now.rels }
        ensures symbol { result.symbol < length (file_of self.now.rels result.file).symbols }
    {
        row_target(self.rels, self.table, row)
    }
}
