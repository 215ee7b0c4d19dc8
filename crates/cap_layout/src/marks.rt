//! The marks of the sections of a file: the ends of their cuts.

ghost use Rattle.std.specs.Prelude.{◌≡◌, ◌∷◌, [], ◌++◌, ◌+◌, ◌^◌, ◌<◌, ◌≤◌, List, ℕ, IfOk, OnOk, IfSome, IsSome, length, map, fold, All};
ghost use Rattle.std.specs.List.{range_with_len};
ghost use Rattle.std.specs.List.Sorted.{IsNonDecreasing};
ghost use Rattle.cap_elf.specs.RelObject.{RelObject};
ghost use Rattle.cap_layout.specs.Cuts.{ascending, cut_section};
ghost use Rattle.cap_layout.specs.Marked.{start_of, closed, mark_lists, with_cut};

use crate::overlap::cut_of;
use cap_base::NoMemory;
use cap_elf::{RelFile, Section, Symbol};
use std::alloc::Global;
use std::marker::Model;

/// Offsets of a section.
#[derive(Drop)]
pub(crate) struct Marks {
    places: Vec<u64>,
}

impl Model for Marks {
    ghost use Rattle.std.specs.Prelude.{List, ℕ};

    ghost Value = { List ℕ };

    ghost view = { λ m. m.places.items };
}

/// The numbers of a sorted list, each once.
fn distinct(alloc: Global, sorted: &[u64]) -> Result<Vec<u64>, NoMemory>
    requires { IsNonDecreasing sorted.now }
    ensures { IfOk result (λ marks. marks.items ≡ ascending sorted.now) }
{
    let mut marks = Vec::with_capacity(alloc, sorted.len())?;
    if !sorted.is_empty() {
        marks.push(sorted[0])?;
        for i in 1..sorted.len() {
            if sorted[i - 1] < sorted[i] {
                marks.push(sorted[i])?;
            }
        }
    }
    Ok(marks)
}

/// The numbers in ascending order, each once.
pub(crate) fn ascending_marks(alloc: Global, ends: &mut [u64]) -> Result<Vec<u64>, NoMemory>
    ensures { IfOk result (λ marks. marks.items ≡ ascending ends.old) }
{
    ends.sort_unstable();
    distinct(alloc, ends)
}

impl Marks {
    /// Where a section begins.
    fn new(alloc: Global) -> Result<Marks, NoMemory>
        ensures { IfOk result (λ m. m ≡ 0 ∷ []) }
    {
        let mut places = Vec::new(alloc);
        places.push(0)?;
        Ok(Marks { places })
    }

    /// Adds the two ends of a cut.
    fn add(&mut self, start: u64, end: u64) -> Result<(), NoMemory>
        ensures { OnOk result (self.new ≡ self.old ++ start ∷ end ∷ []) }
    {
        self.places.push(start)?;
        self.places.push(end)?;
        Ok(())
    }

    /// The same and the end of the section, in ascending order, each once. Cuts mostly come in that order, and to sort
    /// them then takes one pass; so the end comes last.
    fn ascending(&self, alloc: Global, end: u64) -> Result<Marks, NoMemory>
        ensures { IfOk result (λ m. m ≡ ascending (self.now ++ end ∷ [])) }
    {
        let mut places = Vec::with_capacity(alloc, self.places.len() + 1)?;
        places.extend_from_slice(&self.places)?;
        places.push(end)?;
        let places = ascending_marks(alloc, &mut places)?;
        Ok(Marks { places })
    }

    /// The offsets.
    pub(crate) fn places(&self) -> &[u64]
        ensures { result.now ≡ self.now }
    {
        self.places.as_slice()
    }
}

/// Where each section begins.
fn section_starts(alloc: Global, sections: &[Section]) -> Result<Vec<Marks>, NoMemory>
    ensures { IfOk result (λ lists. lists.items ≡ map start_of sections.now) }
{
    let mut lists = Vec::new(alloc);
    for section in sections {
        lists.push(Marks::new(alloc)?)?;
    }
    Ok(lists)
}

/// Adds the two ends of the cut of a symbol, if it cuts a section.
fn add_cut(lists: &mut Vec<Marks>, sections: &[Section], symbol: &Symbol) -> Result<(), NoMemory>
    requires count { length lists.old.items ≡ length sections.now }
    requires fits { IsSome (cut_section sections.now symbol.now) → symbol.now.value + symbol.now.size < 2 ^ 64 }
    ensures { OnOk result (lists.new.items ≡ with_cut sections.now lists.old.items symbol.now) }
{
    let Some(section) = cut_of(sections, symbol) else {
        return Ok(());
    };
    lists[section].add(symbol.value, symbol.value + symbol.size)?;
    Ok(())
}

/// The start of each section and the ends of its cuts, in the order of the symbols.
fn cut_ends(alloc: Global, sections: &[Section], symbols: &[Symbol]) -> Result<Vec<Marks>, NoMemory>
    requires { All (λ s. IsSome (cut_section sections.now s) → s.value + s.size < 2 ^ 64) symbols.now }
    ensures { IfOk result (λ lists. lists.items ≡ fold (with_cut sections.now) (map start_of sections.now) symbols.now) }
{
    let mut lists = section_starts(alloc, sections)?;
    for symbol in symbols {
        add_cut(&mut lists, sections, symbol)?;
    }
    Ok(lists)
}

/// Each list with the end of its section, in ascending order, each mark once.
fn all_ascending(
    alloc: Global,
    sections: &[Section],
    lists: &[Marks],
) -> Result<Vec<Marks>, NoMemory>
    requires { length lists.now ≡ length sections.now }
    ensures { IfOk result (λ marks. marks.items ≡ map (closed sections.now lists.now) (range_with_len 0 (length sections.now))) }
{
    let mut marks = Vec::new(alloc);
    for i in 0..sections.len() {
        marks.push(lists[i].ascending(alloc, sections[i].size)?)?;
    }
    Ok(marks)
}

/// The marks of each section of a file: near-linear in its sections and symbols.
pub(crate) fn marks_of(alloc: Global, rel: &RelFile) -> Result<FileMarks, NoMemory>
    ensures { IfOk result (λ marks. marks ≡ mark_lists rel.now) }
{
    let lists = cut_ends(alloc, rel.sections(), rel.symbols())?;
    Ok(FileMarks {
        lists: all_ascending(alloc, rel.sections(), &lists)?,
    })
}

/// The marks of each section of a file.
#[derive(Drop)]
pub(crate) struct FileMarks {
    lists: Vec<Marks>,
}

impl Model for FileMarks {
    ghost use Rattle.std.specs.Prelude.{List, ℕ};

    ghost Value = { List (List ℕ) };

    ghost view = { λ f. f.lists.items };
}

impl FileMarks {
    ghost use Rattle.std.specs.Prelude.{slice_index_or};

    /// How many sections there are.
    pub(crate) fn len(&self) -> usize
        ensures { result ≡ length self.now }
    {
        self.lists.len()
    }

    /// The marks of a section.
    pub(crate) fn of(&self, section: usize) -> &[u64]
        requires { section < length self.now }
        ensures { result.now ≡ slice_index_or self.now section [] }
    {
        self.lists[section].places()
    }
}
