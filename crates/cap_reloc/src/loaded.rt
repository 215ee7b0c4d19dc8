// The loaded objects, as the relocations of one of them see them.
use crate::code::Range;
use cap_elf::{DynFile, Symbol};
use cap_own::Root;
use cap_scope::{Choice, Hit, Object, Rule, choose};
use std::marker::Model;

/// The loaded objects with their mappings and their ranges of code, the one that is relocated, and how its names are
/// looked up. Contracts see the setting.
#[derive(Drop)]
pub(crate) struct Loaded<'a, 'r> {
    pub(crate) objects: &'a [Object],
    pub(crate) roots: &'r [Root],
    pub(crate) code: &'a [Option<Range>],
    pub(crate) index: u32,
    pub(crate) scope: &'a [u32],
    pub(crate) rule: Rule,
}

impl<'a, 'r> Model for Loaded<'a, 'r> {
    ghost use Rattle.cap_reloc.specs.Wanted.{Setting};

    ghost Value = { Setting };

    ghost use Rattle.cap_reloc.specs.Sound.{setting_in, IsLoaded};

    ghost view = { setting_in };

    ghost invariant = { IsLoaded };
}

impl<'a, 'r> Loaded<'a, 'r> {
    ghost use Rattle.std.specs.Prelude.{◌≡◌, ◌<◌, ◌+◌, ◌≤◌, ◌^◌, length, slice_index, true};
    ghost use Rattle.cap_elf.specs.IsRead.{IsRead};
    ghost use Rattle.cap_fits.specs.Places.{is_in_code};
    ghost use Rattle.cap_scope.specs.Chosen.{object_at, chosen};
    ghost use Rattle.cap_reloc.specs.Wanted.{own as own_of, bias as bias_of, symbol_at, symbol_of, name_at};
    ghost use Rattle.cap_reloc.specs.Sound.{code_of, IsCodeIn, IsIn, IsChoiceIn, IsMappingOf};

    /// The number of the relocated object.
    pub(crate) fn index(&self) -> u32
        ensures value { result ≡ self.now.index }
        ensures few { result < 256 }
        ensures there { result < length self.now.objects }
    {
        self.index
    }

    /// The file of an object.
    pub(crate) fn file(&self, i: u32) -> &'a DynFile
        requires { i < length self.now.objects }
        ensures value { result.now.records ≡ object_at self.now.objects i }
    {
        self.objects[i as usize].file()
    }

    /// The file of the relocated object.
    pub(crate) fn own(&self) -> &'a DynFile
        ensures value { result.now.records ≡ own_of self.now }
    {
        self.file(self.index)
    }

    /// The mapping of an object.
    pub(crate) fn root(&self, i: u32) -> &'r Root
        requires { i < length self.now.objects }
        ensures { IsMappingOf self.now i result.now }
    {
        &self.roots[i as usize]
    }

    /// Where the relocated object begins.
    pub(crate) fn bias(&self) -> u64
        ensures value { result ≡ bias_of self.now }
        ensures end { result + (own_of self.now).span ≤ 2 ^ 62 }
    {
        self.root(self.index).base()
    }

    /// The range of code of an object, in which an address of its code lies.
    pub(crate) fn code(&self, i: u32, at: u64) -> Range
        requires there { i < length self.now.objects }
        requires code { is_in_code (object_at self.now.objects i) at ≡ true }
        ensures value { result ≡ code_of (object_at self.now.objects i) }
        ensures sound { IsCodeIn (object_at self.now.objects i) at }
    {
        match self.code[i as usize] {
            Some(range) => range,
            None => (0, 0),
        }
    }

    /// The symbol of a definition.
    pub(crate) fn symbol(&self, hit: Hit) -> Symbol
        requires { IsIn self.now hit }
        ensures { result ≡ symbol_of self.now hit }
    {
        self.file(hit.object).symbols()[hit.symbol as usize]
    }

    /// A symbol of the relocated object.
    pub(crate) fn own_symbol(&self, i: u32) -> Symbol
        requires { i < length (own_of self.now).symbols }
        ensures { result ≡ symbol_at (own_of self.now) i }
    {
        self.own().symbols()[i as usize]
    }

    /// The definition in the scope of the name of a symbol of the relocated object.
    pub(crate) fn choose(&self, i: u32) -> Choice
        requires { i < length (own_of self.now).symbols }
        ensures value { result ≡ chosen self.now.rule self.now.objects self.now.scope (name_at (own_of self.now) i) }
        ensures there { IsChoiceIn self.now result }
    {
        choose(self.objects, self.scope, self.own().name(i), self.rule).choice
    }
}
