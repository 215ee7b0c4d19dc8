//! Records of the linked file.

use std::marker::Model;

/// A symbol of the linked file (Elf64_Sym).
#[derive(Drop)]
pub struct DynSymbol<'a> {
    pub name: &'a [u8],
    /// STB_GLOBAL 1, STB_WEAK 2; 0 for the null symbol.
    pub binding: u8,
    /// STT_NOTYPE 0, STT_OBJECT 1, STT_FUNC 2.
    pub kind: u8,
    /// STV_DEFAULT 0, STV_PROTECTED 3.
    pub visibility: u8,
    /// 0 where it is left to load, SHN_ABS 0xfff1, else 1.
    pub section: u16,
    /// Its address before the file is loaded; where it is absolute, the value itself; 0 where it is left to load.
    pub value: u64,
    /// In bytes, padded where it has a piece of its own.
    pub size: u64,
}

impl<'a> Model for DynSymbol<'a> {
    ghost use Rattle.cap_table.specs.Lists.{DynSymbolValue};

    ghost Value = { DynSymbolValue };

    ghost view = { λ s. record { name = s.name.now; binding = s.binding; kind = s.kind; visibility = s.visibility; section = s.section; value = s.value; size = s.size } };
}

/// An entry of the dynamic table (Elf64_Dyn).
#[derive(Clone, Copy, Debug, PartialEq, Eq)]
pub struct DynEntry {
    /// What the entry tells of (d_tag).
    pub tag: u64,
    /// An address before the file is loaded, a size in bytes, or an offset among the names.
    pub value: u64,
}
