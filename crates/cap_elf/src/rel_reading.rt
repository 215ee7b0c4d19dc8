//! Reading a relocatable object, stage by stage.

ghost use Rattle.std.specs.Prelude.{◌<◌, ◌^◌, length, IfOk};
ghost use Rattle.cap_base.specs.Steps.{Gives};
ghost use Rattle.cap_elf.specs.NamePlaces.{AreNamesInside};
ghost use Rattle.cap_elf.specs.RelView.{rel_records_of, rel_records_view};

use crate::header::header;
use crate::records::{Reloc, Section, Symbol};
use crate::rel_named::NamePlace;
use crate::rel_relocs::read_rel_relocs;
use crate::rel_symbols::{read_rel_symbols, read_symtab};
use crate::sections::{Strings, read_sections, section_headers, section_names, section_table};
use cap_base::Stop;
use std::alloc::Global;

/// What the bytes of a relocatable object tell.
#[derive(Drop)]
pub(crate) struct RelRecords {
    pub(crate) flags: u32,
    pub(crate) sections: Vec<Section>,
    pub(crate) symbols: Vec<Symbol>,
    pub(crate) strings: Strings,
    pub(crate) names: Vec<NamePlace>,
    pub(crate) relocs: Vec<Reloc>,
}

/// The records of a relocatable object, or the first check that it fails.
#[tactic(auto, unfolding(crate::specs::RelView::rel_records_of))]
pub(crate) fn read_rel_records(alloc: Global, bytes: &[u8]) -> Result<RelRecords, Stop>
    ensures value { Gives (rel_records_view bytes.now) result (rel_records_of bytes.now) }
    ensures names { IfOk result (λ r. AreNamesInside (length bytes.now) r.strings r.names.items) }
    ensures few { IfOk result (λ r. length r.sections.items < 2 ^ 16) }
{
    let flags = header(1, bytes)?;
    let place = section_table(bytes)?;
    let headers = section_headers(alloc, bytes, place)?;
    let names = section_names(bytes, &headers)?;
    let sections = read_sections(alloc, bytes.len() as u64, names, &headers)?;
    let symtab = read_symtab(bytes, &headers)?;
    let named = read_rel_symbols(alloc, bytes, &sections, symtab)?;
    let (symbols, names) = named.apart();
    let relocs = read_rel_relocs(alloc, bytes, &headers, &sections, symtab.place.count)?;
    Ok(RelRecords {
        flags,
        sections,
        symbols,
        strings: symtab.strings,
        names,
        relocs,
    })
}
