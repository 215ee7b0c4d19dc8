//! The relocations of an input that were walked so far.

ghost use Rattle.std.specs.Prelude.{◌≡◌, ◌+◌, ◌^◌, ◌<◌, ◌≤◌, false, length, IfOk};
ghost use Rattle.cap_table.specs.Kinds.{is_slot as is_slot_of, width_of as width_of_kind};
ghost use Rattle.cap_table.specs.Checks.{clashes as clashes_of};
ghost use Rattle.cap_table.specs.Walked.{field_of, next_of};

use crate::kinds::{is_slot, width_of};
use cap_base::NoMemory;
use cap_elf::Reloc;
use cap_intervals::{Groups, Interval};
use std::alloc::Global;
use std::marker::Model;

/// The relocations of an input, how many of them were walked, and in each section the fields of the slots among these.
#[derive(Drop)]
pub(crate) struct Walked<'a> {
    relocs: &'a [Reloc],
    done: usize,
    fields: Groups,
}

impl<'a> Model for Walked<'a> {
    ghost use Rattle.std.specs.Prelude.{◌≤◌, length, take};
    ghost use Rattle.cap_intervals.specs.Groups.{group_count};
    ghost use Rattle.cap_table.specs.Walked.{WalkedValue, AreFieldsOf};

    ghost Value = { WalkedValue };

    ghost view = { λ w. record { relocs = w.relocs.now; done = w.done; sections = group_count w.fields } };

    ghost invariant = { λ w. (w.done ≤ length w.relocs.now) × AreFieldsOf w.fields (take w.done w.relocs.now) };
}

fn field(reloc: &Reloc) -> Interval
    requires { reloc.now.offset + width_of_kind reloc.now.kind ≤ 2 ^ 62 }
    ensures { result ≡ field_of reloc.now }
{
    Interval {
        start: reloc.offset,
        end: reloc.offset + width_of(reloc.kind),
    }
}

impl<'a> Walked<'a> {
    /// None was walked. The input has so many sections.
    pub(crate) fn new(
        alloc: Global,
        relocs: &'a [Reloc],
        sections: usize,
    ) -> Result<Walked<'a>, NoMemory>
        ensures { IfOk result (λ w. w ≡ record { relocs = relocs.now; done = 0; sections = sections }) }
    {
        let fields = Groups::new(alloc, sections)?;
        Ok(Walked {
            relocs,
            done: 0,
            fields,
        })
    }

    /// The index of the next relocation.
    pub(crate) fn index(&self) -> u32
        requires { self.now.done < 2 ^ 32 }
        ensures { result ≡ self.now.done }
    {
        self.done as u32
    }

    /// The next relocation.
    pub(crate) fn next(&self) -> &'a Reloc
        requires { self.now.done < length self.now.relocs }
        ensures { result.now ≡ next_of self.now }
    {
        &self.relocs[self.done]
    }

    /// Whether the field of a slot shares a byte with that of a slot before.
    pub(crate) fn clashes(&self, reloc: &Reloc) -> bool
        requires section { reloc.now.section < self.now.sections }
        requires end { reloc.now.offset + width_of_kind reloc.now.kind ≤ 2 ^ 62 }
        ensures { result ≡ clashes_of self.now.relocs self.now.done reloc.now }
    {
        is_slot(reloc.kind)
            && self
                .fields
                .clashes(false, reloc.section as usize, field(reloc))
    }

    /// Goes on past a relocation that isn't a slot.
    pub(crate) fn skip(self) -> Walked<'a>
        requires more { self.done < length self.relocs }
        requires other { is_slot_of (next_of self).kind ≡ false }
        ensures { result ≡ record self.entry { done = self.entry.done + 1 } }
    {
        let Walked {
            relocs,
            done,
            fields,
        } = self;
        Walked {
            relocs,
            done: done + 1,
            fields,
        }
    }

    /// Goes on past a relocation, and takes its field where it is a slot.
    pub(crate) fn add(self) -> Result<Walked<'a>, NoMemory>
        requires more { self.done < length self.relocs }
        requires section { (next_of self).section < self.sections }
        requires end { (next_of self).offset + width_of_kind (next_of self).kind ≤ 2 ^ 62 }
        requires free { clashes_of self.relocs self.done (next_of self) ≡ false }
        ensures { IfOk result (λ w. w ≡ record self.entry { done = self.entry.done + 1 }) }
    {
        let reloc = self.next();
        let Walked {
            relocs,
            done,
            mut fields,
        } = self;
        if !is_slot(reloc.kind) {
            return Ok(Walked {
                relocs,
                done: done + 1,
                fields,
            });
        }
        fields.add(false, reloc.section as usize, field(reloc))?;
        Ok(Walked {
            relocs,
            done: done + 1,
            fields,
        })
    }
}
