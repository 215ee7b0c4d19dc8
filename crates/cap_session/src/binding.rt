//! Relocating the objects of a roster, and why one is refused.

ghost use Rattle.std.specs.Prelude.{◌≡◌, ℕ, ◌<◌, ◌≤◌, [], length, drop, All, IfOk, IfErr, OnOk};
ghost use Rattle.cap_elf.specs.IsRead.{IsRead};
ghost use Rattle.cap_scope.specs.Chosen.{object_at};
ghost use Rattle.cap_reloc.specs.Wanted.{name_at};
ghost use Rattle.cap_session.specs.Binding.{HasOwned, RelocatesFrom, Relocates, Rebinds, StaysBelow, Tells, hit_name as hit_name_in, memory_at, objects_in, pairs_for, pairs_from, path_in, reloc_cause, reloc_refusal, setting_with};
ghost use Rattle.cap_session.specs.Refused.{NamesNoFile, ReadsCounted};
ghost use Rattle.cap_session.specs.Roster.{IsRoster, records_in};

use crate::refusal::{OpenCause, OpenRefusal};
use crate::roster::{Roster, no_memory};
use crate::scope::{LookUp, scope_of};
use cap_base::{Name, NoMemory};
use cap_reloc::{RelocRefusal, relocate};
use cap_scope::{Hit, Object, Rule};
use std::alloc::Global;

impl Roster {
    /// Relocates all objects from one on, in load order. A refusal leaves the memories before it as they were.
    pub(crate) fn relocate_from(&mut self, look_up: &LookUp, from: u32) -> Result<(), OpenRefusal>
        requires from { from ≤ length self.old.objects }
        requires start { look_up.now.start_count ≤ length self.old.objects }
        requires trees { All (λ o. All (λ j. j < length self.old.objects) o.tree) look_up.now.openings.items }
        requires untagged { All (λ m. m.words ≡ []) (drop from self.old.memories) }
        ensures sound { IsRoster self.new }
        ensures relocates { RelocatesFrom (pairs_from look_up.now.rule self.old.dir (objects_in self.old) look_up.now.start_count look_up.now.openings.items from) from self.old self.new result }
        ensures stays { StaysBelow from self.old self.new }
        ensures owned { OnOk result (All (HasOwned self.old) (drop from self.new.memories)) }
        ensures read { OnOk result (All IsRead (drop from (records_in self.old))) }
        ensures starved { IfErr result NamesNoFile }
        ensures unread { (n : ℕ) → ReadsCounted n n result }
    {
        for i in from..self.len() {
            self.relocate_object(look_up, i)?;
        }
        Ok(())
    }

    /// Relocates one object. A refusal changes nothing.
    fn relocate_object(&mut self, look_up: &LookUp, i: u32) -> Result<(), OpenRefusal>
        requires index { i < length self.old.objects }
        requires start { look_up.now.start_count ≤ length self.old.objects }
        requires trees { All (λ o. All (λ j. j < length self.old.objects) o.tree) look_up.now.openings.items }
        requires untagged { (memory_at self.old i).words ≡ [] }
        ensures sound { IsRoster self.new }
        ensures relocates { Relocates (pairs_for look_up.now.rule self.old.dir (objects_in self.old) look_up.now.start_count look_up.now.openings.items i) i self.old self.new result }
        ensures owned { OnOk result (HasOwned self.old (memory_at self.new i)) }
        ensures read { IsRead (object_at (records_in self.old) i) }
        ensures starved { IfErr result NamesNoFile }
        ensures unread { (n : ℕ) → ReadsCounted n n result }
    {
        let symbolic = self.is_symbolic(i);
        let Ok(scope) = scope_of(
            self.alloc,
            symbolic,
            look_up.start_count,
            &look_up.openings,
            i,
        ) else {
            return Err(no_memory(self.alloc));
        };
        match self.relocate_one(i, &scope, look_up.rule) {
            Ok(()) => Ok(()),
            Err(refusal) => Err(self.open_refusal(i, refusal)),
        }
    }

    /// Whether an object looks names up in itself first (gABI, DT_SYMBOLIC).
    fn is_symbolic(&self, i: u32) -> bool
        requires { i < length self.now.objects }
        ensures value { result ≡ (object_at (records_in self.now) i).symbolic }
        ensures roster { IsRoster self.now }
        ensures sound { IsRead (object_at (records_in self.now) i) }
    {
        let file = self.objects[i as usize].file();
        let _ = file.symbols();
        file.symbolic()
    }

    /// Relocates one object, whose names are looked up in this scope. A refusal changes nothing.
    fn relocate_one(&mut self, i: u32, scope: &[u32], rule: Rule) -> Result<(), RelocRefusal>
        requires index { i < length self.old.objects }
        requires scope { All (λ j. j < length self.old.objects) scope.now }
        requires untagged { (memory_at self.old i).words ≡ [] }
        ensures sound { IsRoster self.new }
        ensures rebinds { Rebinds (setting_with rule (objects_in self.old) scope.now i) self.old self.new result }
        ensures owned { HasOwned self.old (memory_at self.new i) }
    {
        relocate(
            self.alloc,
            &self.objects,
            &self.roots,
            i,
            scope,
            rule,
            &mut self.memories[i as usize],
        )
    }

    /// Why the relocation of an object refuses a call, with the object's path.
    fn open_refusal(&self, i: u32, refusal: RelocRefusal) -> OpenRefusal
        requires { i < length self.now.objects }
        ensures tells { Tells (reloc_refusal self.now.dir (objects_in self.now) i refusal) refusal result }
        ensures starved { NamesNoFile result }
    {
        match self.path(i) {
            Ok(path) => self.refusal_at(path, i, refusal),
            Err(NoMemory) => no_memory(self.alloc),
        }
    }

    /// The same, where this is the path.
    fn refusal_at(&self, path: Name, i: u32, refusal: RelocRefusal) -> OpenRefusal
        requires { path ≡ path_in self.now.dir (objects_in self.now) i }
        ensures tells { Tells (reloc_refusal self.now.dir (objects_in self.now) i refusal) refusal result }
        ensures starved { NamesNoFile result }
    {
        match self.cause(i, refusal) {
            Ok(OpenCause::NoMemory) | Err(NoMemory) => no_memory(self.alloc),
            Ok(cause) => OpenRefusal { path, cause },
        }
    }

    /// The path of an object: the main object's is its word, and a library's stands in the directory.
    fn path(&self, i: u32) -> Result<Name, NoMemory>
        requires { i < length self.now.objects }
        ensures { IfOk result (λ path. path ≡ path_in self.now.dir (objects_in self.now) i) }
    {
        let name = self.names.name(i as usize);
        if i == 0 {
            return Name::of(self.alloc, name);
        }
        let mut path = self.dir().to_vec(self.alloc)?;
        path.push(b'/')?;
        path.extend_from_slice(name)?;
        Name::of(self.alloc, &path)
    }

    fn cause(&self, i: u32, refusal: RelocRefusal) -> Result<OpenCause, NoMemory>
        ensures { IfOk result (λ cause. cause ≡ reloc_cause (records_in self.now) i refusal) }
    {
        match refusal {
            RelocRefusal::Malformed { check, at } => Ok(OpenCause::Malformed { check, at }),
            RelocRefusal::Unsupported { check, at } => Ok(OpenCause::Unsupported { check, at }),
            RelocRefusal::Unresolved { symbol } => {
                let name = Name::of(self.alloc, self.symbol_name(i, symbol))?;
                Ok(OpenCause::Unresolved { name })
            }
            RelocRefusal::Inexact { hit, base, len } => {
                let name = self.hit_name(hit)?;
                Ok(OpenCause::Inexact { name, base, len })
            }
            RelocRefusal::NoMemory => Err(NoMemory),
        }
    }

    /// The name of a definition, or `-` for an entry of `__cap_relocs`.
    fn hit_name(&self, hit: Option<Hit>) -> Result<Name, NoMemory>
        ensures { IfOk result (λ name. name ≡ hit_name_in (records_in self.now) hit) }
    {
        match hit {
            None => Name::of(self.alloc, b"-"),
            Some(Hit { object, symbol }) => {
                Name::of(self.alloc, self.symbol_name(object, symbol))
            }
        }
    }

    /// The name of a symbol of an object, or none where there is no such symbol.
    fn symbol_name(&self, object: u32, symbol: u32) -> &[u8]
        ensures { result.now ≡ name_at (object_at (records_in self.now) object) symbol }
    {
        match self.objects.get(object as usize) {
            None => &[],
            Some(object) => name_in(object, symbol),
        }
    }
}

fn name_in(object: &Object, symbol: u32) -> &[u8]
    ensures { result.now ≡ name_at object.now.records symbol }
{
    let file = object.file();
    if (symbol as usize) < file.symbols().len() {
        file.name(symbol)
    } else {
        &[]
    }
}
