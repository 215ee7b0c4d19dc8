//! Loading one object.

ghost use Rattle.std.specs.Prelude.{◌≡◌, ◌<◌, Ok, length, OnOk, IfOk, string_bytes, vec_len, vec_capacity};
ghost use Rattle.cap_elf.specs.DynView.{dyn_view};
ghost use Rattle.cap_elf.specs.IsRead.{IsRead};
ghost use Rattle.cap_scope.specs.Candidates.{hash_table};
ghost use Rattle.cap_session.specs.Adding.{Adds, Puts, TellsPath, is_no_memory as lacks_memory};
ghost use Rattle.cap_session.specs.Causes.{CountedBy};
ghost use Rattle.cap_session.specs.Loading.{path_of as path_to};
ghost use Rattle.cap_session.specs.Mappings.{IsName};
ghost use Rattle.cap_session.specs.Refused.{NamesNoFile};
ghost use Rattle.cap_session.specs.Roster.{IsRoster};

use crate::fetching::{Fetched, fetch, refusal_cause};
use crate::refusal::{OpenCause, OpenRefusal};
use crate::roster::{Roster, no_memory};
use cap_base::{Check, Files, Name, NameList, NoMemory, Refusal};
use cap_map::{Placed, place};
use cap_mem::Memory;
use cap_own::{Root, Span};
use cap_scope::Object;
use std::alloc::Global;

/// A session has no more objects.
const MOST_OBJECTS: u32 = 256;

impl Roster {
    /// Puts the object of a path behind the others, under this name. A refusal changes nothing.
    pub(crate) fn add<F: Files>(
        &mut self,
        files: &mut F,
        path: &str,
        name: &[u8],
    ) -> Result<(), OpenCause>
        requires { IsName name.now }
        ensures adds { Adds (F.told files.old) path.now name.now self.old self.new result }
        ensures sound { IsRoster self.new }
        ensures reads { CountedBy (F.read_faults files.old) (F.read_faults files.new) result }

        // The store keeps its files and what is being written.
        ensures told { F.told files.new ≡ F.told files.old }
        ensures writing { F.writing files.new ≡ F.writing files.old }
        ensures write_faults { F.write_faults files.new ≡ F.write_faults files.old }
    {
        let number = self.len();
        if number >= MOST_OBJECTS {
            return Err(OpenCause::Limit {
                check: Check::ObjectCount.number(),
            });
        }
        let Fetched { object, bytes } = fetch(self.alloc, files, path, number)?;
        match self.put(object, name, &bytes) {
            Ok(()) => Ok(()),
            Err(refusal) => Err(refusal_cause(self.alloc, refusal)),
        }
    }

    /// Puts an object behind the others, under this name. A refusal changes nothing.
    fn put(&mut self, object: Object, name: &[u8], bytes: &[u8]) -> Result<(), Refusal>
        requires name { IsName name.now }
        requires few { length self.old.objects < 256 }
        requires view { dyn_view bytes.now ≡ Ok object.records }
        requires read { IsRead object.records }
        ensures puts { Puts self.old self.new object name.now bytes.now result }
        ensures sound { IsRoster self.new }
    {
        let Ok(symbols) = object.names(self.alloc) else {
            return Err(Refusal::NoMemory);
        };
        self.put_named(object, symbols, name, bytes)
    }

    /// The same, with the names of its symbols.
    fn put_named(
        &mut self,
        object: Object,
        symbols: NameList,
        name: &[u8],
        bytes: &[u8],
    ) -> Result<(), Refusal>
        requires name { IsName name.now }
        requires few { length self.old.objects < 256 }
        requires view { dyn_view bytes.now ≡ Ok object.records }
        requires read { IsRead object.records }
        requires symbols { symbols ≡ (hash_table object.records).names }
        ensures puts { Puts self.old self.new object name.now bytes.now result }
        ensures sound { IsRoster self.new }
    {
        let count = self.objects.len();
        // Neither a span nor a root can be dropped, so nothing may fail behind `place`.
        let Ok(()) = reserve_each(
            &mut self.objects,
            &mut self.pads,
            &mut self.roots,
            &mut self.memories,
            &mut self.symbols,
        ) else {
            return Err(Refusal::NoMemory);
        };
        let Ok(()) = self.names.push(name, true) else {
            return Err(Refusal::NoMemory);
        };
        match place(
            self.alloc,
            object.file(),
            bytes,
            &mut self.space,
            count as u32,
        ) {
            Ok(Placed { pad, root, memory }) => {
                self.objects.push_reserved(object);
                self.pads.push_reserved(pad);
                self.roots.push_reserved(root);
                self.memories.push_reserved(memory);
                self.symbols.push_reserved(symbols);
                Ok(())
            }
            Err(refusal) => {
                self.names.cut(count);
                Err(refusal)
            }
        }
    }
}

/// Makes room for one more of each.
fn reserve_each(
    objects: &mut Vec<Object>,
    pads: &mut Vec<Span>,
    roots: &mut Vec<Root>,
    memories: &mut Vec<Memory>,
    symbols: &mut Vec<NameList>,
) -> Result<(), NoMemory>
    ensures objects { objects.new.items ≡ objects.old.items }
    ensures pads { pads.new.items ≡ pads.old.items }
    ensures roots { roots.new.items ≡ roots.old.items }
    ensures memories { memories.new.items ≡ memories.old.items }
    ensures symbols { symbols.new.items ≡ symbols.old.items }
    ensures object_room { OnOk result (vec_len objects.new < vec_capacity objects.new) }
    ensures pad_room { OnOk result (vec_len pads.new < vec_capacity pads.new) }
    ensures root_room { OnOk result (vec_len roots.new < vec_capacity roots.new) }
    ensures memory_room { OnOk result (vec_len memories.new < vec_capacity memories.new) }
    ensures symbol_room { OnOk result (vec_len symbols.new < vec_capacity symbols.new) }
{
    objects.reserve(1)?;
    pads.reserve(1)?;
    roots.reserve(1)?;
    memories.reserve(1)?;
    symbols.reserve(1)?;
    Ok(())
}

/// The path of an object: the main object's is its word, and a library's stands in the directory.
pub(crate) fn path_of(alloc: Global, dir: &str, i: u32, name: &str) -> Result<String, NoMemory>
    ensures { IfOk result (λ path. string_bytes path ≡ path_to dir.now i name.now) }
{
    if i == 0 {
        return Ok(String::from_str(alloc, name)?);
    }
    let mut path = String::from_str(alloc, dir)?;
    path.push_str("/")?;
    path.push_str(name)?;
    Ok(path)
}

/// The text of a name.
pub(crate) fn text_of(name: &[u8]) -> &str
    requires { IsName name.now }
    ensures { result.now ≡ name.now }
{
    str::from_utf8(name).unwrap()
}

/// The refusal of a path by a cause.
#[tactic(auto, using(crate::proofs::Refusing::tells_starved))]
pub(crate) fn refusal_at(alloc: Global, path: &str, cause: OpenCause) -> OpenRefusal
    ensures tells { TellsPath path.now cause result }
    ensures starved { NamesNoFile result }
{
    if is_no_memory(&cause) {
        return no_memory(alloc);
    }
    match Name::of(alloc, path.as_bytes()) {
        Ok(path) => OpenRefusal { path, cause },
        Err(NoMemory) => no_memory(alloc),
    }
}

fn is_no_memory(cause: &OpenCause) -> bool
    ensures { result ≡ lacks_memory cause.now }
{
    match cause {
        OpenCause::NoMemory => true,
        OpenCause::NoFile
        | OpenCause::Malformed { .. }
        | OpenCause::Unsupported { .. }
        | OpenCause::Unresolved { .. }
        | OpenCause::Inexact { .. }
        | OpenCause::Full { .. }
        | OpenCause::Limit { .. }
        | OpenCause::ReadFault => false,
    }
}
