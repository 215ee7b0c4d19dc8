//! The objects of a session in load order, each with all that belongs to it.

ghost use Rattle.std.specs.Prelude.{◌≡◌, ◌<◌, ◌≤◌, List, [], length, take, drop, All, IfSome, IfOk, IfErr, OnOk, OnErr, slice_index_or, option_copied, nat_lt, bytes_eq, ◌&&◌, ◌||◌};
ghost use Rattle.cap_session.specs.Loading.{Loaded, fetch_from, has_soname, is_answer, with_needed};
ghost use Rattle.cap_session.specs.Mappings.{IsName};
ghost use Rattle.cap_session.specs.Refused.{NamesNoFile, ReadsCounted};
ghost use Rattle.cap_session.specs.Roster.{IsRoster, IsClosed, Lists, Loads, Extends, empty_roster, answerer_in, called_in, cut_to, no_called, pad_start};

use crate::refusal::{OpenCause, OpenRefusal};
use crate::spans::give_back;
use cap_base::{Files, Name, NameList, NoMemory};
use cap_mem::Memory;
use cap_own::{Root, Space, Span};
use cap_scope::{Deps, Object};
use std::alloc::Global;
use std::marker::Model;

/// The objects, the words under which they were first sought, what they depend on, their pads and mappings, their
/// memories, and the names of their symbols.
pub(crate) struct Roster {
    pub(crate) alloc: Global,
    pub(crate) dir: String,
    pub(crate) objects: Vec<Object>,
    pub(crate) names: NameList,
    pub(crate) deps: Deps,
    pub(crate) pads: Vec<Span>,
    pub(crate) roots: Vec<Root>,
    pub(crate) memories: Vec<Memory>,
    pub(crate) symbols: Vec<NameList>,
    pub(crate) space: Space,
}

impl Model for Roster {
    ghost use Rattle.cap_session.specs.Roster.{RosterValue};

    ghost Value = { RosterValue };

    ghost use Rattle.cap_session.specs.RosterFields.{roster_of, AreFields};

    ghost view = { roster_of };

    ghost invariant = { AreFields };
}

impl Roster {
    /// Loads the object of this name, and then all that are needed, in breadth-first order. A refusal changes nothing.
    pub(crate) fn load<F: Files>(&mut self, files: &mut F, name: &str) -> Result<(), OpenRefusal>
        requires name { IsName name.now }
        requires closed { IsClosed self.old }

        // Where the store tells its files, the objects are those that they lead to, or the refusal is theirs.
        ensures loads { (objects : List Loaded) → Lists self.old objects → IfSome (F.told files.old) (λ store. Loads (with_needed (fetch_from store) self.old.dir objects name.now) self.old self.new result) }
        ensures extends { OnOk result (Extends self.old self.new) }
        ensures more { OnOk result (length self.old.objects < length self.new.objects) }
        ensures untagged { OnOk result (All (λ m. m.words ≡ []) (drop (length self.old.objects) self.new.memories)) }
        ensures closed { OnOk result (IsClosed self.new) }
        ensures err { OnErr result (self.new ≡ self.old) }
        ensures sound { IsRoster self.new }
        ensures reads { ReadsCounted (F.read_faults files.old) (F.read_faults files.new) result }
        ensures starved { IfErr result NamesNoFile }

        // The store keeps its files and what is being written.
        ensures told { F.told files.new ≡ F.told files.old }
        ensures writing { F.writing files.new ≡ F.writing files.old }
        ensures write_faults { F.write_faults files.new ≡ F.write_faults files.old }
    {
        let before = self.len();
        match self.load_all(files, name.as_bytes()) {
            Ok(()) => Ok(()),
            Err(refusal) => {
                self.cut(before);
                Err(refusal)
            }
        }
    }

    /// The roster without objects.
    pub(crate) fn new(alloc: Global, dir: &str) -> Result<Roster, NoMemory>
        ensures { IfOk result (λ r. r ≡ empty_roster dir.now) }
    {
        Ok(Roster {
            alloc,
            dir: String::from_str(alloc, dir)?,
            objects: Vec::new(alloc),
            names: NameList::new(alloc),
            deps: Deps::new(alloc),
            pads: Vec::new(alloc),
            roots: Vec::new(alloc),
            memories: Vec::new(alloc),
            symbols: Vec::new(alloc),
            space: Space::new(0x4000_0000, 0x4400_0000),
        })
    }

    /// The first object that answers to a name.
    pub(crate) fn answerer(&self, name: &[u8]) -> Option<u32>
        ensures value { result ≡ answerer_in self.now name.now }
        ensures inside { IfSome result (λ i. i < length self.now.objects) }
    {
        for i in 0..self.len() {
            if self.answers(i, name) {
                return Some(i);
            }
        }
        None
    }

    /// Whether the object of this number answers to a name: to its own, and to the one under which it was sought, unless
    /// it is the main object.
    fn answers(&self, i: u32, name: &[u8]) -> bool
        requires { i < length self.now.objects }
        ensures { result ≡ is_answer name.now (i, slice_index_or (called_in self.now) i no_called) }
    {
        let sought = self.names.name(i as usize);
        let soname = self.objects[i as usize].file().soname();
        is_called(name, i, sought, soname)
    }

    /// Takes the last objects off, and gives their addresses back. It takes no memory.
    pub(crate) fn cut(&mut self, len: u32)
        requires some { len ≤ length self.old.objects }
        requires within { All (λ of. All (λ i. i < len) of) (take len self.old.deps) }
        ensures value { self.new ≡ cut_to len self.old (pad_start len self.old) }
        ensures sound { IsRoster self.new }
    {
        let count = len as usize;
        give_back(&mut self.pads, &mut self.roots, &mut self.space, count);
        self.objects.truncate(count);
        self.names.cut(count);
        cut_deps(&mut self.deps, len);
        self.memories.truncate(count);
        self.symbols.truncate(count);
    }

    /// Gives every address back; what is left are the memories, in load order. It takes no memory.
    pub(crate) fn end(self) -> Vec<Memory>
        ensures { result.items ≡ self.memories }
    {
        let Roster {
            alloc: _,
            dir: _,
            objects: _,
            names: _,
            deps: _,
            mut pads,
            mut roots,
            memories,
            symbols: _,
            mut space,
        } = self;
        give_back(&mut pads, &mut roots, &mut space, 0);
        pads.destroy_empty();
        roots.destroy_empty();
        space.end();
        memories
    }

    pub(crate) fn objects(&self) -> &[Object]
        ensures objects { result.now ≡ self.now.objects }
        ensures sound { IsRoster self.now }
    {
        &self.objects
    }

    pub(crate) fn names(&self) -> &NameList
        ensures { result.now ≡ self.now.names }
    {
        &self.names
    }

    pub(crate) fn deps(&self) -> &Deps
        ensures { result.now ≡ self.now.deps }
    {
        &self.deps
    }

    pub(crate) fn memories(&self) -> &[Memory]
        ensures { result.now ≡ self.now.memories }
    {
        &self.memories
    }

    pub(crate) fn symbols(&self) -> &[NameList]
        ensures { result.now ≡ self.now.symbols }
    {
        &self.symbols
    }

    pub(crate) fn dir(&self) -> &[u8]
        ensures { result.now ≡ self.now.dir }
    {
        self.dir.as_bytes()
    }

    pub(crate) fn len(&self) -> u32
        ensures len { result ≡ length self.now.objects }
        ensures sound { IsRoster self.now }
    {
        self.objects.len() as u32
    }
}

/// Whether the object of this number, which was first sought under this word and has this DT_SONAME, answers to a name.
fn is_called(name: &[u8], i: u32, sought: &[u8], soname: Option<&[u8]>) -> bool
    ensures { result ≡ ((nat_lt 0 i && bytes_eq sought.now name.now) || has_soname name.now (option_copied soname.entry)) }
{
    (i > 0 && sought == name) || is_soname(name, soname)
}

/// Whether an object that has this DT_SONAME, or none, is called by a name.
fn is_soname(name: &[u8], soname: Option<&[u8]>) -> bool
    ensures { result ≡ has_soname name.now (option_copied soname.entry) }
{
    match soname {
        Some(soname) => soname == name,
        None => false,
    }
}

/// Keeps the first lists, so many of them, or all where there are fewer.
#[tactic(auto, using(std::proofs::lemmas::List::take_all))]
fn cut_deps(deps: &mut Deps, len: u32)
    ensures { deps.new ≡ take len deps.old }
{
    if len < deps.len() {
        deps.cut(len);
    }
}

/// There was not enough memory.
pub(crate) fn no_memory(alloc: Global) -> OpenRefusal
    ensures path { result.path ≡ [] }
    ensures cause { result.cause ≡ OpenCause.NoMemory }
{
    OpenRefusal {
        path: Name::empty(alloc),
        cause: OpenCause::NoMemory,
    }
}
