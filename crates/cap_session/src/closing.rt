//! Loading all that the objects need.

ghost use Rattle.std.specs.Prelude.{◌≡◌, ◌+◌, ◌<◌, ◌∷◌, ◌++◌, [], Some, None, find, length, map, take, IfOk, IfErr, OnOk, OnErr, slice_index_or};
ghost use Rattle.cap_session.specs.Closing.{AddsOne, Behind, Closes, LoadsAll, is_unanswered, needed_by};
ghost use Rattle.cap_session.specs.Mappings.{IsName};
ghost use Rattle.cap_session.specs.Refused.{NamesNoFile, ReadsCounted};
ghost use Rattle.cap_session.specs.Roster.{IsClosed, IsRoster, answerer_in};

use crate::adding::{path_of, refusal_at, text_of};
use crate::refusal::OpenRefusal;
use crate::roster::{Roster, no_memory};
use cap_base::{Files, Name, NoMemory};

impl Roster {
    /// Loads the object of a name, and then all that are needed. After a refusal some of them may be there.
    pub(crate) fn load_all<F: Files>(
        &mut self,
        files: &mut F,
        name: &[u8],
    ) -> Result<(), OpenRefusal>
        requires name { IsName name.now }
        ensures loads { LoadsAll (F.told files.old) name.now self.old self.new result }
        ensures behind { Behind self.old self.new }
        ensures more { OnOk result (length self.old.objects < length self.new.objects) }
        ensures closed { OnOk result (IsClosed self.new) }
        ensures sound { IsRoster self.new }
        ensures reads { ReadsCounted (F.read_faults files.old) (F.read_faults files.new) result }
        ensures starved { IfErr result NamesNoFile }
        ensures told { F.told files.new ≡ F.told files.old }
        ensures writing { F.writing files.new ≡ F.writing files.old }
        ensures write_faults { F.write_faults files.new ≡ F.write_faults files.old }
    {
        // What every roster has is promised with its length.
        let _ = self.len();
        self.load_one(files, name)?;
        self.close(files)
    }

    /// Gives each object that has none its list of dependencies; where no object answers to a needed name, the library
    /// is loaded and put behind the others. There are at most 256 objects.
    pub(crate) fn close<F: Files>(&mut self, files: &mut F) -> Result<(), OpenRefusal>
        ensures closes { Closes (F.told files.old) self.old self.new result }
        ensures behind { Behind self.old self.new }
        ensures closed { OnOk result (IsClosed self.new) }
        ensures sound { IsRoster self.new }
        ensures reads { ReadsCounted (F.read_faults files.old) (F.read_faults files.new) result }
        ensures starved { IfErr result NamesNoFile }
        ensures told { F.told files.new ≡ F.told files.old }
        ensures writing { F.writing files.new ≡ F.writing files.old }
        ensures write_faults { F.write_faults files.new ≡ F.write_faults files.old }
    {
        for i in self.deps.len()..256 {
            if i >= self.len() {
                return Ok(());
            }
            self.enter_deps(files, i)?;
        }
        Ok(())
    }

    /// The same for the first object that has no list.
    fn enter_deps<F: Files>(&mut self, files: &mut F, i: u32) -> Result<(), OpenRefusal>
        requires next { i ≡ length self.old.deps }
        requires inside { i < length self.old.objects }
        ensures closes { Closes (F.told files.old) self.old self.new result }
        ensures behind { Behind self.old self.new }
        ensures more { OnOk result (length self.new.deps ≡ length self.old.deps + 1) }
        ensures sound { IsRoster self.new }
        ensures reads { ReadsCounted (F.read_faults files.old) (F.read_faults files.new) result }
        ensures starved { IfErr result NamesNoFile }
        ensures told { F.told files.new ≡ F.told files.old }
        ensures writing { F.writing files.new ≡ F.writing files.old }
        ensures write_faults { F.write_faults files.new ≡ F.write_faults files.old }
    {
        let mut of = Vec::new(self.alloc);
        for k in 0..self.needed_len(i) {
            let d = self.dependency(files, i, k)?;
            let Ok(()) = of.push(d) else {
                return Err(no_memory(self.alloc));
            };
        }
        let Ok(()) = self.enter(&of) else {
            return Err(no_memory(self.alloc));
        };
        Ok(())
    }

    /// How many names an object needs.
    fn needed_len(&self, i: u32) -> usize
        requires { i < length self.now.objects }
        ensures { result ≡ length (needed_by self.now i) }
    {
        self.objects[i as usize].file().needed_len()
    }

    /// A name that an object needs.
    fn needed_name(&self, i: u32, k: usize) -> &[u8]
        requires inside { i < length self.now.objects }
        requires needed { k < length (needed_by self.now i) }
        ensures value { result.now ≡ slice_index_or (needed_by self.now i) k [] }
        ensures named { IsName result.now }
    {
        let file = self.objects[i as usize].file();
        // What every read object has, its names among it, is promised with its span.
        let _ = file.span();
        file.needed(k)
    }

    /// Enters the dependencies of the first object that has no list.
    fn enter(&mut self, of: &[u32]) -> Result<(), NoMemory>
        requires inside { length self.old.deps < length self.old.objects }
        requires answer { map (answerer_in self.old) (needed_by self.old (length self.old.deps)) ≡ map Some of.now }
        ensures ok { OnOk result (self.new ≡ record self.old { deps = self.old.deps ++ of.now ∷ [] }) }
        ensures err { OnErr result (self.new ≡ self.old) }
        ensures sound { IsRoster self.new }
    {
        self.deps.push(of)?;
        Ok(())
    }

    /// The object that answers to a name that the first object without a list needs: an object that is there, or the
    /// library of that name, which is loaded.
    fn dependency<F: Files>(&mut self, files: &mut F, i: u32, k: usize) -> Result<u32, OpenRefusal>
        requires next { i ≡ length self.old.deps }
        requires inside { i < length self.old.objects }
        requires needed { k < length (needed_by self.old i) }
        requires before { find (is_unanswered self.old) (take k (needed_by self.old i)) ≡ None }
        ensures answers { IfOk result (λ d. answerer_in self.new (slice_index_or (needed_by self.old i) k []) ≡ Some d) }
        ensures deps { self.new.deps ≡ self.old.deps }
        ensures closes { Closes (F.told files.old) self.old self.new result }
        ensures behind { Behind self.old self.new }
        ensures sound { IsRoster self.new }
        ensures reads { ReadsCounted (F.read_faults files.old) (F.read_faults files.new) result }
        ensures starved { IfErr result NamesNoFile }
        ensures told { F.told files.new ≡ F.told files.old }
        ensures writing { F.writing files.new ≡ F.writing files.old }
        ensures write_faults { F.write_faults files.new ≡ F.write_faults files.old }
    {
        let name = self.needed_name(i, k);
        if let Some(d) = self.answerer(name) {
            return Ok(d);
        }
        let Ok(name) = Name::of(self.alloc, name) else {
            return Err(no_memory(self.alloc));
        };
        let d = self.len();
        match self.load_one(files, name.bytes()) {
            Ok(()) => Ok(d),
            Err(refusal) => Err(refusal),
        }
    }

    /// Loads the object of a name. A refusal changes nothing.
    pub(crate) fn load_one<F: Files>(
        &mut self,
        files: &mut F,
        name: &[u8],
    ) -> Result<(), OpenRefusal>
        requires { IsName name.now }
        ensures adds { AddsOne (F.told files.old) name.now self.old self.new result }
        ensures sound { IsRoster self.new }
        ensures reads { ReadsCounted (F.read_faults files.old) (F.read_faults files.new) result }
        ensures starved { IfErr result NamesNoFile }
        ensures told { F.told files.new ≡ F.told files.old }
        ensures writing { F.writing files.new ≡ F.writing files.old }
        ensures write_faults { F.write_faults files.new ≡ F.write_faults files.old }
    {
        let Ok(path) = path_of(self.alloc, &self.dir, self.len(), text_of(name)) else {
            return Err(no_memory(self.alloc));
        };
        match self.add(files, &path, name) {
            Ok(()) => Ok(()),
            Err(cause) => Err(refusal_at(self.alloc, &path, cause)),
        }
    }
}
