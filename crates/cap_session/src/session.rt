//! A session: a start, and the libraries that are opened after it.

ghost use Rattle.std.specs.Prelude.{◌≡◌, IfSome, IfOk, IfErr, OnErr};
ghost use Rattle.cap_fits.specs.Fits.{DataLieApart};
ghost use Rattle.cap_session.specs.Endings.{Opens, Starts};
ghost use Rattle.cap_session.specs.Exact.{IsReached, IsUnfitCall, IsUnfitStart, placed_in};
ghost use Rattle.cap_session.specs.Loading.{fetch_from};
ghost use Rattle.cap_session.specs.Mappings.{IsName};
ghost use Rattle.cap_session.specs.Refused.{NamesNoFile, ReadsCounted};
ghost use Rattle.cap_session.specs.Session.{Grows, IsSession, StandsFor};
ghost use Rattle.cap_session.specs.State.{State, opened, started};

use crate::laws::state_laws;
use crate::opening::{enter, load_main, load_named};
use crate::refusal::{Mode, OpenRefusal, Ready};
use crate::roster::{Roster, no_memory};
use crate::scope::LookUp;
use cap_base::{Files, NameList};
use cap_mem::Memory;
use cap_scope::{Deps, Object, Rule};
use std::alloc::Global;
use std::marker::Model;

/// A program and its libraries, in memory.
pub struct Session {
    roster: Roster,
    look_up: LookUp,
    starts: Vec<u32>,
}

impl Model for Session {
    ghost use Rattle.cap_session.specs.Session.{SessionValue, IsSession};

    ghost Value = { SessionValue };

    ghost use Rattle.cap_session.specs.Kept.{value_of};

    ghost view = { value_of };

    ghost invariant = { λ s. IsSession (value_of s) };
}

impl Session {
    /// Loads the program and all that it needs, and relocates them.
    ///
    /// `dir` is where libraries are sought, and `main` the path of the program. The refusal is the first in the order of
    /// loading, with the path of its file; `NoMemory` may come in place of any answer.
    pub fn start<F: Files>(
        alloc: Global,
        files: &mut F,
        dir: &str,
        main: &str,
        rule: Rule,
    ) -> Result<Session, OpenRefusal>
        requires main_name { IsName main.now }

        // Where the store tells its files, the session stands for the state that they lead to, or the refusal is theirs.
        ensures state { IfSome (F.told files.old) (λ store. Starts (started (fetch_from store) dir.now main.now rule) result) }
        ensures session { IfOk result IsSession }
        ensures apart { IfOk result (λ s. DataLieApart (placed_in s)) }
        ensures unfit { IfErr result (λ refusal. IfSome (F.told files.old) (λ store. IsUnfitStart (fetch_from store) dir.now main.now rule refusal)) }
        ensures dir { IfOk result (λ s. s.dir ≡ dir.now) }
        ensures rule { IfOk result (λ s. s.rule ≡ rule) }
        ensures reads { ReadsCounted (F.read_faults files.old) (F.read_faults files.new) result }
        ensures starved { IfErr result NamesNoFile }

        // The store keeps its files and what is being written.
        ensures told { F.told files.new ≡ F.told files.old }
        ensures writing { F.writing files.new ≡ F.writing files.old }
        ensures write_faults { F.write_faults files.new ≡ F.write_faults files.old }
    {
        state_laws();
        let Ok(starts) = vec![in alloc; 0u32; 1] else {
            return Err(no_memory(alloc));
        };
        let Ok(mut roster) = Roster::new(alloc, dir) else {
            return Err(no_memory(alloc));
        };
        match load_main(alloc, &mut roster, files, main, rule) {
            Ok(look_up) => Ok(Session {
                roster,
                look_up,
                starts,
            }),
            Err(refusal) => {
                roster.end();
                Err(refusal)
            }
        }
    }

    /// Opens a library, after the program has started.
    ///
    /// Where no object answers to the name, the library and all that it needs are loaded and relocated. A refusal leaves
    /// the session as it was; it is the first in the order of loading, with the path of its file, or `NoMemory`.
    pub fn open<F: Files>(
        &mut self,
        files: &mut F,
        name: &str,
        mode: Mode,
    ) -> Result<Ready, OpenRefusal>
        requires name { IsName name.now }

        // From a session that stands for a state to one that stands for the state after this call.
        ensures state { (state : State) → StandsFor self.old state → IfSome (F.told files.old) (λ store. Opens (opened (fetch_from store) self.old.dir self.old.rule state name.now mode) self.new result) }
        ensures session { IsSession self.new }
        ensures apart { DataLieApart (placed_in self.new) }
        ensures unfit { (state : State) → StandsFor self.old state → IsReached state → IfErr result (λ refusal. IfSome (F.told files.old) (λ store. IsUnfitCall (fetch_from store) self.old.dir self.old.rule state name.now mode refusal)) }
        ensures ready { IfOk result (λ ready. Grows self.old self.new ready.new) }
        ensures err { OnErr result (self.new ≡ self.old) }
        ensures reads { ReadsCounted (F.read_faults files.old) (F.read_faults files.new) result }
        ensures starved { IfErr result NamesNoFile }

        // The store keeps its files and what is being written.
        ensures told { F.told files.new ≡ F.told files.old }
        ensures writing { F.writing files.new ≡ F.writing files.old }
        ensures write_faults { F.write_faults files.new ≡ F.write_faults files.old }
    {
        state_laws();
        let before = self.roster.len();
        load_named(&mut self.roster, files, name)?;
        match enter(
            &mut self.roster,
            &mut self.look_up,
            &mut self.starts,
            name.as_bytes(),
            mode,
            before,
        ) {
            Ok(()) => Ok(Ready {
                new: self.roster.len() - before,
            }),
            Err(refusal) => {
                self.roster.cut(before);
                Err(refusal)
            }
        }
    }

    /// Gives every address back. The memories of the objects are left, in load order. It takes no memory.
    pub fn end(self) -> Vec<Memory>
        ensures { result.items ≡ self.memories }
    {
        let Session {
            roster,
            look_up: _,
            starts: _,
        } = self;
        roster.end()
    }

    /// The objects, in load order.
    pub fn objects(&self) -> &[Object]
        ensures objects { result.now ≡ self.now.objects }
        ensures sound { IsSession self.now }
    {
        self.roster.objects()
    }

    /// The memories of the objects.
    pub fn memories(&self) -> &[Memory]
        ensures { result.now ≡ self.now.memories }
    {
        self.roster.memories()
    }

    /// The words under which the objects were first sought.
    pub fn names(&self) -> &NameList
        ensures { result.now ≡ self.now.names }
    {
        self.roster.names()
    }

    /// For each object the names of its symbols, each defined where other objects may choose the symbol.
    pub fn symbols(&self) -> &[NameList]
        ensures { result.now ≡ self.now.symbols }
    {
        self.roster.symbols()
    }

    /// For each object those that answer to its needed names.
    pub fn deps(&self) -> &Deps
        ensures { result.now ≡ self.now.deps }
    {
        self.roster.deps()
    }

    /// The first object of the start, and of each call that loaded one.
    pub fn starts(&self) -> &[u32]
        ensures { result.now ≡ self.now.starts }
    {
        self.starts.as_slice()
    }
}
