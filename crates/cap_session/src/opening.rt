//! Loading what a start or a call asks for, and relocating it.

ghost use Rattle.std.specs.Prelude.{◌≡◌, ℕ, ◌++◌, ◌∷◌, ◌<◌, ◌≤◌, [], length, drop, All, IfSome, IfOk, IfErr, OnOk, OnErr, List};
ghost use Rattle.cap_elf.specs.IsRead.{IsRead};
ghost use Rattle.cap_session.specs.Binding.{HasOwned, RelocatesFrom, StaysBelow, objects_in, pairs_from};
ghost use Rattle.cap_session.specs.Entering.{opening_in, start_between, with_on_ok};
ghost use Rattle.cap_session.specs.Kept.{StartsWith, session_with};
ghost use Rattle.cap_session.specs.Loading.{Loaded, fetch_from, with_named};
ghost use Rattle.cap_session.specs.Mappings.{IsName};
ghost use Rattle.cap_session.specs.Refused.{NamesNoFile, ReadsCounted};
ghost use Rattle.cap_session.specs.Roster.{Extends, IsClosed, IsRoster, Lists, Loads, empty_roster, records_in};
ghost use Rattle.cap_session.specs.Session.{IsSession};
ghost use Rattle.cap_session.specs.State.{started};

use crate::refusal::{Mode, OpenRefusal};
use crate::roster::{Roster, no_memory};
use crate::scope::{LookUp, Opened};
use cap_base::{Files, NoMemory};
use cap_scope::{Rule, breadth};
use std::alloc::Global;

/// Loads and relocates the program and all that it needs.
pub(crate) fn load_main<F: Files>(
    alloc: Global,
    roster: &mut Roster,
    files: &mut F,
    main: &str,
    rule: Rule,
) -> Result<LookUp, OpenRefusal>
    requires empty { roster.old ≡ empty_roster roster.old.dir }
    requires main_name { IsName main.now }
    ensures state { IfSome (F.told files.old) (λ store. StartsWith (started (fetch_from store) roster.old.dir main.now rule) roster.new result) }
    ensures session { IfOk result (λ look_up. IsSession (session_with roster.new look_up (0 ∷ []))) }
    ensures dir { roster.new.dir ≡ roster.old.dir }
    ensures rule { IfOk result (λ look_up. look_up.rule ≡ rule) }
    ensures reads { ReadsCounted (F.read_faults files.old) (F.read_faults files.new) result }
    ensures starved { IfErr result NamesNoFile }
    ensures told { F.told files.new ≡ F.told files.old }
    ensures writing { F.writing files.new ≡ F.writing files.old }
    ensures write_faults { F.write_faults files.new ≡ F.write_faults files.old }
{
    roster.load(files, main)?;
    let look_up = LookUp {
        rule,
        start_count: roster.len(),
        openings: Vec::new(alloc),
    };
    roster.relocate_from(&look_up, 0)?;
    Ok(look_up)
}

/// Loads a library and all that it needs, unless an object answers to its name. A refusal changes nothing.
pub(crate) fn load_named<F: Files>(
    roster: &mut Roster,
    files: &mut F,
    name: &str,
) -> Result<(), OpenRefusal>
    requires name { IsName name.now }
    requires roster { IsRoster roster.old }
    requires closed { IsClosed roster.old }
    ensures loads { (objects : List Loaded) → Lists roster.old objects → IfSome (F.told files.old) (λ store. Loads (with_named (fetch_from store) roster.old.dir objects name.now) roster.old roster.new result) }
    ensures extends { OnOk result (Extends roster.old roster.new) }
    ensures untagged { OnOk result (All (λ m. m.words ≡ []) (drop (length roster.old.objects) roster.new.memories)) }
    ensures closed { OnOk result (IsClosed roster.new) }
    ensures err { OnErr result (roster.new ≡ roster.old) }
    ensures sound { IsRoster roster.new }
    ensures reads { ReadsCounted (F.read_faults files.old) (F.read_faults files.new) result }
    ensures starved { IfErr result NamesNoFile }
    ensures told { F.told files.new ≡ F.told files.old }
    ensures writing { F.writing files.new ≡ F.writing files.old }
    ensures write_faults { F.write_faults files.new ≡ F.write_faults files.old }
{
    match roster.answerer(name.as_bytes()) {
        Some(_) => Ok(()),
        None => roster.load(files, name),
    }
}

/// Enters the opening of a library that is loaded, and relocates the objects from `before` on. A refusal takes all that
/// was entered off again.
pub(crate) fn enter(
    roster: &mut Roster,
    look_up: &mut LookUp,
    starts: &mut Vec<u32>,
    name: &[u8],
    mode: Mode,
    before: u32,
) -> Result<(), OpenRefusal>
    requires some { 0 < length roster.old.objects }
    requires before { before ≤ length roster.old.objects }
    requires closed { IsClosed roster.old }
    requires untagged { All (λ m. m.words ≡ []) (drop before roster.old.memories) }
    requires start { look_up.old.start_count ≤ length roster.old.objects }
    requires trees { All (λ o. All (λ i. i < length roster.old.objects) o.tree) look_up.old.openings.items }
    ensures rule { look_up.new.rule ≡ look_up.old.rule }
    ensures start_count { look_up.new.start_count ≡ look_up.old.start_count }
    ensures openings { look_up.new.openings.items ≡ with_on_ok result look_up.old.openings.items (opening_in roster.old name.now mode ∷ []) }
    ensures starts { starts.new.items ≡ with_on_ok result starts.old.items (start_between before (length roster.old.objects)) }
    ensures relocates { RelocatesFrom (pairs_from look_up.old.rule roster.old.dir (objects_in roster.old) look_up.old.start_count (look_up.old.openings.items ++ opening_in roster.old name.now mode ∷ []) before) before roster.old roster.new result }
    ensures stays { StaysBelow before roster.old roster.new }
    ensures owned { OnOk result (All (HasOwned roster.old) (drop before roster.new.memories)) }
    ensures read { OnOk result (All IsRead (drop before (records_in roster.old))) }
    ensures starved { IfErr result NamesNoFile }
    ensures unread { (n : ℕ) → ReadsCounted n n result }
{
    let Ok(opened) = opening_of(roster, name, mode) else {
        return Err(no_memory(roster.alloc));
    };
    let count = starts.len();
    if enter_start(starts, before, roster.len()).is_err() {
        return Err(no_memory(roster.alloc));
    }
    match relocate_opened(roster, look_up, opened, before) {
        Ok(()) => Ok(()),
        Err(refusal) => {
            starts.truncate(count);
            Err(refusal)
        }
    }
}

/// The opening of a library that is loaded.
fn opening_of(roster: &Roster, name: &[u8], mode: Mode) -> Result<Opened, NoMemory>
    requires some { 0 < length roster.now.objects }
    requires closed { IsClosed roster.now }
    ensures value { IfOk result (λ opened. opened ≡ opening_in roster.now name.now mode) }
    ensures inside { All (λ i. i < length roster.now.objects) (opening_in roster.now name.now mode).tree }
{
    let root = roster.answerer(name).unwrap_or(0);
    let tree = breadth(roster.alloc, roster.deps(), root)?;
    Ok(Opened::new(mode, tree))
}

/// Enters the first object that a call loaded, where it loaded one.
fn enter_start(starts: &mut Vec<u32>, before: u32, len: u32) -> Result<(), NoMemory>
    ensures { starts.new.items ≡ with_on_ok result starts.old.items (start_between before len) }
{
    if before < len {
        starts.push(before)?;
    }
    Ok(())
}

/// Enters an opening, and relocates the objects from `before` on. A refusal takes the opening off again.
fn relocate_opened(
    roster: &mut Roster,
    look_up: &mut LookUp,
    opened: Opened,
    before: u32,
) -> Result<(), OpenRefusal>
    requires before { before ≤ length roster.old.objects }
    requires untagged { All (λ m. m.words ≡ []) (drop before roster.old.memories) }
    requires start { look_up.old.start_count ≤ length roster.old.objects }
    requires trees { All (λ o. All (λ i. i < length roster.old.objects) o.tree) look_up.old.openings.items }
    requires inside { All (λ i. i < length roster.old.objects) opened.tree }
    ensures rule { look_up.new.rule ≡ look_up.old.rule }
    ensures start_count { look_up.new.start_count ≡ look_up.old.start_count }
    ensures openings { look_up.new.openings.items ≡ with_on_ok result look_up.old.openings.items (opened ∷ []) }
    ensures relocates { RelocatesFrom (pairs_from look_up.old.rule roster.old.dir (objects_in roster.old) look_up.old.start_count (look_up.old.openings.items ++ opened ∷ []) before) before roster.old roster.new result }
    ensures stays { StaysBelow before roster.old roster.new }
    ensures owned { OnOk result (All (HasOwned roster.old) (drop before roster.new.memories)) }
    ensures read { OnOk result (All IsRead (drop before (records_in roster.old))) }
    ensures starved { IfErr result NamesNoFile }
    ensures unread { (n : ℕ) → ReadsCounted n n result }
{
    if look_up.openings.push(opened).is_err() {
        return Err(no_memory(roster.alloc));
    }
    match roster.relocate_from(look_up, before) {
        Ok(()) => Ok(()),
        Err(refusal) => {
            look_up.openings.pop();
            Err(refusal)
        }
    }
}
