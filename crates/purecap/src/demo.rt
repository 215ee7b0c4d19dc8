//! The command `demo`: a summary of what the objects of a number are linked to, once it is loaded.

ghost use Rattle.std.specs.Prelude.{◌≡◌, ◌∷◌, ◌++◌, ◌+◌, ◌<◌, [], true, false, IfOk, OnOk, Some, None, length, map, codes};
ghost use Rattle.std.specs.String.{string_bytes};
ghost use Rattle.cap_base.specs.MemFiles.{store_in};
ghost use Rattle.cap_demo.specs.Objects.{demo_object, state_after};
ghost use Rattle.cap_session.specs.Session.{IsSession};
ghost use Rattle.cap_session.specs.State.{State};
ghost use Rattle.purecap.specs.Answer.{demo_text};
ghost use Rattle.purecap.specs.Demo.{demo_linked, demo_store, demo_started, linked_bytes, linked_parts};
ghost use Rattle.purecap.specs.LinkWords.{IsLink, link_meant};
ghost use Rattle.purecap.specs.Run.{streamed, Disk, Demos, IsKept, IsUntouched};
ghost use Rattle.purecap.specs.Summing.{after_three, is_input, is_lost as is_lost_in, is_starved as is_starved_in, three_objects as three_objects_of, two_objects as two_objects_of, summary_after, Begins, Gives, HaltsAs, HaltsBy, IsStarted, Tells};

use crate::faults::Failure;
use crate::linking::{Stop, link_inputs};
use crate::printing::print;
use crate::summary::summary;
use crate::words::link::{LinkWords, owned};
use cap_base::{MemFiles, Name, NoMemory, Sink};
use cap_demo::{Numbers, object};
use cap_link::Inputs;
use cap_scope::Rule;
use cap_session::{Mode, OpenCause, OpenRefusal, Session};
use std::alloc::Global;
use std::marker::Model;

// Why there is no summary.
#[derive(Drop)]
pub(crate) enum Halt {
    Memory,
    Stop(Stopped),
}

// A failure, and the file that its line names.
#[derive(Drop)]
pub(crate) struct Stopped {
    path: Name,
    failure: Failure,
}

impl Model for Stopped {
    ghost use Rattle.purecap.specs.Story.{Stop as StopValue, stop_at};

    ghost Value = { StopValue };

    ghost view = { λ stop. stop_at stop.path stop.failure };
}

impl From<NoMemory> for Halt {
    ghost use Rattle.purecap.specs.declared.demo.Halt.TheVariants.{Memory};

    ghost from_gives = { λ _ halt. halt ≡ Memory };

    fn from(_: NoMemory) -> Halt {
        Halt::Memory
    }
}

/// Makes the objects of a number, links and loads them, and prints a summary.
///
/// All is in memory, and no file of a store is touched.
pub fn demo<O: Sink, E: Sink>(
    alloc: Global,
    number: u32,
    out: &mut O,
    err: &mut E,
) -> Result<(), Failure>
    ensures { (disk : Disk) → IsUntouched disk → IsKept disk.reads → Demos number disk
        (streamed (O.told out.old) (O.told out.new) (O.faults out.old) (O.faults out.new))
        (streamed (E.told err.old) (E.told err.new) (E.faults err.old) (E.faults err.new))
        [] result }
{
    match demo_summary(alloc, number) {
        Ok(text) => print(&text, out, err),
        Err(halt) => Err(end_with(halt, err)),
    }
}

// Tells why there is no summary, and gives the failure.
fn end_with<E: Sink>(halt: Halt, err: &mut E) -> Failure
    ensures { Tells halt (streamed (E.told err.old) (E.told err.new) (E.faults err.old) (E.faults err.new)) result }
{
    match halt {
        Halt::Memory => {
            let _ = Failure::NoMemory.tell(err, b"");
            Failure::NoMemory
        }
        Halt::Stop(stopped) => {
            let Stopped { path, failure } = stopped;
            let _ = failure.tell(err, path.bytes());
            failure
        }
    }
}

// The summary of a number.
fn demo_summary(alloc: Global, number: u32) -> Result<Vec<u8>, Halt>
    ensures { Gives (λ text. text.items) (demo_text number) result }
{
    let mut files = linked_files(alloc, number)?;
    let mut session = start(alloc, &mut files)?;
    let text = sum_up(alloc, number, &mut session, &mut files);
    let _ = session.end();
    text
}

// ---- the linked files

// The files that the objects of a number are linked to.
#[tactic(auto, unfolding(crate::specs::Demo::demo_linked), using(crate::proofs::DemoObjects::needed_objects, crate::proofs::DemoObjects::program_objects, crate::proofs::DemoObjects::other_objects))]
fn linked_files(alloc: Global, number: u32) -> Result<MemFiles, Halt>
    ensures { Gives store_in (demo_linked number) result }
{
    let mut numbers = Numbers::new(number);
    let needed = three_objects(alloc, &mut numbers, 0, "d0.o", "d1.o", "d2.o")?;
    let program = three_objects(alloc, &mut numbers, 3, "d3.o", "d4.o", "d5.o")?;
    let other = two_objects(alloc, &mut numbers, 6, "d6.o", "d7.o")?;
    link_parts(alloc, needed, program, other)
}

// The next three objects, from this number on.
fn three_objects(
    alloc: Global,
    numbers: &mut Numbers,
    number: u32,
    a: &str,
    b: &str,
    c: &str,
) -> Result<Inputs, NoMemory>
    requires number { number < 8 }
    requires a { is_input a.now ≡ true }
    requires b { is_input b.now ≡ true }
    requires c { is_input c.now ≡ true }
    ensures value { IfOk result (λ inputs. inputs ≡ three_objects_of numbers.old number a.now b.now c.now) }
    ensures state { OnOk result (numbers.new ≡ after_three numbers.old) }
{
    let mut inputs = Inputs::new(alloc);
    add_object(alloc, &mut inputs, numbers, number, a)?;
    add_object(alloc, &mut inputs, numbers, number + 1, b)?;
    add_object(alloc, &mut inputs, numbers, number + 2, c)?;
    Ok(inputs)
}

// The next two.
fn two_objects(
    alloc: Global,
    numbers: &mut Numbers,
    number: u32,
    a: &str,
    b: &str,
) -> Result<Inputs, NoMemory>
    requires number { number < 8 }
    requires a { is_input a.now ≡ true }
    requires b { is_input b.now ≡ true }
    ensures { IfOk result (λ inputs. inputs ≡ two_objects_of numbers.old number a.now b.now) }
{
    let mut inputs = Inputs::new(alloc);
    add_object(alloc, &mut inputs, numbers, number, a)?;
    add_object(alloc, &mut inputs, numbers, number + 1, b)?;
    Ok(inputs)
}

// Adds the next object, which has this number and this name.
#[tactic(auto, using(crate::proofs::DemoObjects::input_named))]
fn add_object(
    alloc: Global,
    inputs: &mut Inputs,
    numbers: &mut Numbers,
    number: u32,
    name: &str,
) -> Result<(), NoMemory>
    requires few { length inputs.old < 256 }
    requires name { is_input name.now ≡ true }
    ensures value { OnOk result (inputs.new ≡ inputs.old ++ (name.now, demo_object numbers.old number) ∷ []) }
    ensures state { OnOk result (numbers.new ≡ state_after numbers.old) }
{
    let bytes = object(alloc, numbers, number)?;
    inputs.push(name, bytes)
}

// Links the objects of the library that the program needs, those of the program, and those of the other library.
#[tactic(auto, unfolding(crate::specs::Demo::linked_parts))]
fn link_parts(
    alloc: Global,
    needed: Inputs,
    program: Inputs,
    other: Inputs,
) -> Result<MemFiles, Halt>
    requires needed { map (λ i. i.0) needed ≡ codes "d0.o" ∷ codes "d1.o" ∷ codes "d2.o" ∷ [] }
    requires program { map (λ i. i.0) program ≡ codes "d3.o" ∷ codes "d4.o" ∷ codes "d5.o" ∷ [] }
    requires other { map (λ i. i.0) other ≡ codes "d6.o" ∷ codes "d7.o" ∷ [] }
    ensures { Gives store_in (linked_parts needed program other) result }
{
    let needed = link_needed(alloc, needed)?;
    let other = link_other(alloc, other)?;
    let program = link_program(alloc, program, &needed)?;
    Ok(store(alloc, &program, &needed, &other)?)
}

// The library that the program needs.
fn link_needed(alloc: Global, inputs: Inputs) -> Result<Vec<u8>, Halt>
    requires { map (λ i. i.0) inputs ≡ codes "d0.o" ∷ codes "d1.o" ∷ codes "d2.o" ∷ [] }
    ensures { Gives (λ bytes. bytes.items) (linked_bytes (codes "d.so") (Some (codes "d.so")) inputs) result }
{
    let words = shared_words(alloc, "d.so", &["d0.o", "d1.o", "d2.o"])?;
    link_bytes(alloc, &words, inputs)
}

// The other library.
fn link_other(alloc: Global, inputs: Inputs) -> Result<Vec<u8>, Halt>
    requires { map (λ i. i.0) inputs ≡ codes "d6.o" ∷ codes "d7.o" ∷ [] }
    ensures { Gives (λ bytes. bytes.items) (linked_bytes (codes "e.so") (Some (codes "e.so")) inputs) result }
{
    let words = shared_words(alloc, "e.so", &["d6.o", "d7.o"])?;
    link_bytes(alloc, &words, inputs)
}

// The program, which needs a library.
fn link_program(alloc: Global, mut inputs: Inputs, needed: &[u8]) -> Result<Vec<u8>, Halt>
    requires { map (λ i. i.0) inputs ≡ codes "d3.o" ∷ codes "d4.o" ∷ codes "d5.o" ∷ [] }
    ensures { Gives (λ bytes. bytes.items) (linked_bytes (codes "d") None (inputs ++ (codes "d.so", needed.now) ∷ [])) result }
{
    let words = program_words(alloc, "d", &["d3.o", "d4.o", "d5.o", "d.so"])?;
    inputs.push("d.so", copy(alloc, needed)?)?;
    link_bytes(alloc, &words, inputs)
}

// What is linked to a shared object of this name.
fn shared_words(alloc: Global, name: &str, inputs: &[&str]) -> Result<LinkWords, NoMemory>
    ensures { IfOk result (λ words. link_meant words ≡ record { output = name.now; soname = Some name.now; inputs = map (λ word. word.now) inputs.now }) }
{
    let Ok(inputs) = owned(alloc, inputs) else {
        return Err(NoMemory);
    };
    Ok(LinkWords {
        output: String::from_str(alloc, name)?,
        soname: Some(String::from_str(alloc, name)?),
        inputs,
    })
}

// What is linked to a program.
fn program_words(alloc: Global, output: &str, inputs: &[&str]) -> Result<LinkWords, NoMemory>
    ensures { IfOk result (λ words. link_meant words ≡ record { output = output.now; soname = None; inputs = map (λ word. word.now) inputs.now }) }
{
    let Ok(inputs) = owned(alloc, inputs) else {
        return Err(NoMemory);
    };
    Ok(LinkWords {
        output: String::from_str(alloc, output)?,
        soname: None,
        inputs,
    })
}

fn copy(alloc: Global, bytes: &[u8]) -> Result<Vec<u8>, NoMemory>
    ensures { IfOk result (λ copied. copied.items ≡ bytes.now) }
{
    Ok(bytes.to_vec(alloc)?)
}

// Links these inputs.
fn link_bytes(alloc: Global, words: &LinkWords, inputs: Inputs) -> Result<Vec<u8>, Halt>
    requires link { IsLink (link_meant words.now) }
    requires words { map (λ i. i.0) inputs ≡ map string_bytes words.now.inputs.items }
    ensures { Gives (λ bytes. bytes.items) (linked_bytes (link_meant words.now).output (link_meant words.now).soname inputs) result }
{
    match link_inputs(alloc, words, inputs) {
        Ok(bytes) => Ok(bytes),
        Err(stop) => Err(halt_of(alloc, stop)),
    }
}

// The stop of a link.
fn halt_of(alloc: Global, stop: Stop<'_>) -> Halt
    ensures { HaltsAs stop.entry result }
{
    let Stop { path, failure } = stop;
    if is_starved(&failure) {
        return Halt::Memory;
    }
    match Name::of(alloc, path.as_bytes()) {
        Ok(path) => Halt::Stop(Stopped { path, failure }),
        Err(NoMemory) => Halt::Memory,
    }
}

fn is_starved(failure: &Failure) -> bool
    ensures { result ≡ is_starved_in failure.now }
{
    match failure {
        Failure::NoMemory => true,
        _ => false,
    }
}

// The linked files in a store.
#[tactic(auto, unfolding(crate::specs::Demo::demo_store))]
fn store(alloc: Global, program: &[u8], needed: &[u8], other: &[u8]) -> Result<MemFiles, NoMemory>
    ensures { IfOk result (λ files. store_in files ≡ demo_store program.now needed.now other.now) }
{
    let mut files = MemFiles::new(alloc);
    files.put("d", program)?;
    files.put("./d.so", needed)?;
    files.put("./e.so", other)?;
    Ok(files)
}

// ---- the load

// Starts the program.
fn start(alloc: Global, files: &mut MemFiles) -> Result<Session, Halt>
    ensures begins { Begins (demo_started (store_in files.old)) result }
    ensures session { IfOk result IsSession }
    ensures same { store_in files.new ≡ store_in files.old }
{
    match Session::start(alloc, files, ".", "d", Rule::NonWeak) {
        Ok(session) => Ok(session),
        Err(refusal) => Err(halt_by(refusal)),
    }
}

// Opens the other library, and sums up.
fn sum_up(
    alloc: Global,
    number: u32,
    session: &mut Session,
    files: &mut MemFiles,
) -> Result<Vec<u8>, Halt>
    ensures { (state : State) → IsStarted session.old state → Gives (λ text. text.items) (summary_after number (store_in files.old) state) result }
{
    match session.open(files, "e.so", Mode::Global) {
        Ok(_) => Ok(summary(alloc, number, session)?),
        Err(refusal) => Err(halt_by(refusal)),
    }
}

// The refusal of a start or a call.
fn halt_by(refusal: OpenRefusal) -> Halt
    ensures { HaltsBy refusal result }
{
    let OpenRefusal { path, cause } = refusal;
    if is_lost(&cause) {
        return Halt::Memory;
    }
    Halt::Stop(Stopped {
        path,
        failure: Failure::from(cause),
    })
}

// Whether nothing is known but that memory ran out: a store in memory fails no read.
fn is_lost(cause: &OpenCause) -> bool
    ensures { result ≡ is_lost_in cause.now }
{
    match cause {
        OpenCause::ReadFault | OpenCause::NoMemory => true,
        _ => false,
    }
}
