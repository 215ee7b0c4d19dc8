//! The command `init`: what runs before a program starts, and before each library that is opened later is handed out.

ghost use Rattle.std.specs.Prelude.{◌≡◌, ◌++◌, [], ◌<◌, length, map, All, IfOk, OnOk};
ghost use Rattle.cap_session.specs.Session.{IsSession};
ghost use Rattle.purecap.specs.Answer.{called};
ghost use Rattle.purecap.specs.Initial.{call_line, calls_line, calls_report, session_calls};
ghost use Rattle.purecap.specs.ProgramWords.{program_meant, IsProgram};
ghost use Rattle.purecap.specs.Story.{Printed};
ghost use Rattle.purecap.specs.Run.{counted, streamed, stored, Disk, IsCallList, IsKept, IsUntouched, Inits};
ghost use Rattle.purecap.specs.Calling.{Carries, Finishes};

use crate::faults::Failure;
use crate::printing::{Told, print_next, tell_starved};
use crate::program::{begin, make_calls};
use crate::words::program::ProgramWords;
use cap_base::{Files, NameList, NoMemory, Sink};
use cap_image::{push_decimal, push_hex};
use cap_init::{Call, initial_order};
use cap_session::Session;
use std::alloc::Global;

/// Loads the program and what its calls open, and prints the initial calls.
///
/// Nothing is printed before all is loaded, and no file is created. Each refusal has its line, and the first that no
/// call passes over ends the command.
pub fn init<F: Files, O: Sink, E: Sink>(
    alloc: Global,
    words: &ProgramWords,
    files: &mut F,
    out: &mut O,
    err: &mut E,
) -> Result<(), Failure>
    requires { IsProgram (program_meant words.now) }
    ensures { Inits (program_meant words.now)
        (stored (F.told files.old) (F.told files.new) (F.writing files.old) (F.writing files.new)
        (counted (F.read_faults files.old) (F.read_faults files.new))
        (counted (F.write_faults files.old) (F.write_faults files.new)))
        (streamed (O.told out.old) (O.told out.new) (O.faults out.old) (O.faults out.new))
        (streamed (E.told err.old) (E.told err.new) (E.faults err.old) (E.faults err.new))
        [] result }
{
    let mut session = begin(alloc, words, files, err)?;
    let end = carry_out(alloc, &mut session, words, files, out, err);
    let _ = session.end();
    end
}

// Makes the calls of a session, and prints its initial calls.
fn carry_out<F: Files, O: Sink, E: Sink>(
    alloc: Global,
    session: &mut Session,
    words: &ProgramWords,
    files: &mut F,
    out: &mut O,
    err: &mut E,
) -> Result<(), Failure>
    requires names { IsProgram (program_meant words.now) }
    requires session { IsSession session.old }
    ensures { Carries called IsCallList session.old (program_meant words.now).calls
        (stored (F.told files.old) (F.told files.new) (F.writing files.old) (F.writing files.new)
        (counted (F.read_faults files.old) (F.read_faults files.new))
        (counted (F.write_faults files.old) (F.write_faults files.new)))
        (streamed (O.told out.old) (O.told out.new) (O.faults out.old) (O.faults out.new))
        (streamed (E.told err.old) (E.told err.new) (E.faults err.old) (E.faults err.new))
        [] result }
{
    let so_far = make_calls(session, &words.calls, files, err)?;
    print_calls(alloc, session, out, err, so_far)
}

// Prints the initial calls of a session. A failure is told.
fn print_calls<O: Sink, E: Sink>(
    alloc: Global,
    session: &Session,
    out: &mut O,
    err: &mut E,
    so_far: Told,
) -> Result<(), Failure>
    requires { IsSession session.now }
    ensures { (disk : Disk) → IsUntouched disk → IsKept disk.reads → Finishes (Printed (session_calls session.now)) disk
        (streamed (O.told out.old) (O.told out.new) (O.faults out.old) (O.faults out.new))
        (streamed (E.told err.old) (E.told err.new) (E.faults err.old) (E.faults err.new))
        [] so_far result }
{
    match calls_text(alloc, session) {
        Ok(text) => print_next(&text, out, err, so_far),
        Err(NoMemory) => Err(tell_starved(err, so_far)),
    }
}

// The initial calls of a session in words: a line each, and a last line.
fn calls_text(alloc: Global, session: &Session) -> Result<Vec<u8>, NoMemory>
    requires { IsSession session.now }
    ensures { IfOk result (λ text. text.items ≡ session_calls session.now) }
{
    let order = initial_order(alloc, session.deps(), session.starts())?;
    let calls = cap_init::calls(alloc, session.objects(), session.memories(), &order)?;
    report(alloc, session.names(), calls.as_slice())
}

// Calls in words, each with the name of its object.
#[tactic(auto, unfolding(crate::specs::Initial::calls_report))]
fn report(alloc: Global, names: &NameList, calls: &[Call]) -> Result<Vec<u8>, NoMemory>
    requires { All (λ call. call.object < length names.now) calls.now }
    ensures { IfOk result (λ text. text.items ≡ calls_report (map (λ name. name.0) names.now) calls.now) }
{
    let mut text = Vec::new(alloc);
    for call in calls {
        push_call(&mut text, names, call)?;
    }
    push_count(&mut text, calls.len())?;
    Ok(text)
}

// Appends the line of a call.
#[tactic(auto, unfolding(crate::specs::Initial::call_line))]
fn push_call(text: &mut Vec<u8>, names: &NameList, call: &Call) -> Result<(), NoMemory>
    requires { call.now.object < length names.now }
    ensures { OnOk result (text.new.items ≡ text.old.items ++ call_line (map (λ name. name.0) names.now) call.now) }
{
    text.extend_from_slice(b"call 0x")?;
    push_hex(text, u128::from(call.slot), 16)?;
    text.extend_from_slice(b" 0x")?;
    push_hex(text, u128::from(call.cursor), 16)?;
    text.extend_from_slice(b" ")?;
    text.extend_from_slice(names.name(call.object as usize))?;
    text.extend_from_slice(b"\n")?;
    Ok(())
}

// Appends the last line.
fn push_count(text: &mut Vec<u8>, count: usize) -> Result<(), NoMemory>
    ensures { OnOk result (text.new.items ≡ text.old.items ++ calls_line count) }
{
    text.extend_from_slice(b"calls ")?;
    push_decimal(text, count as u64)?;
    text.extend_from_slice(b"\n")?;
    Ok(())
}
