//! The command `audit`: each place at which an image is not that of a program and its calls.

ghost use Rattle.std.specs.Prelude.{◌≡◌, [], IfOk};
ghost use Rattle.cap_audit.specs.Findings.{findings};
ghost use Rattle.cap_image.specs.Parts.{ImageParts};
ghost use Rattle.cap_image.specs.Writing.{image_of};
ghost use Rattle.cap_session.specs.Session.{IsSession};
ghost use Rattle.cap_audit.specs.Report.{report_of};
ghost use Rattle.cap_loaded.specs.Images.{state_image};
ghost use Rattle.purecap.specs.Answer.{compared, compared_by};
ghost use Rattle.purecap.specs.ProgramWords.{program_meant, IsProgram};
ghost use Rattle.purecap.specs.Run.{counted, streamed, stored, Disk, IsComparison, IsKept, IsUntouched, Audits};
ghost use Rattle.purecap.specs.Calling.{outcome_in, Carries, Comes, Finishes, TellsDifference};

use crate::faults::Failure;
use crate::images::read_image;
use crate::loading::image_bytes_of;
use crate::printing::{Told, print_next, tell_starved};
use crate::program::{begin, make_calls};
use crate::words::program::ProgramWords;
use cap_audit::{Findings, compare};
use cap_base::{Files, NoMemory, Sink};
use cap_image::Image;
use cap_session::Session;
use std::alloc::Global;

/// Loads the program and what its calls open, and prints where the image in this file is not the one that `load` would
/// write.
///
/// `Differs` comes where there is such a place. The image is read first; nothing is printed before all is loaded, and no
/// file is created. Each refusal has its line, and the first that no call passes over ends the command.
pub fn audit<F: Files, O: Sink, E: Sink>(
    alloc: Global,
    image: &str,
    words: &ProgramWords,
    files: &mut F,
    out: &mut O,
    err: &mut E,
) -> Result<(), Failure>
    requires { IsProgram (program_meant words.now) }
    ensures { Audits image.now (program_meant words.now)
        (stored (F.told files.old) (F.told files.new) (F.writing files.old) (F.writing files.new)
        (counted (F.read_faults files.old) (F.read_faults files.new))
        (counted (F.write_faults files.old) (F.write_faults files.new)))
        (streamed (O.told out.old) (O.told out.new) (O.faults out.old) (O.faults out.new))
        (streamed (E.told err.old) (E.told err.new) (E.faults err.old) (E.faults err.new))
        [] result }
{
    match read_image(alloc, files, image) {
        Ok(given) => audit_image(alloc, image, &given, words, files, out, err),
        Err(failure) => {
            let _ = failure.tell(err, image.as_bytes());
            Err(failure)
        }
    }
}

// The same of an image that was read.
fn audit_image<F: Files, O: Sink, E: Sink>(
    alloc: Global,
    path: &str,
    given: &Image,
    words: &ProgramWords,
    files: &mut F,
    out: &mut O,
    err: &mut E,
) -> Result<(), Failure>
    requires { IsProgram (program_meant words.now) }
    ensures { Comes (λ state. compared path.now given.now (state_image state)) (IsComparison path.now given.now) (outcome_in (F.told files.old) (program_meant words.now))
        (stored (F.told files.old) (F.told files.new) (F.writing files.old) (F.writing files.new)
        (counted (F.read_faults files.old) (F.read_faults files.new))
        (counted (F.write_faults files.old) (F.write_faults files.new)))
        (streamed (O.told out.old) (O.told out.new) (O.faults out.old) (O.faults out.new))
        (streamed (E.told err.old) (E.told err.new) (E.faults err.old) (E.faults err.new))
        [] result }
{
    let mut session = begin(alloc, words, files, err)?;
    let end = carry_out(alloc, path, given, &mut session, words, files, out, err);
    let _ = session.end();
    end
}

// Makes the calls of a session, and prints how an image differs from its own.
fn carry_out<F: Files, O: Sink, E: Sink>(
    alloc: Global,
    path: &str,
    given: &Image,
    session: &mut Session,
    words: &ProgramWords,
    files: &mut F,
    out: &mut O,
    err: &mut E,
) -> Result<(), Failure>
    requires names { IsProgram (program_meant words.now) }
    requires session { IsSession session.old }
    ensures { Carries (λ state. compared path.now given.now (state_image state)) (IsComparison path.now given.now) session.old (program_meant words.now).calls
        (stored (F.told files.old) (F.told files.new) (F.writing files.old) (F.writing files.new)
        (counted (F.read_faults files.old) (F.read_faults files.new))
        (counted (F.write_faults files.old) (F.write_faults files.new)))
        (streamed (O.told out.old) (O.told out.new) (O.faults out.old) (O.faults out.new))
        (streamed (E.told err.old) (E.told err.new) (E.faults err.old) (E.faults err.new))
        [] result }
{
    let so_far = make_calls(session, &words.calls, files, err)?;
    print_findings(alloc, path, given, session, out, err, so_far)
}

// Prints how an image differs from that of a session. A failure is told.
fn print_findings<O: Sink, E: Sink>(
    alloc: Global,
    path: &str,
    given: &Image,
    session: &Session,
    out: &mut O,
    err: &mut E,
    so_far: Told,
) -> Result<(), Failure>
    requires { IsSession session.now }
    ensures { (disk : Disk) → IsUntouched disk → IsKept disk.reads
        → Finishes (compared path.now given.now (image_of session.now.names session.now.symbols session.now.memories)) disk
        (streamed (O.told out.old) (O.told out.new) (O.faults out.old) (O.faults out.new))
        (streamed (E.told err.old) (E.told err.new) (E.faults err.old) (E.faults err.new))
        [] so_far result }
{
    match findings_of(alloc, given, session) {
        Ok(found) => print_found(alloc, path, &found, out, err, so_far),
        Err(NoMemory) => Err(tell_starved(err, so_far)),
    }
}

// Prints findings, and tells that there is one. A failure is told.
fn print_found<O: Sink, E: Sink>(
    alloc: Global,
    path: &str,
    found: &Findings,
    out: &mut O,
    err: &mut E,
    so_far: Told,
) -> Result<(), Failure>
    ensures { (disk : Disk) → IsUntouched disk → IsKept disk.reads → Finishes (compared_by path.now found.now) disk
        (streamed (O.told out.old) (O.told out.new) (O.faults out.old) (O.faults out.new))
        (streamed (E.told err.old) (E.told err.new) (E.faults err.old) (E.faults err.new))
        [] so_far result }
{
    match cap_audit::report(alloc, found) {
        Ok(text) => print_text(path, found, &text, out, err, so_far),
        Err(NoMemory) => Err(tell_starved(err, so_far)),
    }
}

// The same of findings in words.
fn print_text<O: Sink, E: Sink>(
    path: &str,
    found: &Findings,
    text: &[u8],
    out: &mut O,
    err: &mut E,
    so_far: Told,
) -> Result<(), Failure>
    requires { text.now ≡ report_of found.now }
    ensures { (disk : Disk) → IsUntouched disk → IsKept disk.reads → Finishes (compared_by path.now found.now) disk
        (streamed (O.told out.old) (O.told out.new) (O.faults out.old) (O.faults out.new))
        (streamed (E.told err.old) (E.told err.new) (E.faults err.old) (E.faults err.new))
        [] so_far result }
{
    match print_next(text, out, err, so_far) {
        Ok(()) => tell_difference(path, found, err, so_far),
        Err(failure) => Err(failure),
    }
}

// The places at which an image is not that of a session.
fn findings_of(alloc: Global, given: &Image, session: &Session) -> Result<Findings, NoMemory>
    requires { IsSession session.now }
    ensures { IfOk result (λ found. found ≡ findings given.now (image_of session.now.names session.now.symbols session.now.memories)) }
{
    let bytes = image_bytes_of(alloc, session)?;
    // A written image is read back, so that nothing but want of memory refuses it.
    let Ok(wanted) = cap_image::read(alloc, bytes) else {
        return Err(NoMemory);
    };
    compare(alloc, given, &wanted)
}

// Tells that there are findings, where there is one.
fn tell_difference<E: Sink>(
    path: &str,
    found: &Findings,
    err: &mut E,
    so_far: Told,
) -> Result<(), Failure>
    ensures { TellsDifference path.now found.now
        (streamed (E.told err.old) (E.told err.new) (E.faults err.old) (E.faults err.new))
        so_far result }
{
    if found.is_empty() {
        return Ok(());
    }
    let _ = Failure::Differs.tell_next(err, so_far, path.as_bytes());
    Err(Failure::Differs)
}
