//! The command `load`: the image of a program and its libraries, in a file.

ghost use Rattle.std.specs.Prelude.{◌≡◌, [], IfOk, Ok};
ghost use Rattle.cap_session.specs.Session.{IsSession};
ghost use Rattle.cap_image.specs.Reading.{read_image};
ghost use Rattle.cap_image.specs.Writing.{image_of, image_bytes};
ghost use Rattle.purecap.specs.Story.{Saved};
ghost use Rattle.purecap.specs.Answer.{saved};
ghost use Rattle.purecap.specs.Words.{load_meant, IsLoad};
ghost use Rattle.purecap.specs.Run.{counted, streamed, stored, Stream, IsStill, IsImageFile, Loads};
ghost use Rattle.purecap.specs.Calling.{kept_by, Carries, Finishes};

use crate::faults::Failure;
use crate::printing::{Told, tell_starved};
use crate::program::{begin, make_calls};
use crate::saving::save_output;
use crate::words::LoadWords;
use cap_base::{Files, NoMemory, Sink};
use cap_image::reading_laws;
use cap_mem::Memory;
use cap_session::Session;
use std::alloc::Global;

/// Loads the program and what its calls open, and writes the image.
///
/// Nothing is created before all is loaded. Each refusal has its line, and the first that no call passes over ends the
/// command. The memories are kept only where the image was written.
pub fn load<F: Files, E: Sink>(
    alloc: Global,
    words: &LoadWords,
    files: &mut F,
    err: &mut E,
    kept: &mut Vec<Memory>,
) -> Result<(), Failure>
    requires names { IsLoad (load_meant words.now) }
    requires none { kept.old.items ≡ [] }
    ensures { (out : Stream) → IsStill out → Loads (load_meant words.now)
        (stored (F.told files.old) (F.told files.new) (F.writing files.old) (F.writing files.new)
        (counted (F.read_faults files.old) (F.read_faults files.new))
        (counted (F.write_faults files.old) (F.write_faults files.new)))
        out
        (streamed (E.told err.old) (E.told err.new) (E.faults err.old) (E.faults err.new))
        kept.new.items result }
{
    let mut session = begin(alloc, &words.program, files, err)?;
    let end = carry_out(alloc, &mut session, words, files, err);
    keep(kept, session.end(), end)
}

// Keeps the memories where all ended well.
fn keep(
    kept: &mut Vec<Memory>,
    memories: Vec<Memory>,
    end: Result<(), Failure>,
) -> Result<(), Failure>
    requires { kept.old.items ≡ [] }
    ensures kept { kept.new.items ≡ kept_by end memories.items }
    ensures end { result ≡ end }
{
    match end {
        Ok(()) => {
            *kept = memories;
            Ok(())
        }
        Err(failure) => Err(failure),
    }
}

// Makes the calls of a session, and writes its image.
fn carry_out<F: Files, E: Sink>(
    alloc: Global,
    session: &mut Session,
    words: &LoadWords,
    files: &mut F,
    err: &mut E,
) -> Result<(), Failure>
    requires names { IsLoad (load_meant words.now) }
    requires session { IsSession session.old }
    ensures { (out : Stream) → IsStill out → Carries (saved (load_meant words.now).image) (IsImageFile (load_meant words.now).image) session.old (load_meant words.now).program.calls
        (stored (F.told files.old) (F.told files.new) (F.writing files.old) (F.writing files.new)
        (counted (F.read_faults files.old) (F.read_faults files.new))
        (counted (F.write_faults files.old) (F.write_faults files.new)))
        out
        (streamed (E.told err.old) (E.told err.new) (E.faults err.old) (E.faults err.new))
        (kept_by result session.new.memories) result }
{
    let so_far = make_calls(session, &words.program.calls, files, err)?;
    write_image(alloc, session, words.image.as_str(), files, err, so_far)
}

// Writes the image of a session in the file of this name. A failure is told.
fn write_image<F: Files, E: Sink>(
    alloc: Global,
    session: &Session,
    image: &str,
    files: &mut F,
    err: &mut E,
    so_far: Told,
) -> Result<(), Failure>
    requires { IsSession session.now }
    ensures { (out : Stream) → IsStill out → Finishes (Saved image.now (image_bytes (image_of session.now.names session.now.symbols session.now.memories)) session.now.memories)
        (stored (F.told files.old) (F.told files.new) (F.writing files.old) (F.writing files.new)
        (counted (F.read_faults files.old) (F.read_faults files.new))
        (counted (F.write_faults files.old) (F.write_faults files.new)))
        out
        (streamed (E.told err.old) (E.told err.new) (E.faults err.old) (E.faults err.new))
        (kept_by result session.now.memories) so_far result }
{
    match image_bytes_of(alloc, session) {
        Ok(bytes) => save_output(files, image, &bytes, err, so_far),
        Err(NoMemory) => Err(tell_starved(err, so_far)),
    }
}

// The bytes of the image of a session, which are read back as this image.
pub(crate) fn image_bytes_of(alloc: Global, session: &Session) -> Result<Vec<u8>, NoMemory>
    requires { IsSession session.now }
    ensures value { IfOk result (λ bytes. bytes.items ≡ image_bytes (image_of session.now.names session.now.symbols session.now.memories)) }
    ensures reads_back { IfOk result (λ bytes. read_image bytes.items ≡ Ok (image_of session.now.names session.now.symbols session.now.memories)) }
{
    reading_laws();
    cap_image::write(
        alloc,
        session.names(),
        session.symbols(),
        session.memories(),
    )
}
