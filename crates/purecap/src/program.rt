//! The start and the calls of a program that is loaded: what `load`, `init` and `audit` have in common.

ghost use Rattle.std.specs.Prelude.{◌≡◌, ◌∷◌, [], All, IfOk, map};
ghost use Rattle.std.specs.String.{string_bytes};
ghost use Rattle.cap_session.specs.Mappings.{IsName};
ghost use Rattle.cap_session.specs.Session.{IsSession};
ghost use Rattle.purecap.specs.Faults.{failure_of, refusal_line};
ghost use Rattle.purecap.specs.ProgramWords.{call_meant, program_meant, IsProgram};
ghost use Rattle.purecap.specs.Run.{counted, streamed, Says};
ghost use Rattle.purecap.specs.Calling.{is_passed as is_passed_by, Passes, Makes, Calls, Begins};

use crate::faults::Failure;
use crate::printing::Told;
use crate::words::program::{CallWord, ProgramWords};
use cap_base::{Files, Sink};
use cap_session::{Form, OpenRefusal, Session};
use std::alloc::Global;

// Starts the program. A refusal is told.
pub(crate) fn begin<F: Files, E: Sink>(
    alloc: Global,
    words: &ProgramWords,
    files: &mut F,
    err: &mut E,
) -> Result<Session, Failure>
    requires { IsProgram (program_meant words.now) }
    ensures begins { Begins (program_meant words.now) (F.told files.old)
        (counted (F.read_faults files.old) (F.read_faults files.new))
        (streamed (E.told err.old) (E.told err.new) (E.faults err.old) (E.faults err.new))
        result }
    ensures session { IfOk result IsSession }
    ensures same_told { F.told files.new ≡ F.told files.old }
    ensures same_writing { F.writing files.new ≡ F.writing files.old }
    ensures write_count { F.write_faults files.new ≡ F.write_faults files.old }
{
    match Session::start(
        alloc,
        files,
        words.dir.as_str(),
        words.main.as_str(),
        words.rule,
    ) {
        Ok(session) => Ok(session),
        Err(refusal) => Err(end_with(refusal, err)),
    }
}

// Tells a refusal, and gives its failure.
fn end_with<E: Sink>(refusal: OpenRefusal, err: &mut E) -> Failure
    ensures failure { result ≡ failure_of refusal.cause }
    ensures says { Says (streamed (E.told err.old) (E.told err.new) (E.faults err.old) (E.faults err.new)) (refusal_line refusal ∷ []) }
{
    let failure = Failure::from(refusal.cause);
    let _ = failure.tell(err, refusal.path.bytes());
    failure
}

// Makes the calls in their order, to the first refusal that none of them passes over.
pub(crate) fn make_calls<F: Files, E: Sink>(
    session: &mut Session,
    calls: &[CallWord],
    files: &mut F,
    err: &mut E,
) -> Result<Told, Failure>
    requires names { All (λ call. IsName (string_bytes call.name)) calls.now }
    requires session { IsSession session.old }
    ensures calls { Calls (F.told files.old) session.old session.new (map call_meant calls.now)
        (counted (F.read_faults files.old) (F.read_faults files.new))
        (streamed (E.told err.old) (E.told err.new) (E.faults err.old) (E.faults err.new))
        result }
    ensures session { IsSession session.new }
    ensures same_told { F.told files.new ≡ F.told files.old }
    ensures same_writing { F.writing files.new ≡ F.writing files.old }
    ensures write_count { F.write_faults files.new ≡ F.write_faults files.old }
{
    let mut so_far = Ok(());
    for call in calls {
        so_far = make_call(session, call, files, err, so_far)?;
    }
    Ok(so_far)
}

// Opens the library of a call. A refusal is told; it ends the run, unless the call passes it over.
fn make_call<F: Files, E: Sink>(
    session: &mut Session,
    call: &CallWord,
    files: &mut F,
    err: &mut E,
    so_far: Told,
) -> Result<Told, Failure>
    requires { IsName (string_bytes call.now.name) }
    ensures made { Makes (F.told files.old) session.old session.new (call_meant call.now)
        (counted (F.read_faults files.old) (F.read_faults files.new))
        (streamed (E.told err.old) (E.told err.new) (E.faults err.old) (E.faults err.new))
        so_far result }
    ensures session { IsSession session.new }
    ensures same_told { F.told files.new ≡ F.told files.old }
    ensures same_writing { F.writing files.new ≡ F.writing files.old }
    ensures write_count { F.write_faults files.new ≡ F.write_faults files.old }
{
    match session.open(files, call.name.as_str(), call.form.mode()) {
        Ok(_) => Ok(so_far),
        Err(refusal) => pass_over(call.form, refusal, err, so_far),
    }
}

// Tells the refusal of a call of this form: how far the lines were written, where the call passes it over.
fn pass_over<E: Sink>(
    form: Form,
    refusal: OpenRefusal,
    err: &mut E,
    so_far: Told,
) -> Result<Told, Failure>
    ensures { Passes form refusal (streamed (E.told err.old) (E.told err.new) (E.faults err.old) (E.faults err.new)) so_far result }
{
    let failure = Failure::from(refusal.cause);
    let told = failure.tell_next(err, so_far, refusal.path.bytes());
    if is_passed(form, &failure) {
        return Ok(told);
    }
    Err(failure)
}

// Whether a call of this form passes over a failure: not where the store or memory failed it.
fn is_passed(form: Form, failure: &Failure) -> bool
    ensures { result ≡ is_passed_by form failure.now }
{
    match failure {
        Failure::ReadFault | Failure::NoMemory => false,
        _ => form.passes_over(),
    }
}
