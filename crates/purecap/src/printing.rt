//! What a command prints: bytes on standard output, and the line of a failure on the error output.

ghost use Rattle.std.specs.Prelude.{◌≡◌, []};
ghost use Rattle.purecap.specs.declared.faults.Failure.TheVariants.{NoMemory};
ghost use Rattle.purecap.specs.Run.{streamed, Outputs};
ghost use Rattle.purecap.specs.Printing.{IsLast, PrintsNext, PrintsOr, PrintsTold};

use crate::faults::Failure;
use cap_base::{Failed, Sink, send};

/// Whether the lines so far were written whole: behind a failed write no more is written.
pub(crate) type Told = Result<(), Failed>;

/// Prints a text, or tells why there is none, over the file of this path.
///
/// The text was made whole before its first byte is written, so nothing is written of what is refused, and writing takes
/// no memory.
pub(crate) fn print_or<O: Sink, E: Sink>(
    path: &str,
    text: Result<Vec<u8>, Failure>,
    out: &mut O,
    err: &mut E,
) -> Result<(), Failure>
    ensures { PrintsOr (λ text. text.items) path.now text
        (streamed (O.told out.old) (O.told out.new) (O.faults out.old) (O.faults out.new))
        (streamed (E.told err.old) (E.told err.new) (E.faults err.old) (E.faults err.new))
        result }
{
    match text {
        Ok(text) => print(&text, out, err),
        Err(failure) => {
            let _ = failure.tell(err, path.as_bytes());
            Err(failure)
        }
    }
}

/// Prints a text. A failure is told.
pub(crate) fn print<O: Sink, E: Sink>(text: &[u8], out: &mut O, err: &mut E) -> Result<(), Failure>
    ensures { PrintsTold text.now
        (streamed (O.told out.old) (O.told out.new) (O.faults out.old) (O.faults out.new))
        (streamed (E.told err.old) (E.told err.new) (E.faults err.old) (E.faults err.new))
        result }
{
    print_next(text, out, err, Ok(()))
}

/// The same behind other lines.
pub(crate) fn print_next<O: Sink, E: Sink>(
    text: &[u8],
    out: &mut O,
    err: &mut E,
    so_far: Told,
) -> Result<(), Failure>
    ensures { PrintsNext so_far text.now
        (streamed (O.told out.old) (O.told out.new) (O.faults out.old) (O.faults out.new))
        (streamed (E.told err.old) (E.told err.new) (E.faults err.old) (E.faults err.new))
        result }
{
    match write_output(out, text) {
        Ok(()) => Ok(()),
        Err(failure) => {
            let _ = failure.tell_next(err, so_far, b"-");
            Err(failure)
        }
    }
}

/// Tells behind other lines that memory ran out.
pub(crate) fn tell_starved<E: Sink>(err: &mut E, so_far: Told) -> Failure
    ensures failure { result ≡ NoMemory }
    ensures last { IsLast [] NoMemory (streamed (E.told err.old) (E.told err.new) (E.faults err.old) (E.faults err.new)) so_far }
{
    let _ = Failure::NoMemory.tell_next(err, so_far, b"");
    Failure::NoMemory
}

// Writes these bytes to standard output. It takes no memory.
fn write_output<O: Sink>(out: &mut O, bytes: &[u8]) -> Result<(), Failure>
    ensures { Outputs (streamed (O.told out.old) (O.told out.new) (O.faults out.old) (O.faults out.new)) bytes.now result }
{
    match send(out, bytes) {
        Ok(()) => Ok(()),
        Err(_) => Err(Failure::WriteFault),
    }
}
