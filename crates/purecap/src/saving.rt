//! The file that a command writes.

ghost use Rattle.purecap.specs.Run.{counted, streamed, stored};
ghost use Rattle.purecap.specs.Calling.{SavesFile};

use crate::faults::Failure;
use cap_base::{Failed, Files, Sink, save};

/// Writes the file of a command. A failure is told, unless a write of the lines before it failed.
pub fn save_output<F: Files, E: Sink>(
    files: &mut F,
    path: &str,
    bytes: &[u8],
    err: &mut E,
    so_far: Result<(), Failed>,
) -> Result<(), Failure>
    ensures { SavesFile path.now bytes.now
        (stored (F.told files.old) (F.told files.new) (F.writing files.old) (F.writing files.new)
        (counted (F.read_faults files.old) (F.read_faults files.new))
        (counted (F.write_faults files.old) (F.write_faults files.new)))
        (streamed (E.told err.old) (E.told err.new) (E.faults err.old) (E.faults err.new))
        so_far result }
{
    match save(files, path, bytes) {
        Ok(()) => Ok(()),
        Err(Failed) => {
            let _ = Failure::WriteFault.tell_next(err, so_far, path.as_bytes());
            Err(Failure::WriteFault)
        }
    }
}
