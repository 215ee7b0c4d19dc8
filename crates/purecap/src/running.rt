//! A run of the program: from its words to its status.

ghost use Rattle.std.specs.Prelude.{◌≡◌, []};
ghost use Rattle.purecap.specs.Words.{command_of as command_in};
ghost use Rattle.purecap.specs.Claim.{IsClaimedRun, RunsKeepClaim};
ghost use Rattle.purecap.specs.Exact.{IsExactRun};
ghost use Rattle.purecap.specs.LoadImage.{IsImageRun, RunsTellImages};
ghost use Rattle.purecap.specs.Run.{counted, streamed, stored, Runs, Answers, HasCauses, Ends, end_status as status_of_end};

use crate::auditing::audit;
use crate::demo::demo;
use crate::faults::Failure;
use crate::initial::init;
use crate::linking::link;
use crate::loading::load;
use crate::reaching::reach;
use crate::showing::show;
use crate::words::{Command, command_of};
use cap_audit::audit_laws;
use cap_base::{Files, Sink, Words};
use cap_exact::exact_laws;
use cap_init::call_laws;
use cap_loaded::loaded_laws;
use cap_mem::Memory;
use cap_session::state_laws;
use std::alloc::Global;

/// Does what the words ask for, and answers the status of the process.
///
/// Where the command fails, the last line on the error output says why; a fault of the error output changes nothing
/// else. Where `load` answers 0, `kept` holds the memories of the loaded objects, in load order; else it is empty.
pub fn run<F: Files, O: Sink, E: Sink>(
    alloc: Global,
    words: &Words,
    files: &mut F,
    out: &mut O,
    err: &mut E,
    kept: &mut Vec<Memory>,
) -> u8
    requires { kept.old.items ≡ [] }
    ensures runs { Runs words.now
        (stored (F.told files.old) (F.told files.new) (F.writing files.old) (F.writing files.new)
        (counted (F.read_faults files.old) (F.read_faults files.new))
        (counted (F.write_faults files.old) (F.write_faults files.new)))
        (streamed (O.told out.old) (O.told out.new) (O.faults out.old) (O.faults out.new))
        (streamed (E.told err.old) (E.told err.new) (E.faults err.old) (E.faults err.new))
        kept.new.items result }

    // Over a store that tells its files, it gives the answer that the words and the files define.
    ensures answers { Answers words.now
        (stored (F.told files.old) (F.told files.new) (F.writing files.old) (F.writing files.new)
        (counted (F.read_faults files.old) (F.read_faults files.new))
        (counted (F.write_faults files.old) (F.write_faults files.new)))
        (streamed (O.told out.old) (O.told out.new) (O.faults out.old) (O.faults out.new))
        (streamed (E.told err.old) (E.told err.new) (E.faults err.old) (E.faults err.new))
        kept.new.items result }

    // Over any store, each answer has its cause.
    ensures causes { HasCauses words.now
        (stored (F.told files.old) (F.told files.new) (F.writing files.old) (F.writing files.new)
        (counted (F.read_faults files.old) (F.read_faults files.new))
        (counted (F.write_faults files.old) (F.write_faults files.new)))
        (streamed (O.told out.old) (O.told out.new) (O.faults out.old) (O.faults out.new))
        (streamed (E.told err.old) (E.told err.new) (E.faults err.old) (E.faults err.new))
        kept.new.items result }

    // No bounds of a file that `link` wrote are refused, and the data of all such files that are loaded lie apart.
    ensures exact { IsExactRun (command_in words.now) (F.told files.old) result }

    // `audit` tells the image that `load` would write from all others, and what `init` prints are entries of that image.
    ensures image { IsImageRun (command_in words.now) (F.told files.old)
        (streamed (O.told out.old) (O.told out.new) (O.faults out.old) (O.faults out.new)) result }

    // The claim of the whole: where `load` answers 0, the file that it wrote is the image that the words and the files mean.
    ensures claim { IsClaimedRun (command_in words.now) (F.told files.old) (F.told files.new) result }
{
    exact_laws();
    image_laws();
    claim_laws();
    perform(alloc, words, files, out, err, kept)
}

// What every run says of the image that `load` would write.
fn image_laws()
    ensures { RunsTellImages }
{
    loaded_laws();
    audit_laws();
    call_laws();
}

// What every run says of the file that `load` writes.
fn claim_laws()
    ensures { RunsKeepClaim }
{
    loaded_laws();
    state_laws();
    exact_laws();
}

// Does what the words ask for, and gives the status of its end.
fn perform<F: Files, O: Sink, E: Sink>(
    alloc: Global,
    words: &Words,
    files: &mut F,
    out: &mut O,
    err: &mut E,
    kept: &mut Vec<Memory>,
) -> u8
    requires { kept.old.items ≡ [] }
    ensures { Runs words.now
        (stored (F.told files.old) (F.told files.new) (F.writing files.old) (F.writing files.new)
        (counted (F.read_faults files.old) (F.read_faults files.new))
        (counted (F.write_faults files.old) (F.write_faults files.new)))
        (streamed (O.told out.old) (O.told out.new) (O.faults out.old) (O.faults out.new))
        (streamed (E.told err.old) (E.told err.new) (E.faults err.old) (E.faults err.new))
        kept.new.items result }
{
    let end = act(alloc, words, files, out, err, kept);
    end_status(&end)
}

// The status of an end.
fn end_status(end: &Result<(), Failure>) -> u8
    ensures { result ≡ status_of_end end.now }
{
    match end {
        Ok(()) => 0,
        Err(failure) => failure.status(),
    }
}

// Reads the words, and does what they ask for. A failure has its line.
fn act<F: Files, O: Sink, E: Sink>(
    alloc: Global,
    words: &Words,
    files: &mut F,
    out: &mut O,
    err: &mut E,
    kept: &mut Vec<Memory>,
) -> Result<(), Failure>
    requires { kept.old.items ≡ [] }
    ensures { Ends (command_in words.now)
        (stored (F.told files.old) (F.told files.new) (F.writing files.old) (F.writing files.new)
        (counted (F.read_faults files.old) (F.read_faults files.new))
        (counted (F.write_faults files.old) (F.write_faults files.new)))
        (streamed (O.told out.old) (O.told out.new) (O.faults out.old) (O.faults out.new))
        (streamed (E.told err.old) (E.told err.new) (E.faults err.old) (E.faults err.new))
        kept.new.items result }
{
    match command_of(alloc, words) {
        Ok(Command::Show { image }) => show(alloc, image.as_str(), files, out, err),
        Ok(Command::Load(words)) => load(alloc, &words, files, err, kept),
        Ok(Command::Link(words)) => link(alloc, &words, files, err),
        Ok(Command::Demo { number }) => demo(alloc, number, out, err),
        Ok(Command::Init(words)) => init(alloc, &words, files, out, err),
        Ok(Command::Reach { image, slot }) => reach(alloc, image.as_str(), slot, files, out, err),
        Ok(Command::Audit { image, program }) => {
            audit(alloc, image.as_str(), &program, files, out, err)
        }
        Err(failure) => {
            let _ = failure.tell(err, b"");
            Err(failure)
        }
    }
}
