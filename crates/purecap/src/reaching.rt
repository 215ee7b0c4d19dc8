//! The command `reach`: every word that can be loaded, step by step, from one tagged word of an image.

ghost use Rattle.std.specs.Prelude.{◌≡◌, [], MatchResult, Ok};
ghost use Rattle.purecap.specs.Images.{reached, reached_in};
ghost use Rattle.purecap.specs.Reading.{IsFailureOf};
ghost use Rattle.purecap.specs.Run.{counted, streamed, stored, Reaches};
ghost use Rattle.purecap.specs.Printing.{YieldsOf};

use crate::faults::Failure;
use crate::images::read_image;
use crate::printing::print_or;
use cap_base::{Files, Sink};
use cap_image::Image;
use cap_reach::ReachRefusal;
use std::alloc::Global;

/// Prints the words of the image in this file that are reached from a slot. A failure is told.
pub fn reach<F: Files, O: Sink, E: Sink>(
    alloc: Global,
    image: &str,
    slot: u64,
    files: &mut F,
    out: &mut O,
    err: &mut E,
) -> Result<(), Failure>
    ensures { Reaches image.now slot
        (stored (F.told files.old) (F.told files.new) (F.writing files.old) (F.writing files.new)
        (counted (F.read_faults files.old) (F.read_faults files.new))
        (counted (F.write_faults files.old) (F.write_faults files.new)))
        (streamed (O.told out.old) (O.told out.new) (O.faults out.old) (O.faults out.new))
        (streamed (E.told err.old) (E.told err.new) (E.faults err.old) (E.faults err.new))
        [] result }
{
    let text = reach_text(alloc, files, image, slot);
    print_or(image, text, out, err)
}

// What is reached in the image in this file.
fn reach_text<F: Files>(
    alloc: Global,
    files: &mut F,
    path: &str,
    slot: u64,
) -> Result<Vec<u8>, Failure>
    ensures text { YieldsOf (λ text. text.items) (reached slot) (F.told files.old) path.now
        (counted (F.read_faults files.old) (F.read_faults files.new))
        result }
    ensures same_told { F.told files.new ≡ F.told files.old }
    ensures same_writing { F.writing files.new ≡ F.writing files.old }
    ensures write_count { F.write_faults files.new ≡ F.write_faults files.old }
{
    let image = read_image(alloc, files, path)?;
    text_of(alloc, &image, slot)
}

// What is reached in an image.
fn text_of(alloc: Global, image: &Image, slot: u64) -> Result<Vec<u8>, Failure>
    ensures { MatchResult result
        (λ text. reached_in slot image.now ≡ Ok text.items)
        (λ failure. IsFailureOf (reached_in slot image.now) failure) }
{
    match cap_reach::reach(alloc, image, slot) {
        Ok(slots) => Ok(cap_reach::report(alloc, image, &slots)?),
        Err(ReachRefusal::NotTagged { slot }) => Err(Failure::NoWord { slot }),
        Err(ReachRefusal::NoMemory) => Err(Failure::NoMemory),
    }
}
