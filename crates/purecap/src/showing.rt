//! The command `show`: the report of an image, on standard output.

ghost use Rattle.std.specs.Prelude.{◌≡◌, [], MatchResult};
ghost use Rattle.cap_image.specs.Report.{report_of};
ghost use Rattle.purecap.specs.declared.faults.Failure.TheVariants as failures;
ghost use Rattle.purecap.specs.Images.{shown};
ghost use Rattle.purecap.specs.Run.{counted, streamed, stored, Shows};
ghost use Rattle.purecap.specs.Printing.{YieldsOf};

use crate::faults::Failure;
use crate::images::read_image;
use crate::printing::print_or;
use cap_base::{Files, Sink};
use cap_image::Image;
use std::alloc::Global;

/// Prints the report of the image in this file. A failure is told.
pub fn show<F: Files, O: Sink, E: Sink>(
    alloc: Global,
    image: &str,
    files: &mut F,
    out: &mut O,
    err: &mut E,
) -> Result<(), Failure>
    ensures { Shows image.now
        (stored (F.told files.old) (F.told files.new) (F.writing files.old) (F.writing files.new)
        (counted (F.read_faults files.old) (F.read_faults files.new))
        (counted (F.write_faults files.old) (F.write_faults files.new)))
        (streamed (O.told out.old) (O.told out.new) (O.faults out.old) (O.faults out.new))
        (streamed (E.told err.old) (E.told err.new) (E.faults err.old) (E.faults err.new))
        [] result }
{
    let text = report_text(alloc, files, image);
    print_or(image, text, out, err)
}

// The report of the image in this file.
fn report_text<F: Files>(alloc: Global, files: &mut F, path: &str) -> Result<Vec<u8>, Failure>
    ensures text { YieldsOf (λ text. text.items) shown (F.told files.old) path.now
        (counted (F.read_faults files.old) (F.read_faults files.new))
        result }
    ensures same_told { F.told files.new ≡ F.told files.old }
    ensures same_writing { F.writing files.new ≡ F.writing files.old }
    ensures write_count { F.write_faults files.new ≡ F.write_faults files.old }
{
    let image = read_image(alloc, files, path)?;
    text_of(alloc, &image)
}

// The report of an image.
fn text_of(alloc: Global, image: &Image) -> Result<Vec<u8>, Failure>
    ensures { MatchResult result (λ text. text.items ≡ report_of image.now) (λ failure. failure ≡ failures.NoMemory) }
{
    Ok(cap_image::report(alloc, image)?)
}
