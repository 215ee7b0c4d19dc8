//! The image in a file.

ghost use Rattle.std.specs.Prelude.{◌≡◌, MatchResult, Ok};
ghost use Rattle.cap_image.specs.Reading.{read_image as read_image_in};
ghost use Rattle.purecap.specs.Images.{image_in, image_or};
ghost use Rattle.purecap.specs.Reading.{IsOfCheck, IsFailureOf, unaccepted, unread};
ghost use Rattle.purecap.specs.Run.{counted};
ghost use Rattle.purecap.specs.Printing.{YieldsOf};

use crate::faults::Failure;
use cap_base::{Check, FileRefusal, Files, Refusal, read_file};
use cap_image::Image;
use std::alloc::Global;

const LARGEST_IMAGE: u64 = 1 << 31;

/// Reads the image in this file: the failure is that of the store, or of the first check that the file fails.
pub(crate) fn read_image<F: Files>(
    alloc: Global,
    files: &mut F,
    path: &str,
) -> Result<Image, Failure>
    ensures image { YieldsOf (λ image. image) image_in (F.told files.old) path.now
        (counted (F.read_faults files.old) (F.read_faults files.new))
        result }
    ensures same_told { F.told files.new ≡ F.told files.old }
    ensures same_writing { F.writing files.new ≡ F.writing files.old }
    ensures write_count { F.write_faults files.new ≡ F.write_faults files.old }
{
    let bytes = read_file(alloc, files, path, LARGEST_IMAGE)?;
    image_of(alloc, bytes)
}

// The image that these bytes are.
fn image_of(alloc: Global, bytes: Vec<u8>) -> Result<Image, Failure>
    ensures { MatchResult result
        (λ image. image_or (read_image_in bytes.items) ≡ Ok image)
        (λ failure. IsFailureOf (image_or (read_image_in bytes.items)) failure) }
{
    match cap_image::read(alloc, bytes) {
        Ok(image) => Ok(image),
        Err(refusal) => Err(check_failure(refusal)),
    }
}

impl From<FileRefusal> for Failure {
    ghost from_gives = { λ refusal failure. failure ≡ unread refusal };

    fn from(refusal: FileRefusal) -> Failure {
        match refusal {
            FileRefusal::NoFile => Failure::NoFile,
            FileRefusal::TooLarge => Failure::Limit {
                check: Check::FileSize.number(),
            },
            FileRefusal::Fault => Failure::ReadFault,
            FileRefusal::NoMemory => Failure::NoMemory,
        }
    }
}

// The failure of a file that was read, and then refused.
fn check_failure(refusal: Refusal) -> Failure
    requires { IsOfCheck refusal }
    ensures { result ≡ unaccepted refusal }
{
    match refusal {
        Refusal::Malformed { check, at, .. } => Failure::Malformed { check, at },
        Refusal::Unsupported { check, at, .. } => Failure::Unsupported { check, at },
        Refusal::Limit { check } => Failure::Limit { check },
        Refusal::NoMemory => Failure::NoMemory,
        Refusal::Unresolved { .. } | Refusal::Full { .. } => unreachable!(),
    }
}
