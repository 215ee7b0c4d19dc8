//! The names that stand beside an output.

ghost use Rattle.std.specs.Prelude.{◌≡◌, OnOk};
ghost use Rattle.std.specs.Path.{path_buf_bytes};
ghost use Rattle.purecap.specs.Beside.{path_beside};

use itoa::Buffer;
use std::alloc::AllocError;
use std::path::PathBuf;

/// Makes the first path the one of this number that stands beside the second.
#[tactic(auto, using(crate::proofs::Neighbours::no_slash_decimal, crate::proofs::Neighbours::join_nothing))]
pub(crate) fn set_beside(
    beside: &mut PathBuf,
    path: &PathBuf,
    number: u32,
) -> Result<(), AllocError>
    ensures { OnOk result (path_buf_bytes beside.new ≡ path_beside (path_buf_bytes path.now) number) }
{
    let mut digits = Buffer::new();
    beside.clear();
    beside.push(path.as_path())?;
    beside.set_file_name(".purecap")?;
    beside.set_extension(digits.format(number))?;
    Ok(())
}
