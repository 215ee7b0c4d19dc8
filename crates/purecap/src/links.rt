//! Where an output is to be written: the links of its path are followed first.

use std::io::ErrorKind;
use std::path::{Path, PathBuf};
use std::{fs, io, rt};

// As many as Linux follows.
const MOST_LINKS: u32 = 40;

/// Where an output is to be written.
#[derive(Clone, Copy, Debug, PartialEq, Eq)]
pub(crate) enum Place {
    /// To what has the path: a pipe, a device, or a stream that is open already. A folder refuses it.
    Itself,
    /// In the place of a file.
    Old,
    /// To a file that isn't there.
    New,
}

/// Where an output of this path is to be written. A path that ends in links becomes the path that they lead to.
pub(crate) fn place_of<R: rt::Files + AllocGlobal>(
    rt: &R,
    path: &mut PathBuf,
) -> io::Result<Place> {
    let place = match fs::metadata(rt, path.as_path()) {
        Ok(found) if found.is_file() => Place::Old,
        Ok(_) => return Ok(Place::Itself),
        Err(error) if error.kind() == ErrorKind::NotFound => Place::New,
        Err(error) => return Err(error),
    };
    for _ in 0..=MOST_LINKS {
        if is_stream(path.as_str()) {
            return Ok(Place::Itself);
        }
        if !is_link(rt, path.as_path())? {
            return Ok(place);
        }
        let text = fs::read_link(rt, path.as_path())?;
        path.set_file_name(text.as_str())?;
    }
    Err(io::Error::from(ErrorKind::FilesystemLoop))
}

// Whether a path names what a process has open. Such a link stands for the open file, whatever path it tells.
fn is_stream(path: &str) -> bool {
    path.starts_with("/proc/") || path.starts_with("/dev/fd/")
}

fn is_link<R: rt::Files>(rt: &R, path: Path<'_>) -> io::Result<bool> {
    match fs::symlink_metadata(rt, path) {
        Ok(found) => Ok(found.is_symlink()),
        Err(error) if error.kind() == ErrorKind::NotFound => Ok(false),
        Err(error) => Err(error),
    }
}
