//! An output, which is written beside its path, and has the path only once all of it is on the disk.
//!
//! So the path leads to the file that was there, or to the whole new one, wherever the program is stopped.

ghost use Rattle.std.specs.Prelude.{◌≡◌, ◌<◌, IfOk, OnOk, OnErr, IsErr, length};
ghost use Rattle.std.specs.Io.{WritesAtMost};

use crate::attempts::write_again;
use crate::links::{Place, place_of};
use crate::names::set_beside;
use std::alloc::AllocError;
use std::fs::{OpenFile, OpenOptions};
use std::io::{ErrorKind, Write};
use std::path::PathBuf;
use std::{fs, io, rt};

// Room for a path that the words can have, so that an output without links asks for no memory.
const ROOM: usize = 288;

const NEIGHBOURS: u32 = 1000;

/// How far an output is.
#[derive(Drop)]
enum Stage<F: Drop> {
    Idle,
    // It is written to what has its path.
    Itself(F),
    // It is written to the file beside it.
    Beside(F),
    // It failed, and nothing more is written.
    Lost,
}

/// The output that is being written, if there is one.
#[derive(Drop)]
pub(crate) struct Output<'a, R: rt::Files> {
    rt: &'a R,
    stage: Stage<R::File>,
    path: PathBuf,
    beside: PathBuf,
}

impl<'a, R: rt::Files + AllocGlobal> Output<'a, R> {
    pub(crate) fn new(rt: &'a R) -> Result<Self, AllocError> {
        Ok(Output {
            rt,
            stage: Stage::Idle,
            path: PathBuf::from(String::with_capacity(rt.alloc(), ROOM)?),
            beside: PathBuf::from(String::with_capacity(rt.alloc(), ROOM)?),
        })
    }

    /// Begins an output of this path. One that was not finished is given up.
    pub(crate) fn begin(&mut self, path: &str) -> io::Result<()>
        ensures lost { OnErr result (self.new.stage ≡ Stage.Lost) }
    {
        self.give_up();
        let begun = self.open(path);
        if begun.is_err() {
            self.give_up();
        }
        begun
    }

    fn open(&mut self, path: &str) -> io::Result<()> {
        self.path.clear();
        self.path.push(path)?;
        match place_of(self.rt, &mut self.path)? {
            Place::Itself => {
                self.stage = Stage::Itself(fs::create(self.rt, path)?);
                Ok(())
            }
            Place::Old => self.open_over(),
            Place::New => self.open_beside(),
        }
    }

    // A file that may not be written isn't replaced either. The new one has its permissions.
    fn open_over(&mut self) -> io::Result<()> {
        let old = OpenOptions::new()
            .write(true)
            .open(self.rt, self.path.as_path())?;
        let permissions = old.metadata()?.permissions();
        self.open_beside()?;
        match &self.stage {
            Stage::Beside(file) => file.set_permissions(permissions),
            _ => Ok(()),
        }
    }

    // Opens a file that no other run has, of the first number that is free.
    fn open_beside(&mut self) -> io::Result<()> {
        for number in 0..NEIGHBOURS {
            set_beside(&mut self.beside, &self.path, number)?;
            let opened = OpenOptions::new()
                .write(true)
                .create_new(true)
                .open(self.rt, self.beside.as_path());
            match opened {
                Ok(file) => {
                    self.stage = Stage::Beside(file);
                    return Ok(());
                }
                Err(error) if error.kind() == ErrorKind::AlreadyExists => {}
                Err(error) => return Err(error),
            }
        }
        Err(io::Error::from(ErrorKind::AlreadyExists))
    }

    /// Writes a front of the bytes, or drops them where there is no output.
    pub(crate) fn write(&mut self, bytes: &[u8]) -> io::Result<usize>
        ensures bound { WritesAtMost result bytes.now }
        ensures some { IfOk result (λ n. 0 < length bytes.now → 0 < n) }
        ensures lost { OnErr result (self.new.stage ≡ Stage.Lost) }
        ensures stays { self.old.stage ≡ Stage.Lost → IsErr result }
    {
        let written = match &mut self.stage {
            Stage::Idle => return Ok(bytes.len()),
            Stage::Itself(file) | Stage::Beside(file) => write_again(file, bytes),
            Stage::Lost => Err(io::Error::from(ErrorKind::BrokenPipe)),
        };
        if written.is_err() {
            self.give_up();
        }
        written
    }

    /// Ends the output: from now on its path has it. After a failure the path has what it had.
    pub(crate) fn finish(&mut self) -> io::Result<()>
        ensures ended { OnOk result (self.new.stage ≡ Stage.Idle) }
        ensures lost { OnErr result (self.new.stage ≡ Stage.Lost) }
        ensures stays { self.old.stage ≡ Stage.Lost → IsErr result }
    {
        match self.place() {
            Ok(()) => {
                self.stage = Stage::Idle;
                Ok(())
            }
            Err(error) => {
                self.give_up();
                Err(error)
            }
        }
    }

    // Its bytes must be on the disk before it has the path.
    fn place(&mut self) -> io::Result<()>
        ensures stays { self.old.stage ≡ Stage.Lost → IsErr result }
    {
        match &mut self.stage {
            Stage::Idle => Ok(()),
            Stage::Itself(file) => to_disk(file),
            Stage::Beside(file) => {
                to_disk(file)?;
                fs::rename(self.rt, self.beside.as_path(), self.path.as_path())
            }
            Stage::Lost => Err(io::Error::from(ErrorKind::BrokenPipe)),
        }
    }

    // What stands beside the path is removed, where it can be.
    fn give_up(&mut self)
        ensures { self.new.stage ≡ Stage.Lost }
    {
        if let Stage::Beside(_) = &self.stage {
            let _ = fs::remove_file(self.rt, self.beside.as_path());
        }
        self.stage = Stage::Lost;
    }
}

// What a `close` could tell too late is told here. A pipe or a device keeps nothing, and refuses by this error.
fn to_disk<F: OpenFile + Write>(file: &mut F) -> io::Result<()> {
    file.flush()?;
    match file.sync_all() {
        Err(error) if error.kind() == ErrorKind::InvalidInput => Ok(()),
        synced => synced,
    }
}
