//! The real files. They tell no contents, and each error that they answer is counted as a fault.

ghost use Rattle.std.specs.Prelude.{None, ◌≡◌, IfOk};
ghost use Rattle.cap_base.specs.Outside.{count_of, count_of-fits};

use crate::attempts::read_again;
use crate::counts::raise;
use crate::output::Output;
use cap_base::{Failed, Files, Opened};
use std::alloc::AllocError;
use std::io::ErrorKind;
use std::{fs, rt};

/// Files on a disk.
#[derive(Drop)]
pub struct DiskFiles<'a, R: rt::Files> {
    rt: &'a R,
    reading: Option<R::File>,
    output: Output<'a, R>,
    read_faults: u64,
    write_faults: u64,
}

impl<'a, R: rt::Files + AllocGlobal> DiskFiles<'a, R> {
    /// Files on the disk of this runtime. None is open, and no fault is counted.
    pub fn new(rt: &'a R) -> Result<Self, AllocError>
        ensures reads { IfOk result (λ disk. disk.read_faults ≡ 0) }
        ensures writes { IfOk result (λ disk. disk.write_faults ≡ 0) }
    {
        Ok(DiskFiles {
            rt,
            reading: None,
            output: Output::new(rt)?,
            read_faults: 0,
            write_faults: 0,
        })
    }
}

impl<R: rt::Files + AllocGlobal> Files for DiskFiles<'_, R> {
    ghost told = { λ _. None };

    ghost rest = { λ _. None };

    ghost writing = { λ _. None };

    ghost read_faults = { λ disk. count_of disk.read_faults };

    ghost write_faults = { λ disk. count_of disk.write_faults };

    ghost counts_end = { λ disk. (count_of-fits disk.read_faults, count_of-fits disk.write_faults) };

    fn open(&mut self, name: &str) -> Result<Opened, Failed> {
        self.reading = None;
        match fs::open(self.rt, name) {
            Ok(file) => {
                self.reading = Some(file);
                Ok(Opened::Found)
            }
            Err(error) => {
                if error.kind() == ErrorKind::NotFound {
                    return Ok(Opened::Absent);
                }
                Err(raise(&mut self.read_faults))
            }
        }
    }

    fn read(&mut self, buf: &mut [u8]) -> Result<usize, Failed> {
        let Some(file) = &mut self.reading else {
            return Ok(0);
        };
        match read_again(file, buf) {
            Ok(n) => Ok(n),
            Err(_) => Err(raise(&mut self.read_faults)),
        }
    }

    fn create(&mut self, name: &str) -> Result<(), Failed> {
        self.reading = None;
        match self.output.begin(name) {
            Ok(()) => Ok(()),
            Err(_) => Err(raise(&mut self.write_faults)),
        }
    }

    fn write(&mut self, bytes: &[u8]) -> Result<usize, Failed> {
        match self.output.write(bytes) {
            Ok(n) => Ok(n),
            Err(_) => Err(raise(&mut self.write_faults)),
        }
    }

    fn finish(&mut self) -> Result<(), Failed> {
        self.reading = None;
        match self.output.finish() {
            Ok(()) => Ok(()),
            Err(_) => Err(raise(&mut self.write_faults)),
        }
    }
}
