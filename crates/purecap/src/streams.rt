//! The standard streams. They tell no contents, and each error that they answer is counted as a fault.

ghost use Rattle.std.specs.Prelude.{None, ◌≡◌};
ghost use Rattle.cap_base.specs.Outside.{count_of, count_of-fits};

use crate::attempts::write_again;
use crate::counts::raise;
use cap_base::{Failed, Sink};
use std::io::Write;

/// A standard stream.
#[derive(Drop)]
pub struct StdSink<W: Write + Drop> {
    writer: W,
    faults: u64,
}

impl<W: Write + Drop> StdSink<W> {
    /// The stream that this writer writes to, with no fault counted.
    pub fn new(writer: W) -> Self
        ensures { result.faults ≡ 0 }
    {
        StdSink { writer, faults: 0 }
    }
}

impl<W: Write + Drop> Sink for StdSink<W> {
    ghost told = { λ _. None };

    ghost faults = { λ sink. count_of sink.faults };

    ghost count_ends = { λ sink. count_of-fits sink.faults };

    fn write(&mut self, bytes: &[u8]) -> Result<usize, Failed> {
        match write_again(&mut self.writer, bytes) {
            Ok(n) => Ok(n),
            Err(_) => Err(raise(&mut self.faults)),
        }
    }
}
