//! The ends of a run other than its success: the status and the line of each.

ghost use Rattle.std.specs.Prelude.{◌≡◌, ◌<◌, ◌≤◌, ◌++◌, codes, false, drop};
ghost use Rattle.std.specs.Fmt.{digits, digit_glyph};
ghost use Rattle.cap_base.specs.Check.{check_text_of};
ghost use Rattle.cap_base.specs.Outside.{Sends, SendsNext};
ghost use Rattle.purecap.specs.Faults.{status_of, line_of, check_line, limit_line, file_line, name_line, interval_line, full_line, word_line, failure_of};

use cap_base::{Failed, Name, Sink, check_text, send, send_next};
use cap_session::OpenCause;

/// Why a run did not do what its words ask for, or passed over a call. Checks go by their numbers.
#[derive(Debug, Drop)]
pub enum Failure {
    /// The words are in no form that a command has.
    Usage,
    /// The store has no file of this name.
    NoFile,
    /// The file breaks its format, at this offset.
    Malformed { check: u8, at: u64 },
    /// The file is in a form that isn't accepted, at this offset.
    Unsupported { check: u8, at: u64 },
    /// No object defines this name.
    Unresolved { name: Name },
    /// A capability can't have these bounds exactly; the name is `-` for an entry of `__cap_relocs`.
    Inexact { name: Name, base: u64, len: u64 },
    /// There is no room for so many addresses.
    Full { asked: u64 },
    /// There is more of something than the program takes.
    Limit { check: u8 },
    /// Reading a file failed.
    ReadFault,
    /// Writing the output failed.
    WriteFault,
    /// There was not enough memory.
    NoMemory,
    /// The image has no tagged word at this address.
    NoWord { slot: u64 },
    /// The image isn't the one that was wanted.
    Differs,
}

impl Failure {
    /// The status of the process.
    pub fn status(&self) -> u8
        ensures { result ≡ status_of self.now }
    {
        match self {
            Failure::Usage => 2,
            Failure::NoFile => 3,
            Failure::Malformed { .. } => 4,
            Failure::Unsupported { .. } => 5,
            Failure::Unresolved { .. } => 6,
            Failure::Inexact { .. } => 7,
            Failure::Full { .. } => 8,
            Failure::Limit { .. } => 9,
            Failure::ReadFault => 10,
            Failure::WriteFault => 11,
            Failure::NoMemory => 12,
            Failure::NoWord { .. } => 14,
            Failure::Differs => 15,
        }
    }

    /// Writes the line of the failure, over the file of this path; a front of it where a write fails.
    pub fn tell<E: Sink>(&self, err: &mut E, path: &[u8]) -> Result<(), Failed>
        ensures { Sends (E.told err.old) (E.told err.new) (E.faults err.old) (E.faults err.new) (line_of path.now self.now) result }
    {
        match self {
            Failure::Usage => send(err, b"purecap: usage\n"),
            Failure::NoFile => tell_file(err, path, b": no such file\n"),
            Failure::Malformed { check, at } => {
                tell_check(err, path, b": malformed ", *check, *at)
            }
            Failure::Unsupported { check, at } => {
                tell_check(err, path, b": unsupported ", *check, *at)
            }
            Failure::Unresolved { name } => tell_name(err, path, name.bytes()),
            Failure::Inexact { name, base, len } => {
                tell_interval(err, path, name.bytes(), *base, *len)
            }
            Failure::Full { asked } => tell_full(err, path, *asked),
            Failure::Limit { check } => tell_limit(err, *check),
            Failure::ReadFault => tell_file(err, path, b": read fault\n"),
            Failure::WriteFault => tell_file(err, path, b": write fault\n"),
            Failure::NoMemory => send(err, b"purecap: out of memory\n"),
            Failure::NoWord { slot } => tell_word(err, path, *slot),
            Failure::Differs => tell_file(err, path, b": differs\n"),
        }
    }

    /// The same behind other lines, unless a write of them failed.
    pub fn tell_next<E: Sink>(
        &self,
        err: &mut E,
        so_far: Result<(), Failed>,
        path: &[u8],
    ) -> Result<(), Failed>
        ensures { SendsNext so_far (E.told err.old) (E.told err.new) (E.faults err.old) (E.faults err.new) (line_of path.now self.now) result }
    {
        match so_far {
            Ok(()) => self.tell(err, path),
            Err(Failed) => Err(Failed),
        }
    }
}

impl From<OpenCause> for Failure {
    ghost from_gives = { λ cause failure. failure ≡ failure_of cause };

    fn from(cause: OpenCause) -> Failure {
        match cause {
            OpenCause::NoFile => Failure::NoFile,
            OpenCause::Malformed { check, at } => Failure::Malformed { check, at },
            OpenCause::Unsupported { check, at } => Failure::Unsupported { check, at },
            OpenCause::Unresolved { name } => Failure::Unresolved { name },
            OpenCause::Inexact { name, base, len } => Failure::Inexact { name, base, len },
            OpenCause::Full { asked, .. } => Failure::Full { asked },
            OpenCause::Limit { check } => Failure::Limit { check },
            OpenCause::ReadFault => Failure::ReadFault,
            OpenCause::NoMemory => Failure::NoMemory,
        }
    }
}

// A line that names a file.
fn tell_file<E: Sink>(err: &mut E, path: &[u8], what: &[u8]) -> Result<(), Failed>
    ensures { Sends (E.told err.old) (E.told err.new) (E.faults err.old) (E.faults err.new) (file_line path.now what.now) result }
{
    let program = send(err, b"purecap: ");
    let named = send_next(err, program, path);
    send_next(err, named, what)
}

// The line of a limit.
fn tell_limit<E: Sink>(err: &mut E, check: u8) -> Result<(), Failed>
    ensures { Sends (E.told err.old) (E.told err.new) (E.faults err.old) (E.faults err.new) (limit_line check) result }
{
    let limit = send(err, b"purecap: limit ");
    let text = send_next(err, limit, check_text(check).as_bytes());
    send_next(err, text, b"\n")
}

// The line of a check that failed at an offset.
fn tell_check<E: Sink>(
    err: &mut E,
    path: &[u8],
    class: &[u8],
    check: u8,
    at: u64,
) -> Result<(), Failed>
    ensures { Sends (E.told err.old) (E.told err.new) (E.faults err.old) (E.faults err.new) (check_line path.now class.now check at) result }
{
    let named = tell_file(err, path, class);
    let text = send_next(err, named, check_text(check).as_bytes());
    let place = send_next(err, text, b" at 0x");
    let number = send_hex(err, place, at);
    send_next(err, number, b"\n")
}

// The line of a name that nothing defines.
fn tell_name<E: Sink>(err: &mut E, path: &[u8], name: &[u8]) -> Result<(), Failed>
    ensures { Sends (E.told err.old) (E.told err.new) (E.faults err.old) (E.faults err.new) (name_line path.now name.now) result }
{
    let cause = tell_file(err, path, b": unresolved ");
    let named = send_next(err, cause, name);
    send_next(err, named, b"\n")
}

// The line of an interval that has no exact bounds.
fn tell_interval<E: Sink>(
    err: &mut E,
    path: &[u8],
    name: &[u8],
    base: u64,
    len: u64,
) -> Result<(), Failed>
    ensures { Sends (E.told err.old) (E.told err.new) (E.faults err.old) (E.faults err.new) (interval_line path.now name.now base len) result }
{
    let cause = tell_file(err, path, b": inexact ");
    let named = send_next(err, cause, name);
    let from = send_next(err, named, b" 0x");
    let begun = send_hex(err, from, base);
    let over = send_next(err, begun, b" 0x");
    let ended = send_hex(err, over, len);
    send_next(err, ended, b"\n")
}

// The line of a file that has no room.
fn tell_full<E: Sink>(err: &mut E, path: &[u8], asked: u64) -> Result<(), Failed>
    ensures { Sends (E.told err.old) (E.told err.new) (E.faults err.old) (E.faults err.new) (full_line path.now asked) result }
{
    let cause = tell_file(err, path, b": full, asked 0x");
    let number = send_hex(err, cause, asked);
    send_next(err, number, b"\n")
}

// The line of a slot without a tagged word.
fn tell_word<E: Sink>(err: &mut E, path: &[u8], slot: u64) -> Result<(), Failed>
    ensures { Sends (E.told err.old) (E.told err.new) (E.faults err.old) (E.faults err.new) (word_line path.now slot) result }
{
    let cause = tell_file(err, path, b": no tagged word at 0x");
    let number = send_hex(err, cause, slot);
    send_next(err, number, b"\n")
}

// The digits of a number in base 16, unless an earlier part failed.
fn send_hex<E: Sink>(err: &mut E, so_far: Result<(), Failed>, n: u64) -> Result<(), Failed>
    ensures { SendsNext so_far (E.told err.old) (E.told err.new) (E.faults err.old) (E.faults err.new) (digits 16 false n) result }
{
    let mut buf = [0u8; 16];
    let start = write_hex(n, &mut buf);
    send_next(err, so_far, &buf[start..])
}

// The digits of a number in base 16, at the end of the buffer: where they begin. A line is written without memory.
fn write_hex(n: u64, buf: &mut [u8; 16]) -> usize
    ensures start { result ≤ 16 }
    ensures digits { drop result buf.new ≡ digits 16 false n }
{
    let mut start = 16;
    let mut left = n;
    loop {
        start -= 1;
        buf[start] = hex_digit(left % 16);
        left /= 16;
        if left == 0 {
            return start;
        }
    }
}

// The digit of a number below 16.
pub(crate) fn hex_digit(n: u64) -> u8
    requires { n < 16 }
    ensures { result ≡ digit_glyph false n }
{
    let digit = n as u8;
    if digit < 10 {
        b'0' + digit
    } else {
        b'a' + (digit - 10)
    }
}
