//! Reading the file of an object.

ghost use Rattle.std.specs.Prelude.{◌≡◌, ℕ, Ok, IfOk, IfSome};
ghost use Rattle.cap_elf.specs.DynView.{dyn_view};
ghost use Rattle.cap_elf.specs.IsRead.{IsRead};
ghost use Rattle.cap_session.specs.Causes.{CountedBy, Leads, file_cause as cause_of_file, refusal_cause as cause_of_refusal};
ghost use Rattle.cap_session.specs.Loading.{bytes_from, fetch_from, records_from};
ghost use Rattle.cap_session.specs.Fetched.{source_of};

use crate::refusal::OpenCause;
use cap_base::{Check, FileRefusal, Files, Name, Refusal, read_file};
use cap_elf::read_dyn;
use cap_scope::Object;
use std::alloc::Global;

/// No file of an object has more bytes.
const MOST_BYTES: u64 = 1 << 26;

/// An object that was read, and the bytes of its file.
#[derive(Drop)]
pub(crate) struct Fetched {
    pub(crate) object: Object,
    pub(crate) bytes: Vec<u8>,
}

/// Reads the object of a file, to which this number is given.
pub(crate) fn fetch<F: Files>(
    alloc: Global,
    files: &mut F,
    path: &str,
    number: u32,
) -> Result<Fetched, OpenCause>
    // Where the store tells its files, the object is that of the path, or the cause is its.
    ensures leads { IfSome (F.told files.old) (λ store. Leads source_of result (fetch_from store path.now)) }
    ensures view { IfOk result (λ f. dyn_view f.bytes.items ≡ Ok f.object.records) }
    ensures number { IfOk result (λ f. f.object.number ≡ number) }
    ensures sound { IfOk result (λ f. IsRead f.object.records) }
    ensures reads { CountedBy (F.read_faults files.old) (F.read_faults files.new) result }

    // The store keeps its files and what is being written.
    ensures told { F.told files.new ≡ F.told files.old }
    ensures writing { F.writing files.new ≡ F.writing files.old }
    ensures write_faults { F.write_faults files.new ≡ F.write_faults files.old }
{
    let bytes = fetch_bytes(alloc, files, path)?;
    let object = read_object(alloc, number, &bytes)?;
    Ok(Fetched { object, bytes })
}

/// Reads the bytes of a file.
fn fetch_bytes<F: Files>(alloc: Global, files: &mut F, path: &str) -> Result<Vec<u8>, OpenCause>
    ensures leads { IfSome (F.told files.old) (λ store. Leads (λ bytes. bytes.items) result (bytes_from store path.now)) }
    ensures reads { CountedBy (F.read_faults files.old) (F.read_faults files.new) result }
    ensures told { F.told files.new ≡ F.told files.old }
    ensures writing { F.writing files.new ≡ F.writing files.old }
    ensures write_faults { F.write_faults files.new ≡ F.write_faults files.old }
{
    match read_file(alloc, files, path, MOST_BYTES) {
        Ok(bytes) => Ok(bytes),
        Err(refusal) => Err(file_cause(refusal)),
    }
}

/// The object of a file's bytes.
fn read_object(alloc: Global, number: u32, bytes: &[u8]) -> Result<Object, OpenCause>
    ensures leads { Leads (λ o. o.records) result (records_from bytes.now) }
    ensures view { IfOk result (λ o. dyn_view bytes.now ≡ Ok o.records) }
    ensures number { IfOk result (λ o. o.number ≡ number) }
    ensures sound { IfOk result (λ o. IsRead o.records) }
    ensures unread { (n : ℕ) → CountedBy n n result }
{
    match read_dyn(alloc, number, bytes) {
        Ok(file) => match Object::new(alloc, file) {
            Ok(object) => Ok(object),
            Err(refusal) => Err(refusal_cause(alloc, refusal)),
        },
        Err(refusal) => Err(refusal_cause(alloc, refusal)),
    }
}

/// Why a file could not be read, as a cause of a session.
fn file_cause(refusal: FileRefusal) -> OpenCause
    ensures { result ≡ cause_of_file refusal }
{
    match refusal {
        FileRefusal::NoFile => OpenCause::NoFile,
        FileRefusal::TooLarge => OpenCause::Limit {
            check: Check::FileSize.number(),
        },
        FileRefusal::Fault => OpenCause::ReadFault,
        FileRefusal::NoMemory => OpenCause::NoMemory,
    }
}

/// Why an object was refused, as a cause of a session. Neither the reader nor placing answers Unresolved; the arm is there
/// because the type has it.
pub(crate) fn refusal_cause(alloc: Global, refusal: Refusal) -> OpenCause
    ensures { result ≡ cause_of_refusal refusal }
{
    match refusal {
        Refusal::Malformed { file: _, check, at } => OpenCause::Malformed { check, at },
        Refusal::Unsupported { file: _, check, at } => OpenCause::Unsupported { check, at },
        Refusal::Unresolved { file: _, symbol: _ } => OpenCause::Unresolved {
            name: Name::empty(alloc),
        },
        Refusal::Full { asked, left } => OpenCause::Full { asked, left },
        Refusal::Limit { check } => OpenCause::Limit { check },
        Refusal::NoMemory => OpenCause::NoMemory,
    }
}
