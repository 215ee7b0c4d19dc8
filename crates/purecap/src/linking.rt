//! The command `link`: the program or the shared object that files are linked to, in a file.

ghost use Rattle.std.specs.Prelude.{◌≡◌, ◌<◌, ◌≤◌, ◌+◌, ◌^◌, [], ◌∷◌, Ok, All, IfOk, OnOk, length, map, option_map};
ghost use Rattle.std.specs.String.{string_bytes};
ghost use Rattle.cap_session.specs.Mappings.{IsName};
ghost use Rattle.purecap.specs.LinkWords.{IsLink, link_meant};
ghost use Rattle.purecap.specs.Story.{Saved};
ghost use Rattle.purecap.specs.Linking.{input_of, kind_of as kind_in, link_failure, linked, refused_link, refused_path as refused_path_in, size_of, with_input, word_of as word_in};
ghost use Rattle.purecap.specs.Inputs.{Fetches, LinksFiles, Makes, ReadsAll, ReadsOne};
ghost use Rattle.purecap.specs.Run.{counted, streamed, stored, Stream, IsStill, Links, Says};
ghost use Rattle.purecap.specs.Faults.{line_of};

use crate::faults::Failure;
use crate::saving::save_output;
use crate::words::link::LinkWords;
use cap_base::{Check, Files, Kind, Name, NoMemory, Refusal, Sink, read_file};
use cap_link::{Inputs, LinkRefusal};
use std::alloc::Global;
use std::marker::Model;

const LARGEST_FILE: u64 = 1 << 26;

const MOST_BYTES: u64 = 1 << 27;

// Why a link stops, and the file that its line names.
#[derive(Drop)]
pub(crate) struct Stop<'w> {
    pub(crate) path: &'w str,
    pub(crate) failure: Failure,
}

impl<'w> Model for Stop<'w> {
    ghost use Rattle.purecap.specs.Story.{Stop as Stopped, stop_at};

    ghost Value = { Stopped };

    ghost view = { λ stop. stop_at stop.path.now stop.failure };
}

/// Links the files, and writes the linked file.
///
/// Nothing is created before it is made.
pub fn link<F: Files, E: Sink>(
    alloc: Global,
    words: &LinkWords,
    files: &mut F,
    err: &mut E,
) -> Result<(), Failure>
    requires { IsLink (link_meant words.now) }
    ensures { (out : Stream) → IsStill out → Links (link_meant words.now)
        (stored (F.told files.old) (F.told files.new) (F.writing files.old) (F.writing files.new)
        (counted (F.read_faults files.old) (F.read_faults files.new))
        (counted (F.write_faults files.old) (F.write_faults files.new)))
        out
        (streamed (E.told err.old) (E.told err.new) (E.faults err.old) (E.faults err.new))
        [] result }
{
    match link_files(alloc, words, files) {
        Ok(bytes) => save_output(files, words.output.as_str(), &bytes, err, Ok(())),
        Err(stop) => Err(end_with(stop, err)),
    }
}

// Tells why a link stops, and gives the failure.
fn end_with<E: Sink>(stop: Stop<'_>, err: &mut E) -> Failure
    ensures failure { result ≡ stop.entry.failure }
    ensures says { Says (streamed (E.told err.old) (E.told err.new) (E.faults err.old) (E.faults err.new)) (line_of stop.entry.path stop.entry.failure ∷ []) }
{
    let Stop { path, failure } = stop;
    let _ = failure.tell(err, path.as_bytes());
    failure
}

// The bytes of the linked file.
fn link_files<'w, F: Files>(
    alloc: Global,
    words: &'w LinkWords,
    files: &mut F,
) -> Result<Vec<u8>, Stop<'w>>
    requires { IsLink (link_meant words.now) }
    ensures links { LinksFiles (λ bytes. bytes.items) (F.told files.old) (link_meant words.now) (counted (F.read_faults files.old) (F.read_faults files.new)) result }
    ensures same_told { F.told files.new ≡ F.told files.old }
    ensures same_writing { F.writing files.new ≡ F.writing files.old }
    ensures write_count { F.write_faults files.new ≡ F.write_faults files.old }
{
    let inputs = read_inputs(alloc, &words.inputs, files)?;
    link_inputs(alloc, words, inputs)
}

// Reads the files in their order.
fn read_inputs<'w, F: Files>(
    alloc: Global,
    words: &'w [String],
    files: &mut F,
) -> Result<Inputs, Stop<'w>>
    requires few { length words.now ≤ 256 }
    requires names { All (λ word. IsName (string_bytes word)) words.now }
    ensures reads { ReadsAll (F.told files.old) (map string_bytes words.now) (counted (F.read_faults files.old) (F.read_faults files.new)) result }
    ensures same_told { F.told files.new ≡ F.told files.old }
    ensures same_writing { F.writing files.new ≡ F.writing files.old }
    ensures write_count { F.write_faults files.new ≡ F.write_faults files.old }
{
    let mut inputs = Inputs::new(alloc);
    let mut size = 0;
    for word in words {
        size = read_input(alloc, word.as_str(), files, &mut inputs, size)?;
    }
    Ok(inputs)
}

// Reads one more file: how many bytes all have.
fn read_input<'w, F: Files>(
    alloc: Global,
    word: &'w str,
    files: &mut F,
    inputs: &mut Inputs,
    size: u64,
) -> Result<u64, Stop<'w>>
    requires few { length inputs.old < 256 }
    requires name { IsName word.now }
    requires size { size ≡ size_of inputs.old }
    requires within { size ≤ 2 ^ 27 }
    ensures reads { ReadsOne (F.told files.old) word.now (counted (F.read_faults files.old) (F.read_faults files.new)) inputs.old inputs.new result }
    ensures size { IfOk result (λ n. n ≡ size_of inputs.new) }
    ensures within { IfOk result (λ n. n ≤ 2 ^ 27) }
    ensures count { OnOk result (length inputs.new ≡ length inputs.old + 1) }
    ensures same_told { F.told files.new ≡ F.told files.old }
    ensures same_writing { F.writing files.new ≡ F.writing files.old }
    ensures write_count { F.write_faults files.new ≡ F.write_faults files.old }
{
    let bytes = read_bytes(alloc, word, files)?;
    add_input(inputs, word, bytes, size)
}

// Reads the file of this path.
fn read_bytes<'w, F: Files>(
    alloc: Global,
    word: &'w str,
    files: &mut F,
) -> Result<Vec<u8>, Stop<'w>>
    ensures fetches { Fetches (λ bytes. bytes.items) (F.told files.old) word.now (counted (F.read_faults files.old) (F.read_faults files.new)) result }
    ensures size { IfOk result (λ bytes. length bytes.items ≤ 2 ^ 26) }
    ensures same_told { F.told files.new ≡ F.told files.old }
    ensures same_writing { F.writing files.new ≡ F.writing files.old }
    ensures write_count { F.write_faults files.new ≡ F.write_faults files.old }
{
    match read_file(alloc, files, word, LARGEST_FILE) {
        Ok(bytes) => Ok(bytes),
        Err(refusal) => Err(Stop {
            path: word,
            failure: Failure::from(refusal),
        }),
    }
}

// Adds a file to inputs of `size` bytes: how many bytes all have.
fn add_input<'w>(
    inputs: &mut Inputs,
    word: &'w str,
    bytes: Vec<u8>,
    size: u64,
) -> Result<u64, Stop<'w>>
    requires few { length inputs.old < 256 }
    requires name { IsName word.now }
    requires size { size ≡ size_of inputs.old }
    requires within { size ≤ 2 ^ 27 }
    requires bytes { length bytes.items ≤ 2 ^ 26 }
    ensures adds { Makes (λ _. inputs.new) (with_input inputs.old (word.now, bytes.items)) result }
    ensures size { IfOk result (λ n. n ≡ size_of inputs.new) }
    ensures within { IfOk result (λ n. n ≤ 2 ^ 27) }
    ensures count { OnOk result (length inputs.new ≡ length inputs.old + 1) }
{
    let size = size + bytes.len() as u64;
    if size > MOST_BYTES {
        return Err(Stop {
            path: word,
            failure: Failure::Limit {
                check: Check::InputSize.number(),
            },
        });
    }
    match inputs.push(word, bytes) {
        Ok(()) => Ok(size),
        Err(NoMemory) => Err(Stop {
            path: word,
            failure: Failure::NoMemory,
        }),
    }
}

// Links these inputs.
pub(crate) fn link_inputs<'w>(
    alloc: Global,
    words: &'w LinkWords,
    inputs: Inputs,
) -> Result<Vec<u8>, Stop<'w>>
    requires { IsLink (link_meant words.now) }
    ensures { Makes (λ bytes. Saved (string_bytes words.now.output) bytes.items []) (linked (link_meant words.now) inputs) result }
{
    let Ok(kind) = kind_of(alloc, words) else {
        return Err(Stop {
            path: "",
            failure: Failure::NoMemory,
        });
    };
    match cap_link::link(alloc, inputs, &kind) {
        Ok(bytes) => Ok(bytes),
        Err(refusal) => Err(stop_of(words, refusal)),
    }
}

// What is linked: a shared object, where there is a name.
fn kind_of(alloc: Global, words: &LinkWords) -> Result<Kind, NoMemory>
    ensures { IfOk result (λ kind. kind ≡ kind_in (option_map string_bytes words.now.soname)) }
{
    match &words.soname {
        Some(name) => Ok(Kind::Shared(Name::of(alloc, name.as_bytes())?)),
        None => Ok(Kind::Program),
    }
}

// The failure of a refusal, and the file that its line names.
fn stop_of(words: &LinkWords, refusal: LinkRefusal) -> Stop<'_>
    ensures { result ≡ refused_link (link_meant words.now) refusal.name refusal.refusal }
{
    let LinkRefusal { refusal, name } = refusal;
    Stop {
        path: refused_path(words, refusal),
        failure: failure_of(refusal, name),
    }
}

// The file that a refusal names.
fn refused_path(words: &LinkWords, refusal: Refusal) -> &str
    ensures { result.now ≡ refused_path_in (link_meant words.now) refusal }
{
    match refusal {
        Refusal::Malformed { file, .. }
        | Refusal::Unsupported { file, .. }
        | Refusal::Unresolved { file, .. } => word_of(words, file),
        Refusal::Full { .. } => words.output.as_str(),
        Refusal::Limit { .. } | Refusal::NoMemory => "",
    }
}

// The path of the input of this number.
fn word_of(words: &LinkWords, file: u32) -> &str
    ensures { result.now ≡ word_in (link_meant words.now) file }
{
    match words.inputs.get(file as usize) {
        Some(word) => word.as_str(),
        None => "",
    }
}

// The failure of a refusal, where this is the name of the unresolved symbol.
fn failure_of(refusal: Refusal, name: Name) -> Failure
    ensures { result ≡ link_failure name refusal }
{
    match refusal {
        Refusal::Malformed { check, at, .. } => Failure::Malformed { check, at },
        Refusal::Unsupported { check, at, .. } => Failure::Unsupported { check, at },
        Refusal::Unresolved { .. } => Failure::Unresolved { name },
        Refusal::Full { asked, .. } => Failure::Full { asked },
        Refusal::Limit { check } => Failure::Limit { check },
        Refusal::NoMemory => Failure::NoMemory,
    }
}
