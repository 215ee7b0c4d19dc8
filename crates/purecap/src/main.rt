//! The program `purecap`: a static linker and a run-time linker for pure-capability programs, on the command line.
//!
//! `run` is all of it: from the words, over a store of files and two sinks, to the status of the process. It is proved
//! for any store and any sinks: what each answer says, what it leaves, and what causes it. A command has one answer to
//! its words and files, and only a counted fault of the outside or want of memory stands in the place of it.
//!
//! - `given` takes the words from the system, and `words` says what they ask for; then each command has a function of
//!   its own: `show` in `showing`, `load` in `loading`, `link` in `linking`, `demo` in `demo` and `summary`, `init` in
//!   `initial`, `reach` in `reaching`, `audit` in `auditing`.
//! - `program` has what `load`, `init` and `audit` have in common: the start and the calls. What is hard about them is
//!   that refusals of calls may be passed over: each has its line at once, and all calls speak of the same files, since
//!   no call changes the store. `images` reads the image of a file, for `show`, `reach` and `audit`; `printing` and
//!   `saving` write what a command gives.
//! - `faults` has the status and the line of each failure. A line is written without memory.
//! - `disk` has the real files and streams, the one part that is trusted: they tell no contents, so over them only the
//!   causes by counts are proved.
//!
//! It knows no format: images stand in `cap_image`, sessions in `cap_session`, and the linker in `cap_link`.
#![tactic(auto)]

mod attempts;
mod auditing;
mod counts;
mod demo;
mod disk;
mod faults;
mod given;
mod images;
mod initial;
mod linking;
mod links;
mod loading;
mod names;
mod output;
mod printing;
mod program;
mod reaching;
mod running;
mod saving;
mod showing;
mod streams;
mod summary;
mod words;

use crate::disk::DiskFiles;
use crate::given::given_words;
use crate::running::run;
use crate::streams::StdSink;
use std::process::ExitCode;

const OUT_OF_MEMORY: u8 = 12;

fn main(rt: HostRuntime) -> ExitCode {
    let Ok(words) = given_words(&rt) else {
        return ExitCode::from(OUT_OF_MEMORY);
    };
    let Ok(mut files) = DiskFiles::new(&rt) else {
        return ExitCode::from(OUT_OF_MEMORY);
    };
    let mut out = StdSink::new(rt.stdout());
    let mut err = StdSink::new(rt.stderr());
    let mut kept = Vec::new(rt.alloc());
    ExitCode::from(run(
        rt.alloc(),
        &words,
        &mut files,
        &mut out,
        &mut err,
        &mut kept,
    ))
}
