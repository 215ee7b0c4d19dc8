//! What the words of the command line ask for.

ghost use Rattle.std.specs.Prelude.{◌≡◌, map, true, false, IfOk, IfErr, codes, string_bytes};
ghost use Rattle.cap_base.specs.Check.{number_of};
ghost use Rattle.clap.specs.Words.{all_of, app_of, first_of, found_of, is_simple_and_free, rows_of, rule_of as rule_of_arg};
ghost use Rattle.purecap.specs.declared.faults.Failure.TheVariants.{NoMemory};
ghost use Rattle.purecap.specs.WordRules.{Meant, has_slash as has_slash_in, is_long as is_long_text, is_name as is_name_text, is_path as is_path_text, operand as operand_in, required_option as required_option_in, parsed, refuse as refuse_of, value_of as value_in};
ghost use Rattle.purecap.specs.ProgramWords.{program_meant};
ghost use Rattle.purecap.specs.Words.{IsAccepted, audit_app, audit_of as audit_in, audit_words as audit_words_in, command_of as command_in, init_app, init_of as init_in, init_words as init_words_in, load_app, load_meant, load_of as load_in, load_words as load_words_in, meaning, reach_app, reach_of as reach_in, reach_words as reach_words_in, show_app, show_of as show_in, show_words as show_words_in};

mod demo;
pub(crate) mod link;
pub(crate) mod program;
mod slot;

use crate::faults::Failure;
use crate::words::demo::demo_number;
use crate::words::link::{LinkWords, link_words};
use crate::words::program::{ProgramWords, check_limits, check_paths, program_of, with_program};
use crate::words::slot::slot_of;
use cap_base::{Check, NoMemory, Words, is_plain};
use clap::error::ErrorKind;
use clap::{Arg, ArgMatches};
use std::alloc::{AllocError, AllocFailed, Global};

const LONGEST_PATH: usize = 255;

/// What the program is asked for.
#[derive(Debug, Drop)]
pub enum Command {
    /// The report of the image in this file.
    Show {
        image: String,
    },
    /// The image of a program that is loaded.
    Load(LoadWords),
    /// The file that is linked from others.
    Link(LinkWords),
    /// The summary of the objects that are made from this number.
    Demo {
        number: u32,
    },
    /// The initial calls of a program that is loaded.
    Init(ProgramWords),
    /// What is reached from this slot of the image in this file.
    Reach {
        image: String,
        slot: u64,
    },
    /// Where the image in this file is not that of a program that is loaded.
    Audit {
        image: String,
        program: ProgramWords,
    },
}

/// What `load` is asked for. The path of the image has 1 to 255 printable ASCII characters.
#[derive(Debug, Drop)]
pub struct LoadWords {
    /// The path of the image to write.
    pub image: String,
    /// The program to load.
    pub program: ProgramWords,
}

/// What the words ask for.
///
/// `Usage` are words that the command does not take, a call for help too, and words of another form; `Limit` a path or
/// a name of more than 255 bytes, more than 64 calls, or more than 256 files to link.
pub fn command_of(alloc: Global, words: &Words) -> Result<Command, Failure>
    ensures meaning { Meant meaning result (command_in words.now) }
    ensures accepted { IfOk result (λ command. IsAccepted (meaning command)) }
{
    named_command(alloc, words)
}

// The command that the first word names, by all the words.
#[tactic(auto, unfolding(crate::specs::Words::command_of))]
fn named_command(alloc: Global, words: &Words) -> Result<Command, Failure>
    ensures { Meant meaning result (command_in words.now) }
{
    if words.is_empty() {
        return Err(Failure::Usage);
    }
    let command = words.get(0);
    if command == "show" {
        return show_words(alloc, words);
    }
    if command == "load" {
        return load_words(alloc, words);
    }
    if command == "link" {
        return Ok(Command::Link(link_words(alloc, words)?));
    }
    if command == "demo" {
        return Ok(Command::Demo {
            number: demo_number(alloc, words)?,
        });
    }
    if command == "init" {
        return init_words(alloc, words);
    }
    if command == "reach" {
        return reach_words(alloc, words);
    }
    if command == "audit" {
        return audit_words(alloc, words);
    }
    Err(Failure::Usage)
}

// The words of `show`.
#[tactic(auto, unfolding(crate::specs::Words::show_words))]
fn show_words(alloc: Global, words: &Words) -> Result<Command, Failure>
    ensures { Meant meaning result (show_words_in words.now) }
{
    let texts = texts_of(alloc, words)?;
    let matches = parse(show_parser(alloc)?, &texts)?;
    show_of(alloc, value_of(&matches, "image"))
}

// `show` of the image in this file.
#[tactic(auto, unfolding(crate::specs::Words::show_of))]
fn show_of(alloc: Global, image: &str) -> Result<Command, Failure>
    ensures { Meant meaning result (show_in image.now) }
{
    refuse(!is_path(image), Failure::Usage)?;
    refuse(is_long(image), limit(Check::PathLength))?;
    Ok(Command::Show {
        image: String::from_str(alloc, image)?,
    })
}

// The words of `load`.
#[tactic(auto, unfolding(crate::specs::Words::load_words))]
fn load_words(alloc: Global, words: &Words) -> Result<Command, Failure>
    ensures { Meant meaning result (load_words_in words.now) }
{
    let texts = texts_of(alloc, words)?;
    let matches = parse(load_parser(alloc)?, &texts)?;
    let program = program_of(alloc, &matches)?;
    load_of(LoadWords {
        image: String::from_str(alloc, value_of(&matches, "image"))?,
        program,
    })
}

// `load` of this program, into the image of this path.
#[tactic(auto, unfolding(crate::specs::Words::load_of))]
fn load_of(asked: LoadWords) -> Result<Command, Failure>
    ensures { Meant meaning result (load_in (load_meant asked)) }
{
    refuse(!is_path(&asked.image), Failure::Usage)?;
    check_paths(&asked.program)?;
    refuse(is_long(&asked.image), limit(Check::PathLength))?;
    check_limits(&asked.program)?;
    Ok(Command::Load(asked))
}

// The words of `init`.
#[tactic(auto, unfolding(crate::specs::Words::init_words))]
fn init_words(alloc: Global, words: &Words) -> Result<Command, Failure>
    ensures { Meant meaning result (init_words_in words.now) }
{
    let texts = texts_of(alloc, words)?;
    let matches = parse(init_parser(alloc)?, &texts)?;
    let program = program_of(alloc, &matches)?;
    init_of(program)
}

// The initial calls of this program.
#[tactic(auto, unfolding(crate::specs::Words::init_of))]
fn init_of(program: ProgramWords) -> Result<Command, Failure>
    ensures { Meant meaning result (init_in (program_meant program)) }
{
    check_paths(&program)?;
    check_limits(&program)?;
    Ok(Command::Init(program))
}

// The words of `reach`.
#[tactic(auto, unfolding(crate::specs::Words::reach_words))]
fn reach_words(alloc: Global, words: &Words) -> Result<Command, Failure>
    ensures { Meant meaning result (reach_words_in words.now) }
{
    let texts = texts_of(alloc, words)?;
    let matches = parse(reach_parser(alloc)?, &texts)?;
    reach_of(
        alloc,
        value_of(&matches, "image"),
        value_of(&matches, "slot"),
    )
}

// What is reached from this slot of the image in this file.
#[tactic(auto, unfolding(crate::specs::Words::reach_of))]
fn reach_of(alloc: Global, image: &str, word: &str) -> Result<Command, Failure>
    ensures { Meant meaning result (reach_in image.now word.now) }
{
    refuse(!is_path(image), Failure::Usage)?;
    let slot = slot_of(word)?;
    refuse(is_long(image), limit(Check::PathLength))?;
    Ok(Command::Reach {
        image: String::from_str(alloc, image)?,
        slot,
    })
}

// The words of `audit`.
#[tactic(auto, unfolding(crate::specs::Words::audit_words))]
fn audit_words(alloc: Global, words: &Words) -> Result<Command, Failure>
    ensures { Meant meaning result (audit_words_in words.now) }
{
    let texts = texts_of(alloc, words)?;
    let matches = parse(audit_parser(alloc)?, &texts)?;
    let program = program_of(alloc, &matches)?;
    audit_of(alloc, value_of(&matches, "image"), program)
}

// `audit` of the image in this file, by this program.
#[tactic(auto, unfolding(crate::specs::Words::audit_of))]
fn audit_of(alloc: Global, image: &str, program: ProgramWords) -> Result<Command, Failure>
    ensures { Meant meaning result (audit_in image.now (program_meant program)) }
{
    refuse(!is_path(image), Failure::Usage)?;
    check_paths(&program)?;
    refuse(is_long(image), limit(Check::PathLength))?;
    check_limits(&program)?;
    Ok(Command::Audit {
        image: String::from_str(alloc, image)?,
        program,
    })
}

// The words as references.
fn texts_of<'w>(alloc: Global, words: &'w Words) -> Result<Vec<&'w str>, Failure>
    ensures ok { IfOk result (λ texts. map (λ text. text.now) texts.items ≡ words.now) }
    ensures err { IfErr result (λ failure. failure ≡ Failure.NoMemory) }
{
    let mut texts = Vec::new(alloc);
    for i in 0..words.len() {
        texts.push(words.get(i))?;
    }
    Ok(texts)
}

// What the words give to each argument.
fn parse<'a>(command: clap::Command<'a>, words: &'a [&'a str]) -> Result<ArgMatches<'a>, Failure>
    requires { is_simple_and_free (app_of command) ≡ true }
    ensures { Meant (λ matches. rows_of (found_of matches)) result
        (parsed (app_of command.entry) (map (λ text. text.now) words.entry.now)) }
{
    match command.try_get_matches_from(words) {
        Ok(matches) => Ok(matches),
        Err(error) => match error.kind() {
            ErrorKind::OutOfMemory => Err(Failure::NoMemory),
            _ => Err(Failure::Usage),
        },
    }
}

// `show IMAGE`
#[tactic(auto, unfolding(crate::specs::Words::show_app))]
fn show_parser<'a>(alloc: Global) -> Result<clap::Command<'a>, Failure>
    ensures ok { IfOk result (λ command. app_of command ≡ show_app) }
    ensures err { IfErr result (λ failure. failure ≡ Failure.NoMemory) }
{
    Ok(clap::Command::new(alloc, "show").arg(operand(alloc, "image"))?)
}

// `load -o IMAGE [-L DIR] [--first-found] MAIN [CALL...]`
#[tactic(auto, unfolding(crate::specs::Words::load_app))]
fn load_parser<'a>(alloc: Global) -> Result<clap::Command<'a>, Failure>
    ensures ok { IfOk result (λ command. app_of command ≡ load_app) }
    ensures err { IfErr result (λ failure. failure ≡ Failure.NoMemory) }
{
    let command = clap::Command::new(alloc, "load");
    let command = command.arg(required_option(alloc, "image", 'o'))?;
    with_program(alloc, command)
}

// `init [-L DIR] [--first-found] MAIN [CALL...]`
#[tactic(auto, unfolding(crate::specs::Words::init_app))]
fn init_parser<'a>(alloc: Global) -> Result<clap::Command<'a>, Failure>
    ensures ok { IfOk result (λ command. app_of command ≡ init_app) }
    ensures err { IfErr result (λ failure. failure ≡ Failure.NoMemory) }
{
    with_program(alloc, clap::Command::new(alloc, "init"))
}

// `reach IMAGE SLOT`
#[tactic(auto, unfolding(crate::specs::Words::reach_app))]
fn reach_parser<'a>(alloc: Global) -> Result<clap::Command<'a>, Failure>
    ensures ok { IfOk result (λ command. app_of command ≡ reach_app) }
    ensures err { IfErr result (λ failure. failure ≡ Failure.NoMemory) }
{
    let command = clap::Command::new(alloc, "reach");
    let command = command.arg(operand(alloc, "image"))?;
    Ok(command.arg(operand(alloc, "slot"))?)
}

// `audit IMAGE [-L DIR] [--first-found] MAIN [CALL...]`
#[tactic(auto, unfolding(crate::specs::Words::audit_app))]
fn audit_parser<'a>(alloc: Global) -> Result<clap::Command<'a>, Failure>
    ensures ok { IfOk result (λ command. app_of command ≡ audit_app) }
    ensures err { IfErr result (λ failure. failure ≡ Failure.NoMemory) }
{
    let command = clap::Command::new(alloc, "audit");
    let command = command.arg(operand(alloc, "image"))?;
    with_program(alloc, command)
}

fn operand<'a>(alloc: Global, id: &'a str) -> Arg<'a>
    ensures rule { rule_of_arg result ≡ operand_in id.entry.now }
    ensures local { result.global ≡ false }
{
    Arg::new(alloc, id).required(true)
}

fn required_option<'a>(alloc: Global, id: &'a str, letter: char) -> Arg<'a>
    ensures rule { rule_of_arg result ≡ required_option_in id.entry.now letter }
    ensures local { result.global ≡ false }
{
    Arg::new(alloc, id).short(letter).required(true)
}

// The one value of an argument; the empty text where it has none, which is no path.
fn value_of<'a>(matches: &ArgMatches<'a>, id: &str) -> &'a str
    ensures { result.now ≡ value_in (rows_of (found_of matches.now)) id.now }
{
    matches.get_str(id).unwrap_or("")
}

// Whether a word is a path.
fn is_path(word: &str) -> bool
    ensures { result ≡ is_path_text word.now }
{
    !word.is_empty() && is_plain(word.as_bytes())
}

// Whether a word is the name of a library.
fn is_name(word: &str) -> bool
    ensures { result ≡ is_name_text word.now }
{
    is_path(word) && !has_slash(word)
}

fn has_slash(word: &str) -> bool
    ensures { result ≡ has_slash_in word.now }
{
    word.as_bytes().iter().any(|byte| *byte == b'/')
}

// Whether a path or a name is too long.
fn is_long(word: &str) -> bool
    ensures { result ≡ is_long_text word.now }
{
    word.len() > LONGEST_PATH
}

fn refuse(fails: bool, failure: Failure) -> Result<(), Failure>
    ensures { result ≡ refuse_of fails failure }
{
    if fails { Err(failure) } else { Ok(()) }
}

// There is more of something than the program takes.
fn limit(check: Check) -> Failure
    ensures { result ≡ Failure.Limit (number_of check) }
{
    Failure::Limit {
        check: check.number(),
    }
}

impl From<AllocError> for Failure {
    ghost from_gives = { λ _ failure. failure ≡ NoMemory };

    fn from(_: AllocError) -> Failure {
        Failure::NoMemory
    }
}

impl From<NoMemory> for Failure {
    ghost use Rattle.purecap.specs.declared.faults.Failure.TheVariants as failures;

    ghost from_gives = { λ _ failure. failure ≡ failures.NoMemory };

    fn from(_: NoMemory) -> Failure {
        Failure::NoMemory
    }
}

impl<T: Drop> From<AllocFailed<T>> for Failure {
    ghost from_gives = { λ _ failure. failure ≡ NoMemory };

    fn from(_: AllocFailed<T>) -> Failure {
        Failure::NoMemory
    }
}
