//! What the words of `link` ask for.

ghost use Rattle.std.specs.Prelude.{◌≡◌, map, false, IfOk, IfErr, Ok, codes, nat_lt, length, option_map};
ghost use Rattle.std.specs.List.{list_any};
ghost use Rattle.std.specs.Option.{option_map_or};
ghost use Rattle.std.specs.String.{string_bytes};
ghost use Rattle.clap.specs.Words.{app_of, first_of, found_of, rows_of, rule_of as rule_of_arg};
ghost use Rattle.purecap.specs.declared.faults.Failure.TheVariants.{NoMemory};
ghost use Rattle.purecap.specs.WordRules.{Meant, is_long as is_long_text, values_of as values_in};
ghost use Rattle.purecap.specs.LinkWords.{is_no_name, is_no_path, link_app, link_meant, link_of as link_in, link_words as link_words_in, long_option as long_option_in, required_operands as required_operands_in};

use super::{is_long, is_name, is_path, limit, parse, refuse, required_option, texts_of, value_of};
use crate::faults::Failure;
use cap_base::{Check, Words};
use clap::{Arg, ArgMatches};
use std::alloc::Global;

const MOST_INPUTS: usize = 256;

/// What `link` is asked for. Paths and the name have 1 to 255 printable ASCII characters.
#[derive(Debug, Drop)]
pub struct LinkWords {
    /// The path of the file to write.
    pub output: String,
    /// The name of a shared object (DT_SONAME), without a slash; a program has none.
    pub soname: Option<String>,
    /// The paths of the files to link, 1 to 256.
    pub inputs: Vec<String>,
}

// The words of `link`.
#[tactic(auto, unfolding(crate::specs::LinkWords::link_words))]
pub(super) fn link_words(alloc: Global, words: &Words) -> Result<LinkWords, Failure>
    ensures { Meant link_meant result (link_words_in words.now) }
{
    let texts = texts_of(alloc, words)?;
    let matches = parse(link_parser(alloc)?, &texts)?;
    let soname = soname_of(alloc, &matches)?;
    let inputs = inputs_of(alloc, &matches)?;
    link_of(LinkWords {
        output: String::from_str(alloc, value_of(&matches, "output"))?,
        soname,
        inputs,
    })
}

// `link` of files that was asked for in this form.
#[tactic(auto, unfolding(crate::specs::LinkWords::link_of))]
fn link_of(asked: LinkWords) -> Result<LinkWords, Failure>
    ensures { Meant link_meant result (link_in (link_meant asked)) }
{
    refuse(!is_path(&asked.output), Failure::Usage)?;
    refuse(has_bad_path(&asked.inputs), Failure::Usage)?;
    refuse(has_bad_name(&asked), Failure::Usage)?;
    refuse(is_long(&asked.output), limit(Check::PathLength))?;
    refuse(has_long_path(&asked.inputs), limit(Check::PathLength))?;
    refuse(has_long_name(&asked), limit(Check::PathLength))?;
    refuse(are_too_many(&asked.inputs), limit(Check::CallCount))?;
    Ok(asked)
}

// Whether the word of an input is no path.
fn has_bad_path(inputs: &[String]) -> bool
    ensures { result ≡ list_any is_no_path (map string_bytes inputs.now) }
{
    is_any_bad(inputs)
}

// The same, by the texts as they are given.
fn is_any_bad(inputs: &[String]) -> bool
    ensures { result ≡ list_any (λ input. is_no_path (string_bytes input)) inputs.now }
{
    inputs.iter().any(|input| !is_path(input))
}

// Whether the word of an input is too long.
fn has_long_path(inputs: &[String]) -> bool
    ensures { result ≡ list_any is_long_text (map string_bytes inputs.now) }
{
    is_any_long(inputs)
}

// The same, by the texts as they are given.
fn is_any_long(inputs: &[String]) -> bool
    ensures { result ≡ list_any (λ input. is_long_text (string_bytes input)) inputs.now }
{
    inputs.iter().any(|input| is_long(input))
}

// Whether there is a name, and it is none of a library.
fn has_bad_name(asked: &LinkWords) -> bool
    ensures { result ≡ option_map_or is_no_name (option_map string_bytes asked.now.soname) false }
{
    match &asked.soname {
        Some(name) => !is_name(name),
        None => false,
    }
}

// Whether there is a name, and it is too long.
fn has_long_name(asked: &LinkWords) -> bool
    ensures { result ≡ option_map_or is_long_text (option_map string_bytes asked.now.soname) false }
{
    match &asked.soname {
        Some(name) => is_long(name),
        None => false,
    }
}

fn are_too_many(inputs: &[String]) -> bool
    ensures { result ≡ nat_lt 256 (length (map string_bytes inputs.now)) }
{
    inputs.len() > MOST_INPUTS
}

// `link -o OUT [--shared SONAME] FILE...`
#[tactic(auto, unfolding(crate::specs::LinkWords::link_app))]
fn link_parser<'a>(alloc: Global) -> Result<clap::Command<'a>, Failure>
    ensures ok { IfOk result (λ command. app_of command ≡ link_app) }
    ensures err { IfErr result (λ failure. failure ≡ Failure.NoMemory) }
{
    let command = clap::Command::new(alloc, "link");
    let command = command.arg(required_option(alloc, "output", 'o'))?;
    let command = command.arg(long_option(alloc, "shared"))?;
    Ok(command.arg(required_operands(alloc, "file"))?)
}

fn long_option<'a>(alloc: Global, id: &'a str) -> Arg<'a>
    ensures rule { rule_of_arg result ≡ long_option_in id.entry.now }
    ensures local { result.global ≡ false }
{
    Arg::new(alloc, id).long(id)
}

fn required_operands<'a>(alloc: Global, id: &'a str) -> Arg<'a>
    ensures rule { rule_of_arg result ≡ required_operands_in id.entry.now }
    ensures local { result.global ≡ false }
{
    Arg::new(alloc, id).num_args(1..).required(true)
}

// The name of a shared object, where there is one.
fn soname_of(alloc: Global, matches: &ArgMatches<'_>) -> Result<Option<String>, Failure>
    ensures { Meant (option_map string_bytes) result (Ok (first_of (codes "shared") (rows_of (found_of matches.now)))) }
{
    match matches.get_str("shared") {
        Some(word) => {
            let name = String::from_str(alloc, word)?;
            Ok(Some(name))
        }
        None => Ok(None),
    }
}

// The files to link.
fn inputs_of(alloc: Global, matches: &ArgMatches<'_>) -> Result<Vec<String>, Failure>
    ensures { Meant (λ inputs. map string_bytes inputs.items) result (Ok (values_in (rows_of (found_of matches.now)) (codes "file"))) }
{
    match matches.get_strs("file") {
        Some(words) => owned(alloc, words),
        None => Ok(Vec::new(alloc)),
    }
}

// Copies of these words.
pub(crate) fn owned(alloc: Global, words: &[&str]) -> Result<Vec<String>, Failure>
    ensures { Meant (λ inputs. map string_bytes inputs.items) result (Ok (map (λ word. word.now) words.now)) }
{
    let mut inputs = Vec::new(alloc);
    for word in words {
        inputs.push(String::from_str(alloc, word)?)?;
    }
    Ok(inputs)
}
