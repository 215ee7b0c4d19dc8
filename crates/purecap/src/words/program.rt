//! What words say of a program that is to be loaded.

ghost use Rattle.std.specs.Prelude.{◌≡◌, false, map, nat_lt, length, codes, IfOk, IfErr};
ghost use Rattle.std.specs.List.{list_any};
ghost use Rattle.std.specs.String.{string_bytes};
ghost use Rattle.clap.specs.Words.{app_of, found_of, rows_of, rule_of as rule_of_arg};
ghost use Rattle.cap_base.specs.Steps.{gather};
ghost use Rattle.purecap.specs.declared.faults.Failure.TheVariants.{NoMemory};
ghost use Rattle.purecap.specs.WordRules.{Meant, flag as flag_in, is_long as is_long_text, last_operands as last_operands_in, option_or as option_or_in, values_of as values_in};
ghost use Rattle.purecap.specs.ProgramWords.{call_meant, call_of as call_in, form_of as form_in, has_long_name as has_long_name_in, limits_checked, paths_checked, program_meant, program_of as program_in, rule_of as rule_in, with_program as with_program_in};

use super::{is_long, is_name, is_path, limit, operand, refuse, value_of};
use crate::faults::Failure;
use cap_base::Check;
use cap_scope::Rule;
use cap_session::Form;
use clap::{Arg, ArgAction, ArgMatches};
use std::alloc::Global;

const MOST_CALLS: usize = 64;

/// A program to load. Paths have 1 to 255 printable ASCII characters.
#[derive(Debug, Drop)]
pub struct ProgramWords {
    /// The path of the directory of the libraries.
    pub dir: String,
    /// Which of the definitions of a name is chosen.
    pub rule: Rule,
    /// The path of the program.
    pub main: String,
    /// The libraries to open after the start, 64 at most.
    pub calls: Vec<CallWord>,
}

/// A library to open: a name is a path without a slash.
#[derive(Debug, Drop)]
pub struct CallWord {
    pub form: Form,
    pub name: String,
}

// A command's own arguments, and behind them `[-L DIR] [--first-found] MAIN [CALL...]`
pub(super) fn with_program<'a>(
    alloc: Global,
    command: clap::Command<'a>,
) -> Result<clap::Command<'a>, Failure>
    ensures ok { IfOk result (λ given. app_of given ≡ with_program_in (app_of command.entry)) }
    ensures err { IfErr result (λ failure. failure ≡ Failure.NoMemory) }
{
    let command = command.arg(option_or(alloc, "dir", 'L', "."))?;
    let command = command.arg(flag(alloc, "first-found"))?;
    let command = command.arg(operand(alloc, "main"))?;
    Ok(command.arg(last_operands(alloc, "call"))?)
}

fn last_operands<'a>(alloc: Global, id: &'a str) -> Arg<'a>
    ensures rule { rule_of_arg result ≡ last_operands_in id.entry.now }
    ensures local { result.global ≡ false }
{
    Arg::new(alloc, id).num_args(1..)
}

fn option_or<'a>(alloc: Global, id: &'a str, letter: char, value: &'a str) -> Arg<'a>
    ensures rule { rule_of_arg result ≡ option_or_in id.entry.now letter value.entry.now }
    ensures local { result.global ≡ false }
{
    Arg::new(alloc, id).short(letter).default_value(value)
}

fn flag<'a>(alloc: Global, id: &'a str) -> Arg<'a>
    ensures rule { rule_of_arg result ≡ flag_in id.entry.now }
    ensures local { result.global ≡ false }
{
    Arg::new(alloc, id).long(id).action(ArgAction::SetTrue)
}

// What the arguments say of the program.
#[tactic(auto, unfolding(crate::specs::ProgramWords::program_of))]
pub(super) fn program_of(alloc: Global, matches: &ArgMatches<'_>) -> Result<ProgramWords, Failure>
    ensures { Meant program_meant result (program_in (rows_of (found_of matches.now))) }
{
    let calls = calls_of(alloc, matches)?;
    Ok(ProgramWords {
        dir: String::from_str(alloc, value_of(matches, "dir"))?,
        rule: rule_of(matches),
        main: String::from_str(alloc, value_of(matches, "main"))?,
        calls,
    })
}

// Its paths are paths.
#[tactic(auto, unfolding(crate::specs::ProgramWords::paths_checked))]
pub(super) fn check_paths(asked: &ProgramWords) -> Result<(), Failure>
    ensures { result ≡ paths_checked (program_meant asked.now) }
{
    refuse(!is_path(&asked.dir), Failure::Usage)?;
    refuse(!is_path(&asked.main), Failure::Usage)
}

// No path and no name is too long, and there are not too many calls.
#[tactic(auto, using(crate::proofs::Parsing::long_names), unfolding(crate::specs::ProgramWords::limits_checked))]
pub(super) fn check_limits(asked: &ProgramWords) -> Result<(), Failure>
    ensures { result ≡ limits_checked (program_meant asked.now) }
{
    refuse(is_long(&asked.dir), limit(Check::PathLength))?;
    refuse(is_long(&asked.main), limit(Check::PathLength))?;
    refuse(has_long_name(&asked.calls), limit(Check::PathLength))?;
    refuse(are_too_many(&asked.calls), limit(Check::CallCount))
}

// Whether the name of a call is too long.
fn has_long_name(calls: &[CallWord]) -> bool
    ensures { result ≡ list_any (λ call. is_long_text (string_bytes call.name)) calls.now }
{
    calls.iter().any(|call| is_long(&call.name))
}

fn are_too_many(calls: &[CallWord]) -> bool
    ensures { result ≡ nat_lt 64 (length (map call_meant calls.now)) }
{
    calls.len() > MOST_CALLS
}

// The rule by which definitions are chosen.
fn rule_of(matches: &ArgMatches<'_>) -> Rule
    ensures { result ≡ rule_in (rows_of (found_of matches.now)) }
{
    if value_of(matches, "first-found") == "true" {
        Rule::First
    } else {
        Rule::NonWeak
    }
}

// The calls that are asked for.
fn calls_of(alloc: Global, matches: &ArgMatches<'_>) -> Result<Vec<CallWord>, Failure>
    ensures { Meant (λ calls. map call_meant calls.items) result
        (gather call_in (values_in (rows_of (found_of matches.now)) (codes "call"))) }
{
    match matches.get_strs("call") {
        Some(words) => read_calls(alloc, words),
        None => Ok(Vec::new(alloc)),
    }
}

// The calls that these words are.
fn read_calls(alloc: Global, words: &[&str]) -> Result<Vec<CallWord>, Failure>
    ensures { Meant (λ calls. map call_meant calls.items) result (gather call_in (map (λ word. word.now) words.now)) }
{
    let mut calls = Vec::new(alloc);
    for word in words {
        let call = call_of(alloc, word)?;
        calls.push(call)?;
    }
    Ok(calls)
}

// The call that a word is.
#[tactic(auto, unfolding(crate::specs::ProgramWords::call_of))]
fn call_of(alloc: Global, word: &str) -> Result<CallWord, Failure>
    ensures { Meant call_meant result (call_in word.now) }
{
    let (form, name) = word.split_once(':').unwrap_or((word, ""));
    let form = form_of(form)?;
    refuse(!is_name(name), Failure::Usage)?;
    Ok(CallWord {
        form,
        name: String::from_str(alloc, name)?,
    })
}

// The form of a call, by what stands before the colon.
fn form_of(word: &str) -> Result<Form, Failure>
    ensures { result ≡ form_in word.now }
{
    if word == "open" {
        return Ok(Form::Open);
    }
    if word == "global" {
        return Ok(Form::Global);
    }
    if word == "try" {
        return Ok(Form::Try);
    }
    Err(Failure::Usage)
}
