//! What the words of `demo` ask for.

ghost use Rattle.std.specs.Prelude.{◌≡◌, ◌<◌, ◌^◌, true, IfOk, IfErr};
ghost use Rattle.std.specs.Char.{is_ascii_digit};
ghost use Rattle.std.specs.List.{list_all};
ghost use Rattle.clap.specs.Words.{app_of};
ghost use Rattle.purecap.specs.declared.faults.Failure.TheVariants.{NoMemory};
ghost use Rattle.purecap.specs.WordRules.{Meant};
ghost use Rattle.purecap.specs.DemoWords.{demo_app, demo_words, has_leading_zero as has_leading_zero_in, is_numeral as is_numeral_in, number_of as number_of_text};

use super::{operand, parse, texts_of, value_of};
use crate::faults::Failure;
use cap_base::Words;
use std::alloc::Global;

// The number of `demo`.
#[tactic(auto, unfolding(crate::specs::DemoWords::demo_words))]
pub(super) fn demo_number(alloc: Global, words: &Words) -> Result<u32, Failure>
    ensures { Meant (λ number. number) result (demo_words words.now) }
{
    let texts = texts_of(alloc, words)?;
    let matches = parse(demo_parser(alloc)?, &texts)?;
    number_of(value_of(&matches, "number"))
}

// `demo NUMBER`
#[tactic(auto, unfolding(crate::specs::DemoWords::demo_app))]
fn demo_parser<'a>(alloc: Global) -> Result<clap::Command<'a>, Failure>
    ensures ok { IfOk result (λ command. app_of command ≡ demo_app) }
    ensures err { IfErr result (λ failure. failure ≡ Failure.NoMemory) }
{
    Ok(clap::Command::new(alloc, "demo").arg(operand(alloc, "number"))?)
}

// The number that a word is.
#[tactic(auto, using(crate::proofs::DemoAccepted::no_numeral))]
fn number_of(word: &str) -> Result<u32, Failure>
    ensures { Meant (λ number. number) result (number_of_text word.now) }
{
    if !is_numeral(word) {
        return Err(Failure::Usage);
    }
    numeral(word)
}

// The number that decimal digits write.
#[tactic(auto, using(crate::proofs::DemoAccepted::numeral_read, crate::proofs::DemoAccepted::numeral_large))]
fn numeral(word: &str) -> Result<u32, Failure>
    requires { is_numeral_in word.now ≡ true }
    ensures { Meant (λ number. number) result (number_of_text word.now) }
{
    match word.parse::<u32>() {
        Ok(number) => Ok(number),
        Err(_) => Err(Failure::Usage),
    }
}

// Whether a word has decimal digits alone, without a leading zero.
#[tactic(auto, unfolding(crate::specs::DemoWords::is_numeral))]
fn is_numeral(word: &str) -> bool
    ensures { result ≡ is_numeral_in word.now }
{
    !word.is_empty() && has_digits_alone(word) && !has_leading_zero(word)
}

fn has_digits_alone(word: &str) -> bool
    ensures { result ≡ list_all is_ascii_digit word.now }
{
    word.as_bytes().iter().all(|byte| byte.is_ascii_digit())
}

// Whether other digits stand behind a zero.
fn has_leading_zero(word: &str) -> bool
    ensures { result ≡ has_leading_zero_in word.now }
{
    word.len() > 1 && word.as_bytes()[0] == b'0'
}
