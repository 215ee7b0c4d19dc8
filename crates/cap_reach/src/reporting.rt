//! The report of what is reached.

ghost use Rattle.std.specs.Prelude.{◌≡◌, ◌++◌, IfOk, OnOk};
ghost use Rattle.cap_reach.specs.Ending.{AreTagged};
ghost use Rattle.cap_reach.specs.Report.{reach_report, reached_line};

use crate::slots::Slots;
use cap_base::NoMemory;
use cap_image::{Image, count_tagged, push_decimal, push_word_lines};
use std::alloc::Global;

/// Appends the last line: how many words are reached, of how many tagged words.
fn push_reached(text: &mut Vec<u8>, reached: usize, words: usize) -> Result<(), NoMemory>
    ensures { OnOk result (text.new.items ≡ text.old.items ++ reached_line reached words) }
{
    text.extend_from_slice(b"reached ")?;
    push_decimal(text, reached as u64)?;
    text.extend_from_slice(b" of ")?;
    push_decimal(text, words as u64)?;
    text.extend_from_slice(b"\n")?;
    Ok(())
}

/// The line of each of these tagged words, as the image's report has it, and a last line with how many they are, of how
/// many tagged words in the image.
#[tactic(auto, unfolding(crate::specs::Report::reach_report))]
pub fn report(alloc: Global, image: &Image, slots: &Slots) -> Result<Vec<u8>, NoMemory>
    requires { AreTagged image.now slots.now }
    ensures { IfOk result (λ text. text.items ≡ reach_report image.now slots.now) }
{
    let mut text = Vec::new(alloc);
    push_word_lines(alloc, &mut text, image, slots.as_slice())?;
    push_reached(&mut text, slots.len(), count_tagged(image))?;
    Ok(text)
}
