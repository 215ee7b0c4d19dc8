//! The words that the program is given.

ghost use Rattle.std.specs.Prelude.{◌≡◌, [], ◌∷◌, IsUtf8};

use cap_base::{NoMemory, Words};
use std::alloc::Global;
use std::env::{Env, FillError};
use std::str;

// It stands for a word that isn't UTF-8, and is in no form that a command has.
const NOT_UTF8: &str = "\u{7f}";

/// The words behind the program's own name, as the system tells them: no clause can say what they are.
pub(crate) fn given_words<R: Env + Alloc<A = Global>>(rt: &R) -> Result<Words, NoMemory> {
    let mut words = Words::new(rt.alloc());
    for i in 1..usize::MAX {
        let Some(word) = given_word(rt, i)? else {
            break;
        };
        words.push(text_of(&word))?;
    }
    Ok(words)
}

// The word of this number, in a buffer that grows until it fits.
fn given_word<R: Env + Alloc<A = Global>>(rt: &R, i: usize) -> Result<Option<Vec<u8>>, NoMemory> {
    let mut room = 256usize;
    for _ in 0..usize::BITS {
        let mut word = vec![in rt.alloc(); 0u8; room]?;
        match rt.arg(i, &mut word) {
            Ok(n) => {
                word.truncate(n);
                return Ok(Some(word));
            }
            Err(FillError::NotPresent) => return Ok(None),
            Err(FillError::TooLong) => room = room.saturating_add(room),
        }
    }
    Err(NoMemory)
}

// The text of a word: its bytes, or one character for a word that isn't UTF-8.
fn text_of(word: &[u8]) -> &str
    ensures text { IsUtf8 word.now → result.now ≡ word.now }
    ensures other { (IsUtf8 word.now → ⊥) → result.now ≡ 127 ∷ [] }
{
    match str::from_utf8(word) {
        Ok(text) => text,
        Err(_) => NOT_UTF8,
    }
}
