//! The word records of an image's objects.

ghost use Rattle.std.specs.Prelude.{◌≡◌, ◌+◌, ◌/◌, ◌%◌, ◌<◌, ◌≤◌, ◌^◌, [], All, IfOk, length};
ghost use Rattle.cap_base.specs.Steps.{Gives};
ghost use Rattle.cap_image.specs.Parts.{is_tagged_granule as is_tagged_granule_of};
ghost use Rattle.cap_image.specs.Records.{piece as piece_of, repeated, IsRecord};
ghost use Rattle.cap_image.specs.Words.{tag_count, no_words, add_word, words_at, words_of, AreListed, AreMarks, HaveBeenRead, IsNameInside};

use crate::header::{Version, reach};
use crate::records::{ObjectRecord, piece};
use crate::tags::{count_tags, has_tag};
use cap_base::{Check, Fault, NoMemory, Stop, is_plain, refuse, u16_in, u32_in, u64_in};
use std::alloc::Global;
use std::marker::Model;

/// A granule of 16 bytes holds a capability.
pub(crate) const GRANULE: u64 = 16;

/// A tagged word of an image of version 2.
#[derive(Clone, Copy, Debug, PartialEq, Eq)]
pub struct WordNote {
    /// The address of the granule that holds the word.
    pub granule: u64,
    /// The number of the object in which the word's definition stands.
    pub owner: u16,
}

/// What a word record says, and where the name of its symbol stands in the image.
#[derive(Clone, Copy)]
pub(crate) struct WordPlace {
    pub(crate) granule: u64,
    pub(crate) owner: u16,
    pub(crate) name_at: usize,
    pub(crate) name_len: u16,
}

/// The word records read so far, the owner of the last, and the place in the image behind it.
#[derive(Drop)]
pub(crate) struct WordList {
    pub(crate) items: Vec<WordPlace>,
    owner: u16,
    pub(crate) at: usize,
}

impl Model for WordList {
    ghost use Rattle.cap_image.specs.Words.{Words};

    ghost Value = { Words };

    ghost view = { λ l. record { items = l.items.items; owner = l.owner; at = l.at } };
}

impl WordList {
    ghost use Rattle.std.specs.Prelude.{OnOk};
    ghost use Rattle.cap_image.specs.Words.{with_word, is_next as is_next_of, word_at, IsWordPlace, IsBehind};

    fn new(alloc: Global, at: usize) -> WordList
        ensures { result ≡ no_words at }
    {
        WordList {
            items: Vec::new(alloc),
            owner: 0,
            at,
        }
    }

    /// Reads the next record, of the object of a record with these tags, in an image of so many objects.
    #[tactic(auto, unfolding(crate::specs::Words::add_word), using(crate::proofs::Listing::marks_more))]
    fn add(
        &mut self,
        bytes: &[u8],
        count: u32,
        of: &ObjectRecord,
        tags: &[u8],
        marks: &mut Vec<bool>,
    ) -> Result<(), Stop>
        requires of { IsRecord bytes.now of.now }
        requires tags { length tags.now ≡ of.now.size / 128 }
        requires marks { AreMarks of.now self.old.items marks.old.items }
        requires sound { AreListed bytes.now count of.now tags.now self.old }
        ensures value { Gives (λ _. self.new) result (add_word bytes.now count of.now tags.now self.old) }
        ensures marks { OnOk result (AreMarks of.now self.new.items marks.new.items) }
        ensures sound { OnOk result (AreListed bytes.now count of.now tags.now self.new) }
        ensures longer { OnOk result (length self.new.items ≡ length self.old.items + 1) }
    {
        let next = self.next(bytes, count, of, tags, marks)?;
        self.push(next)?;
        marks[((next.granule - of.base) / GRANULE) as usize] = true;
        Ok(())
    }

    fn push(&mut self, next: WordPlace) -> Result<(), NoMemory>
        requires { next.name_at + next.name_len < 2 ^ 64 }
        ensures { OnOk result (self.new ≡ with_word self.old next) }
    {
        self.items.push(next)?;
        self.owner = next.owner;
        self.at = next.name_at + usize::from(next.name_len);
        Ok(())
    }

    /// The next record.
    #[tactic(auto, unfolding(crate::specs::Words::word_at))]
    fn next(
        &self,
        bytes: &[u8],
        count: u32,
        of: &ObjectRecord,
        tags: &[u8],
        marks: &[bool],
    ) -> Result<WordPlace, Fault>
        requires of { IsRecord bytes.now of.now }
        requires tags { length tags.now ≡ of.now.size / 128 }
        requires marks { AreMarks of.now self.now.items marks.now }
        ensures value { result ≡ word_at bytes.now count of.now tags.now self.now }
        ensures sound { IfOk result (IsWordPlace bytes.now count of.now tags.now) }
        ensures behind { IfOk result (IsBehind self.now) }
    {
        reach(bytes, self.at, 12)?;
        let granule = u64_in(bytes, self.at);
        let owner = u16_in(bytes, self.at + 8);
        let name_len = u16_in(bytes, self.at + 10);
        let is_next = self.is_next(count, of, tags, marks, granule, owner);
        refuse(!is_next, Check::WordRecord, self.at as u64)?;
        refuse(name_len > 255, Check::WordName, self.at as u64 + 10)?;
        reach(bytes, self.at + 12, u64::from(name_len))?;
        let name_at = self.at + 12;
        let name = piece(bytes, name_at, usize::from(name_len));
        refuse(!is_plain(name), Check::WordName, self.at as u64 + 10)?;
        Ok(WordPlace {
            granule,
            owner,
            name_at,
            name_len,
        })
    }

    /// Whether the granule is tagged and not listed yet, and the owner an object that isn't below the one before.
    #[tactic(auto, using(crate::proofs::Listing::marked))]
    fn is_next(
        &self,
        count: u32,
        of: &ObjectRecord,
        tags: &[u8],
        marks: &[bool],
        granule: u64,
        owner: u16,
    ) -> bool
        requires pages { (of.now.base % 4096 ≡ 0) × (of.now.size % 4096 ≡ 0) }
        requires tags { length tags.now ≡ of.now.size / 128 }
        requires marks { AreMarks of.now self.now.items marks.now }
        ensures { result ≡ is_next_of count of.now tags.now self.now granule owner }
    {
        is_tagged_granule(of, tags, granule)
            && !marks[((granule - of.base) / GRANULE) as usize]
            && u32::from(owner) < count
            && self.owner <= owner
    }
}

/// Whether the granule is one of the object, and tagged.
fn is_tagged_granule(of: &ObjectRecord, tags: &[u8], granule: u64) -> bool
    requires pages { of.now.size % 4096 ≡ 0 }
    requires tags { length tags.now ≡ of.now.size / 128 }
    ensures { result ≡ is_tagged_granule_of of.now.base of.now.size tags.now granule }
{
    granule % GRANULE == 0
        && of.base <= granule
        && granule - of.base < of.size
        && has_tag(tags, granule - of.base)
}

/// The word records of an object, behind its tags, which stand at a place. Version 1 has none.
#[tactic(auto, unfolding(crate::specs::Words::words_of, crate::specs::Words::HaveBeenRead), using(crate::proofs::Listing::names_inside))]
pub(crate) fn read_words(
    alloc: Global,
    version: Version,
    bytes: &[u8],
    count: u32,
    of: &ObjectRecord,
    tags_at: usize,
) -> Result<WordList, Stop>
    requires of { IsRecord bytes.now of.now }
    requires tags { tags_at + of.now.size / 128 ≤ length bytes.now }
    ensures value { Gives (λ words. words) result (words_of version bytes.now count of.now (piece_of bytes.now tags_at (of.now.size / 128)) (tags_at + of.now.size / 128)) }
    ensures sound { IfOk result (λ words. HaveBeenRead version bytes.now count of.now (piece_of bytes.now tags_at (of.now.size / 128)) words.items) }
    ensures inside { IfOk result (λ words. All (IsNameInside bytes.now) words.items) }
    ensures few { IfOk result (λ words. length words.items < 2 ^ 32) }
{
    let size = (of.size / 128) as usize;
    let at = tags_at + size;
    match version {
        Version::One => Ok(WordList::new(alloc, at)),
        Version::Two => list_words(alloc, bytes, count, of, piece(bytes, tags_at, size), at),
    }
}

/// The word records at a place, as many as there are tags.
#[tactic(auto, unfolding(crate::specs::Words::words_at))]
fn list_words(
    alloc: Global,
    bytes: &[u8],
    count: u32,
    of: &ObjectRecord,
    tags: &[u8],
    at: usize,
) -> Result<WordList, Stop>
    requires of { IsRecord bytes.now of.now }
    requires tags { length tags.now ≡ of.now.size / 128 }
    ensures value { Gives (λ words. words) result (words_at bytes.now count of.now tags.now at) }
    ensures sound { IfOk result (AreListed bytes.now count of.now tags.now) }
    ensures as_many { IfOk result (λ words. length words.items ≡ tag_count tags.now) }
    ensures few { IfOk result (λ words. length words.items < 2 ^ 32) }
{
    reach(bytes, at, 4)?;
    let len = u32_in(bytes, at);
    refuse(
        len as usize != count_tags(tags),
        Check::WordRecord,
        at as u64,
    )?;
    list_some(alloc, bytes, count, of, tags, at + 4, len)
}

/// So many word records from a place on.
#[tactic(auto, using(crate::proofs::Repeated::repeated_more, crate::proofs::Repeated::repeated_stop, crate::proofs::Repeated::repeated_done))]
fn list_some(
    alloc: Global,
    bytes: &[u8],
    count: u32,
    of: &ObjectRecord,
    tags: &[u8],
    at: usize,
    len: u32,
) -> Result<WordList, Stop>
    requires of { IsRecord bytes.now of.now }
    requires tags { length tags.now ≡ of.now.size / 128 }
    ensures value { Gives (λ words. words) result (repeated (add_word bytes.now count of.now tags.now) len (no_words at)) }
    ensures sound { IfOk result (AreListed bytes.now count of.now tags.now) }
    ensures count { IfOk result (λ words. length words.items ≡ len) }
{
    let mut marks = no_marks(alloc, of)?;
    let mut words = WordList::new(alloc, at);
    for i in 0..len {
        words.add(bytes, count, of, tags, &mut marks)?;
    }
    Ok(words)
}

/// A mark for each granule of the object, none of them set.
#[tactic(auto, using(crate::proofs::Listing::none_marked))]
fn no_marks(alloc: Global, of: &ObjectRecord) -> Result<Vec<bool>, NoMemory>
    ensures { IfOk result (λ marks. AreMarks of.now [] marks.items) }
{
    Ok(vec![in alloc; false; (of.size / GRANULE) as usize]?)
}
