//! Storing what is planned.

ghost use Rattle.std.specs.Prelude.{◌≡◌, [], length, All};
ghost use Rattle.cap_base.specs.Field.{number_bytes};
ghost use Rattle.cap_reloc.specs.Planned.{IsSlotIn, SlotsAreApart};
ghost use Rattle.cap_reloc.specs.Stored.{content_bytes, with_pairs};
ghost use Rattle.cap_reloc.specs.Stores.{with_pair, with_each};
ghost use Rattle.cap_reloc.specs.Wanted.{Untagged};

use crate::planned::{Held, Planned};
use byteorder::{ByteOrder, LittleEndian};
use cap_mem::Memory;

/// Stores what is planned. It takes no memory.
#[tactic(auto, using(crate::proofs::StoredPairs::stored_is))]
pub(crate) fn store_all(memory: &mut Memory, planned: Vec<Planned<'_>>)
    requires inside { All (IsSlotIn memory.old) planned.items }
    requires apart { SlotsAreApart planned.items }
    requires untagged { memory.old.words ≡ [] }
    ensures { memory.new ≡ with_pairs planned.entry.items memory.old }
{
    cap_mem::order_laws();
    store_each(memory, planned);
}

/// Stores one slot after the other.
#[tactic(auto, using(crate::proofs::StoredPairs::first_inside))]
fn store_each(memory: &mut Memory, planned: Vec<Planned<'_>>)
    requires { All (IsSlotIn memory.old) planned.items }
    ensures { memory.new ≡ with_each planned.entry.items memory.old }
{
    for p in planned {
        store_one(memory, p);
    }
}

fn store_one(memory: &mut Memory, planned: Planned<'_>)
    requires { IsSlotIn memory.old planned }
    ensures value { memory.new ≡ with_pair memory.old planned.entry }
    ensures base { memory.new.base ≡ memory.old.base }
    ensures len { length memory.new.bytes ≡ length memory.old.bytes }
{
    let Planned { slot, held } = planned;
    match held {
        Held::Number(n) => memory.store_bytes(slot, &bytes_of_number(n)),
        Held::Untagged(n) => memory.store_bytes(slot, &bytes_of_untagged(n)),
        Held::Tagged(cap, note) => memory.store_cap(slot, cap, note),
    }
}

fn bytes_of_number(n: u64) -> [u8; 8]
    ensures { result ≡ number_bytes 8 n }
{
    let mut bytes = [0; 8];
    LittleEndian::write_u64(&mut bytes, n);
    bytes
}

/// The number, and zeros in the place of a capability's metadata.
fn bytes_of_untagged(n: u64) -> [u8; 16]
    ensures { result ≡ content_bytes (Untagged n) }
{
    let mut bytes = [0; 16];
    bytes[..8].copy_from_slice(&bytes_of_number(n));
    bytes
}
