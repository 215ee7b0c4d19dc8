//! The calls of the arrays of loaded objects.

ghost use Rattle.std.specs.Prelude.{◌≡◌, ◌%◌, ◌<◌, ◌++◌, length, map, All, IfOk, OnOk};
ghost use Rattle.cap_init.specs.Calls.{calls_in, calls_of, found_call};
ghost use Rattle.cap_mem.specs.IsMemory.{IsMemory};
ghost use Rattle.cap_mem.specs.Tagged.{IsInside, tagged_word};

use crate::call::{Call, Calls};
use cap_base::NoMemory;
use cap_conc::decode;
use cap_mem::Memory;
use cap_scope::Object;
use std::alloc::Global;

/// The object type of a sentry, the last but one of 18 bits.
const SENTRY: u32 = 262142;

/// Appends the call of a granule, where it holds a sentry.
#[tactic(auto, using(crate::proofs::Found::found_none, crate::proofs::Found::found_sentry, crate::proofs::Found::found_other))]
fn push_call(calls: &mut Vec<Call>, memory: &Memory, slot: u64, object: u32) -> Result<(), NoMemory>
    requires sound { IsMemory memory.now }
    requires aligned { slot % 16 ≡ 0 }
    requires inside { IsInside memory.now slot 16 }
    ensures { OnOk result (calls.new.items ≡ calls.old.items ++ found_call object (tagged_word memory.now slot)) }
{
    let (word, is_tagged) = memory.word_at(slot);
    if !is_tagged {
        return Ok(());
    }
    let fields = decode(word);
    if fields.otype != SENTRY {
        return Ok(());
    }
    calls.push(Call {
        slot,
        cursor: fields.cursor,
        object,
    })?;
    Ok(())
}

/// Appends the calls of the object of this number.
fn push_calls(
    calls: &mut Vec<Call>,
    object: &Object,
    memory: &Memory,
    number: u32,
) -> Result<(), NoMemory>
    requires { length memory.now.bytes ≡ object.now.records.span }
    ensures { OnOk result (calls.new.items ≡ calls.old.items ++ calls_in number object.now.records memory.now) }
{
    let arrays = object.file().arrays();
    prove!(arrays.init_at + arrays.init_size <= memory.len());
    let first = memory.base() + arrays.init_at;
    for k in 0..arrays.init_size / 16 {
        push_call(calls, memory, first + 16 * k, number)?;
    }
    Ok(())
}

/// The initial calls of objects, in this order of the objects: of each object the granules of its array of initial
/// calls, in ascending order, that are tagged and hold a sealed capability, which is a sentry. Others are passed over.
pub fn calls(
    alloc: Global,
    objects: &[Object],
    memories: &[Memory],
    order: &[u32],
) -> Result<Calls, NoMemory>
    // There is a memory for each object, of its span.
    requires spans { map (λ m. length m.bytes) memories.now ≡ map (λ o. o.records.span) objects.now }
    requires numbers { All (λ i. i < length objects.now) order.now }
    ensures { IfOk result (λ calls. calls ≡ calls_of (map (λ o. o.records) objects.now) memories.now order.now) }
{
    let mut calls = Vec::new(alloc);
    for i in order {
        let place = *i as usize;
        push_calls(&mut calls, &objects[place], &memories[place], *i)?;
    }
    Ok(Calls { calls })
}
