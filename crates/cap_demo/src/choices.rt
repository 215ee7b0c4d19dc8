//! What the numbers choose for an object.

ghost use Rattle.std.specs.Prelude.{◌≡◌, ◌<◌, IfOk, OnOk};
ghost use Rattle.cap_demo.specs.Choices.{size_of, known_objects as known_of, data_target, function_target, sizes_of, targets_of};
ghost use Rattle.cap_demo.specs.Numbers.{after};

use crate::names::SymbolName;
use crate::numbers::Numbers;
use cap_base::NoMemory;
use std::alloc::Global;

/// How many data an object has.
const DATA_COUNT: u32 = 64;
/// No datum is larger.
const LARGEST_SIZE: u32 = 9000;
/// How many objects there are, and how many of them know one another alone.
const OBJECT_COUNT: u32 = 8;

const FIRST_OBJECTS: u32 = 6;

#[tactic(auto, unfolding(crate::specs::Choices::size_of))]
fn size(value: u32) -> u64
    ensures value { result ≡ size_of value }
{
    u64::from(1 + value % LARGEST_SIZE)
}

/// How many objects a target of an object may be of.
#[tactic(auto, unfolding(crate::specs::Choices::known_objects))]
fn known_objects(number: u32) -> u32
    ensures value { result ≡ known_of number }
    ensures some { 0 < result }
{
    if number < FIRST_OBJECTS {
        FIRST_OBJECTS
    } else {
        OBJECT_COUNT
    }
}

#[tactic(auto, unfolding(crate::specs::Choices::data_target))]
fn datum(number: u32, value: u32) -> SymbolName
    ensures { result ≡ data_target number value }
{
    SymbolName::Datum(
        value % known_objects(number),
        value / OBJECT_COUNT % DATA_COUNT,
    )
}

#[tactic(auto, unfolding(crate::specs::Choices::function_target))]
fn function(number: u32, value: u32) -> SymbolName
    ensures { result ≡ function_target number value }
{
    SymbolName::Function(value % known_objects(number))
}

/// Draws the sizes of the data of an object.
#[tactic(auto, unfolding(crate::specs::Choices::sizes_of))]
pub(crate) fn draw_sizes(alloc: Global, numbers: &mut Numbers) -> Result<Vec<u64>, NoMemory>
    ensures sizes { IfOk result (λ sizes. sizes.items ≡ sizes_of numbers.old) }
    ensures state { OnOk result (numbers.new ≡ after 64 numbers.old) }
{
    let values = numbers.draw_all(alloc, DATA_COUNT)?;
    let mut sizes = Vec::with_capacity(alloc, values.len())?;
    for value in &values {
        sizes.push(size(*value))?;
    }
    Ok(sizes)
}

/// Draws the targets of the capabilities of an object.
#[tactic(auto, unfolding(crate::specs::Choices::targets_of), using(crate::proofs::Drawing::targets_state))]
pub(crate) fn draw_targets(
    alloc: Global,
    numbers: &mut Numbers,
    number: u32,
) -> Result<Vec<SymbolName>, NoMemory>
    ensures targets { IfOk result (λ targets. targets.items ≡ targets_of numbers.old number) }
    ensures state { OnOk result (numbers.new ≡ after 65 numbers.old) }
{
    let values = numbers.draw_all(alloc, DATA_COUNT)?;
    let mut targets = Vec::with_capacity(alloc, values.len() + 1)?;
    for value in &values {
        targets.push(datum(number, *value))?;
    }
    targets.push(function(number, numbers.draw()))?;
    Ok(targets)
}
