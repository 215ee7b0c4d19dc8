//! The objects.

ghost use Rattle.std.specs.Prelude.{◌≡◌, ◌+◌, ◌<◌, ◌≤◌, ◌^◌, length, IfOk, OnOk, OnErr};
ghost use Rattle.cap_demo.specs.Choices.{AreSizes};
ghost use Rattle.cap_demo.specs.Objects.{aligned, no_sections, with_section, filled, body_of, file_of, object_of, demo_object, state_after};

use crate::choices::{draw_sizes, draw_targets};
use crate::names::SymbolName;
use crate::numbers::Numbers;
use crate::records::{Section, push_file_header, push_section};
use crate::sections::{
    NamedSymbols, capabilities, code_bytes, code_section, data_bytes, data_section, name_section,
    named_symbols, rela_section, symbol_section,
};
use crate::symbols::{Symbol, symbols};
use cap_base::NoMemory;
use std::alloc::Global;
use std::marker::Model;

/// How many bytes the header of the file and that of a section have.
const HEADER_SIZE: usize = 64;
/// How many sections there are, the null section too.
const SECTION_COUNT: usize = 6;
/// Where a section may begin: at multiples of this.
const SECTION_ALIGN: usize = 16;

/// What the sections hold, and their headers.
#[derive(Debug, Drop)]
struct Body {
    contents: Vec<u8>,
    headers: Vec<u8>,
}

impl Model for Body {
    ghost use Rattle.cap_demo.specs.Objects.{Body as BodyValue};

    ghost Value = { BodyValue };

    ghost view = { λ b. record { contents = b.contents.items; headers = b.headers.items } };
}

/// Appends zeros up to a multiple of 16.
#[tactic(auto, unfolding(crate::specs::Objects::aligned, crate::specs::Records::zeros))]
fn align(bytes: &mut Vec<u8>) -> Result<(), NoMemory>
    ensures value { OnOk result (bytes.new.items ≡ aligned bytes.old.items) }
    ensures short { OnOk result (length bytes.new.items < length bytes.old.items + 16) }
{
    let end = bytes.len().next_multiple_of(SECTION_ALIGN);
    bytes.resize(end, 0)?;
    Ok(())
}

impl Body {
    /// The header of section 0. There is room for contents of such a size.
    #[tactic(auto, unfolding(crate::specs::Objects::no_sections, crate::specs::Records::zeros))]
    fn new(alloc: Global, size: usize) -> Result<Body, NoMemory>
        ensures value { IfOk result (λ body. body ≡ no_sections) }
        ensures contents { IfOk result (λ body. length body.contents ≡ 0) }
        ensures headers { IfOk result (λ body. length body.headers ≡ 64) }
    {
        let contents = Vec::with_capacity(alloc, size)?;
        let mut headers = Vec::with_capacity(alloc, SECTION_COUNT * HEADER_SIZE)?;
        headers.resize(HEADER_SIZE, 0)?;
        Ok(Body { contents, headers })
    }

    /// Appends a section with its bytes.
    #[tactic(auto, unfolding(crate::specs::Objects::with_section), using(crate::proofs::Lengths::length_section))]
    fn push(&mut self, section: Section, bytes: &[u8]) -> Result<(), NoMemory>
        ensures value { OnOk result (self.new ≡ with_section self.old section bytes.now) }
        ensures contents { OnOk result (length self.new.contents < length self.old.contents + 16 + length bytes.now) }
        ensures headers { OnOk result (length self.new.headers ≡ length self.old.headers + 64) }
    {
        align(&mut self.contents)?;
        let offset = HEADER_SIZE + self.contents.len();
        push_section(
            &mut self.headers,
            section,
            offset as u64,
            bytes.len() as u64,
        )?;
        self.contents.extend_from_slice(bytes)?;
        Ok(())
    }
}

/// The sections: code, data of these bytes, relocations, symbols and names.
#[tactic(auto, unfolding(crate::specs::Objects::filled), using(crate::proofs::Lengths::length_code))]
fn fill(alloc: Global, bytes: &[u8], relas: &[u8], named: &NamedSymbols) -> Result<Body, NoMemory>
    requires bytes { length bytes.now < 2 ^ 20 }
    requires relas { length relas.now < 2 ^ 20 }
    requires table { length named.now.table < 2 ^ 20 }
    requires names { length named.now.names < 2 ^ 20 }
    ensures value { IfOk result (λ body. body ≡ filled bytes.now relas.now named.now) }
    ensures contents { IfOk result (λ body. length body.contents < 100 + length bytes.now + length relas.now + length named.now.table + length named.now.names) }
    ensures headers { IfOk result (λ body. length body.headers ≡ 384) }
{
    let code = code_bytes(alloc)?;
    let size = code.len() + bytes.len() + relas.len() + named.table.len() + named.names.len();
    let mut body = Body::new(alloc, size + SECTION_COUNT * SECTION_ALIGN)?;
    body.push(code_section(), &code)?;
    body.push(data_section(), bytes)?;
    body.push(rela_section(), relas)?;
    body.push(symbol_section(), &named.table)?;
    body.push(name_section(), &named.names)?;
    Ok(body)
}

/// What the sections of an object hold, and their headers.
#[tactic(auto, unfolding(crate::specs::Objects::body_of))]
fn sections(
    alloc: Global,
    sizes: &[u64],
    symbols: &[Symbol],
    targets: &[SymbolName],
) -> Result<Body, NoMemory>
    requires sizes { AreSizes sizes.now }
    requires symbols { length symbols.now ≤ 256 }
    requires targets { length targets.now ≤ 256 }
    ensures value { IfOk result (λ body. body ≡ body_of sizes.now symbols.now targets.now) }
    ensures contents { IfOk result (λ body. length body.contents < 2 ^ 20) }
    ensures headers { IfOk result (λ body. length body.headers ≡ 384) }
{
    let bytes = data_bytes(alloc, sizes)?;
    let relas = capabilities(alloc, symbols, targets)?;
    let named = named_symbols(alloc, symbols)?;
    fill(alloc, &bytes, &relas, &named)
}

/// The file of what its sections hold.
#[tactic(auto, unfolding(crate::specs::Objects::file_of), using(crate::proofs::Lengths::length_header))]
fn file(alloc: Global, mut body: Body) -> Result<Vec<u8>, NoMemory>
    requires contents { length body.contents < 2 ^ 20 }
    requires headers { length body.headers ≡ 384 }
    ensures value { IfOk result (λ file. file.items ≡ file_of body) }
    ensures short { IfOk result (λ file. length file.items < 2 ^ 26) }
{
    align(&mut body.contents)?;
    let sections_at = HEADER_SIZE + body.contents.len();
    let mut file = Vec::with_capacity(alloc, sections_at + body.headers.len())?;
    push_file_header(&mut file, sections_at as u64)?;
    file.extend_from_slice(&body.contents)?;
    file.extend_from_slice(&body.headers)?;
    Ok(file)
}

/// An object of such sizes and targets.
#[tactic(auto, unfolding(crate::specs::Objects::object_of))]
fn made(
    alloc: Global,
    number: u32,
    sizes: &[u64],
    targets: &[SymbolName],
) -> Result<Vec<u8>, NoMemory>
    requires sizes { AreSizes sizes.now }
    requires targets { length targets.now ≡ 65 }
    ensures value { IfOk result (λ file. file.items ≡ object_of number sizes.now targets.now) }
    ensures short { IfOk result (λ file. length file.items < 2 ^ 26) }
{
    let symbols = symbols(alloc, number, sizes, targets)?;
    let body = sections(alloc, sizes, &symbols, targets)?;
    file(alloc, body)
}

/// Draws an object of a number.
#[tactic(auto, unfolding(crate::specs::Objects::demo_object, crate::specs::Objects::state_after), using(crate::proofs::Sizes::sizes_small, crate::proofs::Sizes::targets_count, crate::proofs::Drawing::object_state))]
fn draw_object(alloc: Global, numbers: &mut Numbers, number: u32) -> Result<Vec<u8>, NoMemory>
    ensures bytes { IfOk result (λ file. file.items ≡ demo_object numbers.old number) }
    ensures short { IfOk result (λ file. length file.items < 2 ^ 26) }
    ensures state { OnOk result (numbers.new ≡ state_after numbers.old) }
{
    let sizes = draw_sizes(alloc, numbers)?;
    let targets = draw_targets(alloc, numbers, number)?;
    made(alloc, number, &sizes, &targets)
}

/// Makes the object of a number from the next numbers of a generator: its bytes, which are fewer than 2^26.
///
/// Without memory there is no object, and the generator stays as it was.
pub fn object(alloc: Global, numbers: &mut Numbers, number: u32) -> Result<Vec<u8>, NoMemory>
    ensures bytes { IfOk result (λ file. file.items ≡ demo_object numbers.old number) }
    ensures short { IfOk result (λ file. length file.items < 2 ^ 26) }
    ensures state { OnOk result (numbers.new ≡ state_after numbers.old) }
    ensures kept { OnErr result (numbers.new ≡ numbers.old) }
{
    let mut drawing = numbers.copy();
    let file = draw_object(alloc, &mut drawing, number)?;
    *numbers = drawing;
    Ok(file)
}
