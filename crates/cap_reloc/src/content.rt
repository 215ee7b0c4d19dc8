// What a slot is to hold, or the first check that its relocation fails.
ghost use Rattle.std.specs.Prelude.{◌≡◌, ◌+◌, ◌<◌, ◌≤◌, length, true, slice_index, IfSome};
ghost use Rattle.cap_scope.specs.Chosen.{object_at};
ghost use Rattle.cap_fits.specs.Places.{is_in_code as is_in_code_of, is_function as is_function_of};
ghost use Rattle.cap_reloc.specs.Planned.{content_of};
ghost use Rattle.cap_reloc.specs.Wanted.{own, bias, plus_signed as plus_signed_of, offset_in as offset_in_of, is_no_place as is_no_place_of, data_cap, function_cap, exact_cap, number_for as number_for_target, function_content as function_content_of, data_content as data_content_of, definition_content as definition_content_of, capability_for as capability_for_target, record_content as record_content_of, entry_function as entry_function_of, entry_data as entry_data_of, entry_content as entry_content_of};
ghost use Rattle.cap_reloc.specs.Sound.{IsIn, IsTargetIn};
ghost use Rattle.cap_reloc.specs.Tells.{Tells};
ghost use Rattle.cap_own.specs.Cap.{IsSubset};

use crate::RelocRefusal;
use crate::derive::{Part, code_held, data_held};
use crate::loaded::Loaded;
use crate::meaning::{is_absolute, target_of, value_of};
use crate::planned::Held;
use crate::segments::{data_permissions, is_in_code};
use crate::step::{malformed, refuse};
use crate::target::Target;
use cap_base::Check;
use cap_elf::{CapReloc, DynReloc, Symbol};
use cap_own::Perms;
use cap_scope::Hit;

/// A number and a signed addend, modulo 2^64.
fn plus_signed(n: u64, addend: i64) -> u64
    ensures { result ≡ plus_signed_of n addend }
{
    n.wrapping_add(addend.cast_unsigned())
}

/// The addend as an offset, where it goes from the begin of an interval of this length to its end at most.
fn offset_in(addend: i64, len: u64) -> Option<u64>
    ensures value { result ≡ offset_in_of addend len }
    ensures low { IfSome result (λ n. n ≤ len) }
{
    match u64::try_from(addend) {
        Ok(offset) => { if offset <= len { Some(offset) } else { None } }
        Err(_) => None,
    }
}

/// Whether it stands for no data of its own: STT_SECTION, STT_FILE and STT_COMMON.
fn is_no_place(symbol: Symbol) -> bool
    ensures { result ≡ is_no_place_of symbol }
{
    symbol.kind >= 3 && symbol.kind <= 5
}

/// Whether it is STT_FUNC.
fn is_function(symbol: Symbol) -> bool
    ensures { result ≡ is_function_of symbol }
{
    symbol.kind == 2
}

/// A part of the data of an object as a capability, if its bounds are exact.
fn hold_data<'r>(
    loaded: &Loaded<'_, 'r>,
    object: u32,
    part: Part,
    hit: Option<Hit>,
    note: u32,
) -> Result<Held<'r>, RelocRefusal>
    requires there { object < length loaded.now.objects }
    requires within { part.at + part.len ≤ (object_at loaded.now.objects object).span }
    requires offset { part.offset ≤ part.len }
    requires rights { IsSubset part.perms.0 0x7D }
    ensures { Tells content_of result (exact_cap hit note (data_cap (slice_index loaded.now.bases object) object part.at part.len part.offset part.perms.0)) }
{
    data_held(loaded.root(object), part, hit, note)
}

/// A function of an object as a sentry, if the bounds of its range of code are exact.
fn hold_code<'r>(
    loaded: &Loaded<'_, 'r>,
    object: u32,
    at: u64,
    hit: Option<Hit>,
    note: u32,
) -> Result<Held<'r>, RelocRefusal>
    requires there { object < length loaded.now.objects }
    requires code { is_in_code_of (object_at loaded.now.objects object) at ≡ true }
    ensures { Tells content_of result (exact_cap hit note (function_cap (object_at loaded.now.objects object) (slice_index loaded.now.bases object) object at)) }
{
    code_held(loaded.root(object), loaded.code(object, at), at, hit, note)
}

/// The capability of a function, for a record at this place of the file.
#[tactic(auto, unfolding(crate::specs::Wanted::function_content))]
fn function_content<'r>(
    loaded: &Loaded<'_, 'r>,
    hit: Hit,
    addend: i64,
    at: u64,
) -> Result<Held<'r>, RelocRefusal>
    requires { IsIn loaded.now hit }
    ensures { Tells content_of result (function_content_of loaded.now hit addend at) }
{
    let symbol = loaded.symbol(hit);
    let file = loaded.file(hit.object);
    refuse(
        !is_in_code(file, symbol.value),
        malformed(Check::SymbolInterval, at),
    )?;
    refuse(addend != 0, malformed(Check::Addend, at))?;
    hold_code(loaded, hit.object, symbol.value, Some(hit), hit.symbol)
}

/// The capability of data, for a record at this place of the file.
#[tactic(auto, unfolding(crate::specs::Wanted::data_content))]
fn data_content<'r>(
    loaded: &Loaded<'_, 'r>,
    hit: Hit,
    addend: i64,
    at: u64,
) -> Result<Held<'r>, RelocRefusal>
    requires { IsIn loaded.now hit }
    ensures { Tells content_of result (data_content_of loaded.now hit addend at) }
{
    let symbol = loaded.symbol(hit);
    refuse(is_no_place(symbol), malformed(Check::SymbolInterval, at))?;
    let file = loaded.file(hit.object);
    let Some(perms) = data_permissions(file, symbol.value, symbol.size) else {
        return Err(malformed(Check::SymbolInterval, at));
    };
    let Some(offset) = offset_in(addend, symbol.size) else {
        return Err(malformed(Check::Addend, at));
    };
    let part = Part {
        at: symbol.value,
        len: symbol.size,
        offset,
        perms,
    };
    hold_data(loaded, hit.object, part, Some(hit), hit.symbol)
}

/// The capability of a definition, or the absolute value.
#[tactic(auto, unfolding(crate::specs::Wanted::definition_content))]
fn definition_content<'r>(
    loaded: &Loaded<'_, 'r>,
    hit: Hit,
    addend: i64,
    at: u64,
) -> Result<Held<'r>, RelocRefusal>
    requires { IsIn loaded.now hit }
    ensures { Tells content_of result (definition_content_of loaded.now hit addend at) }
{
    let symbol = loaded.symbol(hit);
    if is_absolute(symbol.place) {
        return Ok(Held::Untagged(plus_signed(symbol.value, addend)));
    }
    if is_function(symbol) {
        function_content(loaded, hit, addend, at)
    } else {
        data_content(loaded, hit, addend, at)
    }
}

/// The 16 bytes of a target.
#[tactic(auto, unfolding(crate::specs::Wanted::capability_for))]
fn capability_for<'r>(
    loaded: &Loaded<'_, 'r>,
    reloc: &DynReloc,
    target: Target,
) -> Result<Held<'r>, RelocRefusal>
    requires { IsTargetIn loaded.now target }
    ensures { Tells content_of result (capability_for_target loaded.now reloc.now target) }
{
    match target {
        Target::Definition(hit) => definition_content(loaded, hit, reloc.addend, reloc.at),
        Target::Zero => Ok(Held::Untagged(plus_signed(0, reloc.addend))),
        Target::Missing => Err(RelocRefusal::Unresolved {
            symbol: reloc.symbol,
        }),
    }
}

/// The value of the target of a symbol.
fn number_for(loaded: &Loaded<'_, '_>, symbol: u32, target: Target) -> Result<u64, RelocRefusal>
    requires { IsTargetIn loaded.now target }
    ensures { result ≡ number_for_target loaded.now symbol target }
{
    match target {
        Target::Definition(hit) => Ok(value_of(loaded, hit)),
        Target::Zero => Ok(0),
        Target::Missing => Err(RelocRefusal::Unresolved { symbol }),
    }
}

/// What a record of an accepted kind other than NONE holds, once its slot is accepted.
#[tactic(auto, unfolding(crate::specs::Wanted::record_content))]
pub(crate) fn record_content<'r>(
    loaded: &Loaded<'_, 'r>,
    reloc: &DynReloc,
) -> Result<Held<'r>, RelocRefusal>
    requires { reloc.now.symbol < length (own loaded.now).symbols }
    ensures { Tells content_of result (record_content_of loaded.now reloc.now) }
{
    if reloc.kind == 3 {
        return Ok(Held::Number(plus_signed(loaded.bias(), reloc.addend)));
    }
    let target = target_of(loaded, reloc.symbol);
    if reloc.kind == 2 {
        let number = number_for(loaded, reloc.symbol, target)?;
        return Ok(Held::Number(plus_signed(number, reloc.addend)));
    }
    capability_for(loaded, reloc, target)
}

/// What an entry holds that describes a function.
#[tactic(auto, unfolding(crate::specs::Wanted::entry_function))]
fn entry_function<'r>(loaded: &Loaded<'_, 'r>, entry: &CapReloc) -> Result<Held<'r>, RelocRefusal>
    ensures { Tells content_of result (entry_function_of loaded.now entry.now) }
{
    refuse(
        !is_in_code(loaded.own(), entry.object),
        malformed(Check::SymbolInterval, entry.at),
    )?;
    refuse(entry.offset != 0, malformed(Check::Addend, entry.at))?;
    hold_code(loaded, loaded.index(), entry.object, None, 0)
}

/// What an entry holds that describes data, for reading alone or for writing too.
#[tactic(auto, unfolding(crate::specs::Wanted::entry_data))]
fn entry_data<'r>(
    loaded: &Loaded<'_, 'r>,
    entry: &CapReloc,
    for_reading: bool,
) -> Result<Held<'r>, RelocRefusal>
    ensures { Tells content_of result (entry_data_of loaded.now entry.now for_reading) }
{
    let Some(perms) = data_permissions(loaded.own(), entry.object, entry.size) else {
        return Err(malformed(Check::SymbolInterval, entry.at));
    };
    refuse(
        !for_reading && perms != Perms::DATA,
        malformed(Check::CapabilityPermissions, entry.at),
    )?;
    refuse(
        entry.offset > entry.size,
        malformed(Check::Addend, entry.at),
    )?;
    let part = Part {
        at: entry.object,
        len: entry.size,
        offset: entry.offset,
        perms: if for_reading {
            Perms::READ
        } else {
            Perms::DATA
        },
    };
    hold_data(loaded, loaded.index(), part, None, 0)
}

/// What an entry holds, once its slot is accepted.
#[tactic(auto, unfolding(crate::specs::Wanted::entry_content))]
pub(crate) fn entry_content<'r>(
    loaded: &Loaded<'_, 'r>,
    entry: &CapReloc,
) -> Result<Held<'r>, RelocRefusal>
    ensures { Tells content_of result (entry_content_of loaded.now entry.now) }
{
    if entry.permissions == 1 << 63 {
        return entry_function(loaded, entry);
    }
    if entry.permissions == 1 << 62 {
        return entry_data(loaded, entry, true);
    }
    if entry.permissions == 0 {
        return entry_data(loaded, entry, false);
    }
    Err(malformed(Check::CapabilityPermissions, entry.at))
}
