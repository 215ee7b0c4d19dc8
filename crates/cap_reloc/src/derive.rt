// Capabilities that are held exactly, or refused.
ghost use Rattle.std.specs.Prelude.{◌≡◌, ◌+◌, ◌≤◌, ◌<◌, length, slice_index};
ghost use Rattle.cap_own.specs.Cap.{IsSubset};
ghost use Rattle.cap_scope.specs.Chosen.{object_at};
ghost use Rattle.cap_reloc.specs.Planned.{content_of};
ghost use Rattle.cap_reloc.specs.Wanted.{data_cap, code_cap, function_cap, exact_cap as exact_cap_of};
ghost use Rattle.cap_reloc.specs.Tells.{Tells, Derives};

use crate::RelocRefusal;
use crate::code::Range;
use crate::planned::Held;
use cap_own::{Derived, Inexact, Perms, Root};
use cap_scope::Hit;

/// A part of the data of an object: `len` addresses from place `at` on, where its cursor stands behind the first, and
/// what may be done to it.
#[derive(Clone, Copy)]
pub(crate) struct Part {
    pub(crate) at: u64,
    pub(crate) len: u64,
    pub(crate) offset: u64,
    pub(crate) perms: Perms,
}

/// The capability to `len` addresses of data from place `at` of a mapping on, with its cursor `offset` behind the first.
fn derive_data(
    root: &Root,
    at: u64,
    len: u64,
    offset: u64,
    perms: Perms,
) -> Result<Derived<'_>, Inexact>
    requires within { at + len ≤ root.now.len }
    requires offset { offset ≤ len }
    requires rights { IsSubset perms.0 0x7D }
    ensures { Derives root.now (data_cap root.now.base root.now.owner at len offset perms.0) result }
{
    let base = root.base() + at;
    let cap = root.data(base, len, perms).narrow(base, len, perms)?;
    Ok(cap.at(base + offset))
}

/// The sentry of a range of code of a mapping, with its cursor at place `at`.
fn derive_code(root: &Root, code: Range, at: u64) -> Result<Derived<'_>, Inexact>
    requires from { code.0 ≤ at }
    requires to { at ≤ code.1 }
    requires within { code.1 ≤ root.now.len }
    ensures { Derives root.now (code_cap root.now.base root.now.owner code at) result }
{
    let base = root.base() + code.0;
    let len = code.1 - code.0;
    let cap = root.code(base, len).narrow(base, len, Perms::CODE)?;
    Ok(cap.at(root.base() + at).seal_entry())
}

/// The data of an object, if its bounds are exact; else the refusal for this definition, or for an entry.
#[tactic(auto, unfolding(crate::specs::Wanted::exact_cap))]
pub(crate) fn data_held<'r>(
    root: &'r Root,
    part: Part,
    hit: Option<Hit>,
    note: u32,
) -> Result<Held<'r>, RelocRefusal>
    requires within { part.at + part.len ≤ root.now.len }
    requires offset { part.offset ≤ part.len }
    requires rights { IsSubset part.perms.0 0x7D }
    ensures { Tells content_of result (exact_cap_of hit note (data_cap root.now.base root.now.owner part.at part.len part.offset part.perms.0)) }
{
    match derive_data(root, part.at, part.len, part.offset, part.perms) {
        Ok(cap) => Ok(Held::Tagged(cap, note)),
        Err(Inexact { base, len }) => Err(RelocRefusal::Inexact { hit, base, len }),
    }
}

/// A function of an object, if the bounds of its range of code are exact; else the refusal.
#[tactic(auto, unfolding(crate::specs::Wanted::exact_cap))]
pub(crate) fn code_held(
    root: &Root,
    code: Range,
    at: u64,
    hit: Option<Hit>,
    note: u32,
) -> Result<Held<'_>, RelocRefusal>
    requires from { code.0 ≤ at }
    requires to { at ≤ code.1 }
    requires within { code.1 ≤ root.now.len }
    ensures { Tells content_of result (exact_cap_of hit note (code_cap root.now.base root.now.owner code at)) }
{
    match derive_code(root, code, at) {
        Ok(cap) => Ok(Held::Tagged(cap, note)),
        Err(Inexact { base, len }) => Err(RelocRefusal::Inexact { hit, base, len }),
    }
}
