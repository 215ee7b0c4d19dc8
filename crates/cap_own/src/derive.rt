ghost use Rattle.std.specs.Prelude.{◌<◌, if◌then◌else◌, ◌≡◌, ◌+◌, ◌^◌, ◌≤◌, true, false, IfOk, bit_and};
ghost use Rattle.cap_conc.specs.Computed.{fields_of, is_exact};
ghost use Rattle.cap_own.specs.Interval.{interval};
ghost use Rattle.cap_own.specs.Cap.{IsWithin, IsSubset, IsGrant, StandsFor, word_of_cap, fields_of_cap, narrowed_to};
ghost use Rattle.cap_own.specs.Narrowing.{Narrows};

use crate::perms::Perms;
use crate::space::Span;
use bitflags::Flags;
use cap_conc::{Word, encode, exact};
use std::marker::Model;

/// A capability can't have these bounds exactly: `len` addresses from `base` on.
#[derive(Clone, Copy, Debug, PartialEq, Eq)]
pub struct Inexact {
    pub base: u64,
    pub len: u64,
}

/// The whole mapping of one object, which all capabilities to it come from. It is never stored in memory.
#[derive(Debug)]
pub struct Root {
    span: Span,
    owner: u32,
}

impl Model for Root {
    ghost use Rattle.cap_own.specs.Cap.{Mapping};

    ghost Value = { Mapping };

    ghost view = { λ r. record { base = r.span.base; len = r.span.len; owner = r.owner } };
}

impl Root {
    /// The mapping of the object that has this number.
    pub fn new(span: Span, owner: u32) -> Root
        ensures { result ≡ record { base = span.base; len = span.len; owner = owner } }
    {
        Root { span, owner }
    }

    /// The first address.
    pub fn base(&self) -> u64
        ensures value { result ≡ self.now.base }
        ensures end { self.now.base + self.now.len ≤ 2 ^ 62 }
    {
        self.span.base()
    }

    /// How many addresses there are.
    pub fn len(&self) -> u64
        ensures value { result ≡ self.now.len }
        ensures end { self.now.base + self.now.len ≤ 2 ^ 62 }
    {
        self.span.len()
    }

    /// The number of the object.
    pub fn owner(&self) -> u32
        ensures { result ≡ self.now.owner }
    {
        self.owner
    }

    /// The addresses again, for their space. No capability to them is left.
    pub fn into_span(self) -> Span
        ensures { result ≡ interval self.base self.len }
    {
        let Root { span, owner: _ } = self;
        span
    }

    /// A part of the mapping for data, with some of the permissions `Perms::DATA`.
    pub fn data(&self, base: u64, len: u64, perms: Perms) -> Seg<'_>
        requires within { IsWithin self.now base len }
        requires rights { IsSubset perms.0 0x7D }
        ensures { result ≡ record { root = self.now; base = base; len = len; perms = perms.0; flag = false } }
    {
        Seg {
            root: self,
            base,
            len,
            perms,
            flag: false,
        }
    }

    /// A part of the mapping for code, with the permissions `Perms::CODE`, to run in capability mode.
    pub fn code(&self, base: u64, len: u64) -> Seg<'_>
        requires { IsWithin self.now base len }
        ensures { result ≡ record { root = self.now; base = base; len = len; perms = 0x17; flag = true } }
    {
        Seg {
            root: self,
            base,
            len,
            perms: Perms::CODE,
            flag: true,
        }
    }
}

/// A part of a mapping, and the rights to it.
#[derive(Debug, Drop)]
pub struct Seg<'r> {
    root: &'r Root,
    base: u64,
    len: u64,
    perms: Perms,
    flag: bool,
}

impl<'r> Model for Seg<'r> {
    ghost use Rattle.cap_own.specs.Cap.{Part, IsPart};

    ghost Value = { Part };

    ghost view = { λ s. record { root = s.root.now; base = s.base; len = s.len; perms = s.perms.0; flag = s.flag } };

    ghost invariant = { λ s. IsPart (record { root = s.root.now; base = s.base; len = s.len; perms = s.perms.0; flag = s.flag }) };
}

impl<'r> Seg<'r> {
    /// The capability to an interval of this part, with the interval's base as its cursor, and not sealed.
    ///
    /// `Inexact` comes exactly where no capability can have these bounds exactly. Code keeps its permissions; data may
    /// have fewer.
    pub fn narrow(&self, base: u64, len: u64, perms: Perms) -> Result<Derived<'r>, Inexact>
        requires from { self.now.base ≤ base }
        requires to { base + len ≤ self.now.base + self.now.len }
        requires fewer { IsSubset perms.0 self.now.perms }
        requires code { self.now.flag ≡ true → perms.0 ≡ self.now.perms }
        ensures narrows { Narrows self.now base len perms.0 result }
        ensures sound { IfOk result IsGrant }
    {
        if !exact(base, len) {
            return Err(Inexact { base, len });
        }
        Ok(self.derived(base, len, perms))
    }

    /// The capability, where its bounds are exact.
    fn derived(&self, base: u64, len: u64, perms: Perms) -> Derived<'r>
        requires from { self.now.base ≤ base }
        requires to { base + len ≤ self.now.base + self.now.len }
        requires fewer { IsSubset perms.0 self.now.perms }
        requires code { self.now.flag ≡ true → perms.0 ≡ self.now.perms }
        requires exact { is_exact base len ≡ true }
        ensures value { result ≡ narrowed_to self.now base len perms.0 }
        ensures sound { IsGrant result }
    {
        Derived {
            root: self.root,
            base,
            len,
            cursor: base,
            perms,
            flag: self.flag,
            sealed: false,
        }
    }
}

/// A capability that was derived from the mapping that it borrows.
#[derive(Debug, Drop)]
pub struct Derived<'r> {
    root: &'r Root,
    base: u64,
    len: u64,
    cursor: u64,
    perms: Perms,
    flag: bool,
    sealed: bool,
}

impl<'r> Model for Derived<'r> {
    ghost use Rattle.cap_own.specs.Cap.{Grant};

    ghost Value = { Grant };

    ghost use Rattle.cap_own.specs.Grants.{grant_of, IsDerived};

    ghost view = { grant_of };

    ghost invariant = { IsDerived };
}

impl<'r> Derived<'r> {
    /// The same capability with another cursor, within its bounds or at their end.
    pub fn at(self, cursor: u64) -> Derived<'r>
        requires unsealed { self.cap.sealed ≡ false }
        requires from_base { self.cap.base ≤ cursor }
        requires to_top { cursor ≤ self.cap.base + self.cap.len }
        ensures value { result ≡ record self.entry { cap = record self.entry.cap { cursor = cursor } } }
        ensures sound { IsGrant result }
    {
        Derived { cursor, ..self }
    }

    /// The same capability as a sentry: it can be entered, and neither moved nor read through.
    pub fn seal_entry(self) -> Derived<'r>
        requires unsealed { self.cap.sealed ≡ false }
        requires execute { bit_and self.cap.perms 2 ≡ 2 }
        ensures value { result ≡ record self.entry { cap = record self.entry.cap { sealed = true } } }
        ensures sound { IsGrant result }
    {
        Derived {
            sealed: true,
            ..self
        }
    }

    /// The number of the object whose mapping this is.
    pub fn owner(&self) -> u32
        ensures value { result ≡ self.now.cap.owner }
        ensures sound { IsGrant self.now }
    {
        self.root.owner()
    }

    /// The word that memory holds for this capability.
    pub fn word(&self) -> Word
        ensures word { result ≡ word_of_cap self.now.cap }
        ensures stands { StandsFor result self.now.cap }
        ensures fields { fields_of result ≡ fields_of_cap self.now.cap }
        ensures sound { IsGrant self.now }
    {
        let mapping_end = self.root.base() + self.root.len();
        prove!(mapping_end <= 1 << 62);
        encode(
            self.base,
            self.len,
            self.cursor,
            self.perms.bits(),
            self.flag,
            object_type(self.sealed),
        )
    }
}

/// The object type of a sentry, or of a word that isn't sealed.
fn object_type(sealed: bool) -> u32
    ensures value { result ≡ (if sealed then 262142 else 262143) }
    ensures fits { result < 2 ^ 18 }
{
    if sealed { 262_142 } else { 262_143 }
}
