ghost use Rattle.std.specs.Prelude.{◌≡◌, ◌+◌, ◌-◌, ◌^◌, ◌≤◌, [], ◌∷◌, IsTrue, IfOk};
ghost use Rattle.std.specs.Int.{is_power_of_two};
ghost use Rattle.cap_own.specs.Interval.{interval, Cover, IsNextMultiple};
ghost use Rattle.cap_own.specs.Carving.{Carves};

use std::marker::Model;

/// The space has less room than was asked for: `asked` addresses, where `left` are free, pads included.
#[derive(Clone, Copy, Debug, PartialEq, Eq)]
pub struct Full {
    pub asked: u64,
    pub left: u64,
}

/// An interval of addresses that has one owner. It can be neither copied nor dropped: whoever has it hands it on.
#[derive(Debug)]
pub struct Span {
    base: u64,
    len: u64,
}

impl Model for Span {
    ghost use Rattle.std.specs.Prelude.{◌+◌, ◌≤◌, ◌^◌};
    ghost use Rattle.cap_own.specs.Interval.{Interval};

    ghost Value = { Interval };

    ghost view = { λ s. record { base = s.base; len = s.len } };

    ghost invariant = { λ s. s.base + s.len ≤ 2 ^ 62 };
}

impl Span {
    /// The first address.
    pub fn base(&self) -> u64
        ensures value { result ≡ self.now.base }
        ensures end { self.now.base + self.now.len ≤ 2 ^ 62 }
    {
        self.base
    }

    /// How many addresses there are.
    pub fn len(&self) -> u64
        ensures value { result ≡ self.now.len }
        ensures end { self.now.base + self.now.len ≤ 2 ^ 62 }
    {
        self.len
    }

    /// The addresses below `at`, and those from it on.
    pub fn split(self, at: u64) -> (Span, Span)
        requires from { self.base ≤ at }
        requires to { at ≤ self.base + self.len }
        ensures below { result.0 ≡ interval self.base (at - self.base) }
        ensures rest { result.1 ≡ interval at (self.base + self.len - at) }
        ensures whole { Cover self.base (result.0 ∷ result.1 ∷ []) (self.base + self.len) }
    {
        let Span { base, len } = self;
        let below = Span {
            base,
            len: at - base,
        };
        let rest = Span {
            base: at,
            len: len - (at - base),
        };
        (below, rest)
    }

    /// Both intervals as one, where the other begins at the end of this one.
    pub fn join(self, other: Span) -> Span
        requires { self.base + self.len ≡ other.base }
        ensures value { result ≡ interval self.base (self.len + other.len) }
        ensures whole { Cover result.base (self ∷ other ∷ []) (result.base + result.len) }
    {
        let Span { base, len } = self;
        let Span { base: _, len: more } = other;
        Span {
            base,
            len: len + more,
        }
    }
}

/// The free addresses, from the next one up to a limit. It is not dropped: it ends once all that it gave came back.
#[derive(Debug)]
pub struct Space {
    start: u64,
    next: u64,
    limit: u64,
}

impl Model for Space {
    ghost use Rattle.std.specs.Prelude.{◌≤◌, ◌^◌};
    ghost use Rattle.cap_own.specs.Interval.{Room};

    ghost Value = { Room };

    ghost view = { λ s. record { start = s.start; next = s.next; limit = s.limit } };

    ghost invariant = { λ s. (s.start ≤ s.next) × (s.next ≤ s.limit) × (s.limit ≤ 2 ^ 62) };
}

impl Space {
    /// All addresses from `base` up to `limit`, free.
    pub fn new(base: u64, limit: u64) -> Space
        requires order { base ≤ limit }
        requires size { limit ≤ 2 ^ 62 }
        ensures { result ≡ record { start = base; next = base; limit = limit } }
    {
        Space {
            start: base,
            next: base,
            limit,
        }
    }

    /// The first free address.
    pub fn next(&self) -> u64
        ensures value { result ≡ self.now.next }
        ensures from { self.now.start ≤ self.now.next }
        ensures to { self.now.next ≤ self.now.limit }
    {
        self.next
    }

    /// The address past the last free one.
    pub fn limit(&self) -> u64
        ensures value { result ≡ self.now.limit }
        ensures size { self.now.limit ≤ 2 ^ 62 }
    {
        self.limit
    }

    /// The pad up to the next multiple of `align`, and the body of `len` addresses after it.
    ///
    /// `Full` comes exactly where the body would end past the limit; nothing is carved then.
    pub fn carve(&mut self, align: u64, len: u64) -> Result<(Span, Span), Full>
        requires power { IsTrue (is_power_of_two align) }
        requires small_align { align ≤ 2 ^ 62 }
        requires small_len { len ≤ 2 ^ 62 }
        ensures carved { Carves self.old self.new align len result }
        ensures aligned { IfOk result (λ parts. IsNextMultiple align self.old.next parts.1.base) }
        ensures whole { IfOk result (λ parts. Cover self.old.next (parts.0 ∷ parts.1 ∷ []) self.new.next) }
        ensures own { IfOk result (λ parts. self.new.start ≤ parts.0.base) }
    {
        let start = self.next.next_multiple_of(align);
        let end = start + len;
        if end > self.limit {
            return Err(Full {
                asked: len,
                left: self.limit - self.next,
            });
        }
        let pad = Span {
            base: self.next,
            len: start - self.next,
        };
        let body = Span { base: start, len };
        self.next = end;
        Ok((pad, body))
    }

    /// Takes back the last addresses that were carved, and makes them free.
    pub fn give_back(&mut self, span: Span)
        requires last { span.base + span.len ≡ self.old.next }
        requires own { self.old.start ≤ span.base }
        ensures value { self.new ≡ record self.old { next = span.base } }
        ensures whole { Cover self.new.next (span ∷ []) self.old.next }
    {
        let Span { base, len: _ } = span;
        self.next = base;
    }

    /// Ends a space to which everything was given back: none of its addresses is with anyone else.
    pub fn end(self)
        requires { self.next ≡ self.start }
        ensures { Cover self.start [] self.next }
    {
        let Space {
            start: _,
            next: _,
            limit: _,
        } = self;
    }
}
