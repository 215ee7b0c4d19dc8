//! Calls, and lists of them.

ghost use Rattle.std.specs.Prelude.{◌≡◌, ◌<◌, ◌==◌, length, slice_get};

use std::marker::Model;

/// A slot of an array of initial calls, where its sentry leads, and the object of the array: both addresses are those of
/// a byte in memory.
#[derive(Clone, Copy, Debug, PartialEq, Eq)]
pub struct Call {
    pub slot: u64,
    pub cursor: u64,
    pub object: u32,
}

/// Calls in their order. Contracts see the list.
#[derive(Debug, Drop)]
pub struct Calls {
    pub(crate) calls: Vec<Call>,
}

impl Model for Calls {
    ghost use Rattle.std.specs.Prelude.{List};
    ghost use Rattle.cap_init.specs.declared.call.Call.{Call};

    ghost Value = { List Call };

    ghost view = { λ c. c.calls.items };
}

impl Calls {
    /// How many calls there are.
    pub fn len(&self) -> usize
        ensures { result ≡ length self.now }
    {
        self.calls.len()
    }

    /// Whether there are none.
    pub fn is_empty(&self) -> bool
        ensures { result ≡ (length self.now == 0) }
    {
        self.calls.is_empty()
    }

    /// The call of this number.
    pub fn get(&self, i: usize) -> Call
        requires { i < length self.now }
        ensures { slice_get self.now i ≡ Some result }
    {
        self.calls[i]
    }

    /// All of them, in their order.
    pub fn as_slice(&self) -> &[Call]
        ensures { result.now ≡ self.now }
    {
        self.calls.as_slice()
    }
}
