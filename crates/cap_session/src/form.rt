//! The forms of a call.

ghost use Rattle.std.specs.Prelude.{◌≡◌};
ghost use Rattle.cap_session.specs.Calls.{mode_of, passes_over as passes};

use crate::refusal::Mode;

/// The form of a call: how it opens its library, and whether its refusal ends the run.
#[derive(Clone, Copy, Debug, PartialEq, Eq)]
pub enum Form {
    /// The library is opened for its own tree.
    Open,
    /// The library is opened for all objects that are loaded from then on.
    Global,
    /// As `Open`, and a refusal that the files decide is passed over.
    Try,
}

impl Form {
    /// The mode in which the library is opened.
    pub fn mode(self) -> Mode
        ensures { result ≡ mode_of self }
    {
        match self {
            Form::Open | Form::Try => Mode::Local,
            Form::Global => Mode::Global,
        }
    }

    /// Whether a refusal that the files decide is passed over. A read fault and want of memory never are.
    pub fn passes_over(self) -> bool
        ensures { result ≡ passes self }
    {
        match self {
            Form::Open | Form::Global => false,
            Form::Try => true,
        }
    }
}
