//! Definitions in a scope, and the rules by which one is chosen.

/// Which of the definitions of a name is chosen.
#[derive(Clone, Copy, Debug, PartialEq, Eq)]
pub enum Rule {
    /// The first that isn't weak, else the first.
    NonWeak,
    /// The first.
    First,
}

/// A symbol of an object, by their numbers.
#[derive(Clone, Copy, Debug, PartialEq, Eq)]
pub struct Hit {
    pub object: u32,
    pub symbol: u32,
}

/// A definition, and whether it is GLOBAL; else it is WEAK.
#[derive(Clone, Copy, Debug, PartialEq, Eq)]
pub(crate) struct Candidate {
    pub(crate) hit: Hit,
    pub(crate) is_strong: bool,
}

/// What the look-up of a name finds in one object, and how many entries of its chain it passes.
#[derive(Clone, Copy, Debug, PartialEq, Eq)]
pub(crate) struct LookUp {
    pub(crate) found: Option<Candidate>,
    pub(crate) walked: u32,
}

/// The definition that is chosen, by its binding.
#[derive(Clone, Copy, Debug, PartialEq, Eq)]
pub enum Choice {
    /// A GLOBAL one.
    Strong(Hit),
    /// A WEAK one.
    Weak(Hit),
    /// There is no definition in the scope.
    None,
}

/// A choice, and how many entries of hash chains its look-up passes.
#[derive(Clone, Copy, Debug, PartialEq, Eq)]
pub struct Found {
    pub choice: Choice,
    pub walked: u128,
}
