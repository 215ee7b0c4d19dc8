// What a reference through a symbol means.
use cap_scope::Hit;

/// What a reference through a symbol means: a definition, the absolute value 0, or nothing that was found.
#[derive(Clone, Copy, Debug)]
pub(crate) enum Target {
    Definition(Hit),
    Zero,
    Missing,
}
