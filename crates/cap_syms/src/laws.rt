//! What holds of every table of names.

ghost use Rattle.cap_syms.specs.ResolveLaws.{TablesAreResolved};

/// Every table that is resolved from objects that were read is sound.
pub fn resolve_laws()
    ensures { TablesAreResolved }
{}
