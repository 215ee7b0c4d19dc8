//! The law of written files.

ghost use Rattle.cap_readback.specs.Law.{WrittenIsRead};

/// A file that is written as a plan says is read back as it was planned, or refused by a name or an array.
pub fn readback_laws()
    ensures { WrittenIsRead }
{}
