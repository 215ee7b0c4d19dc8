//! What holds of the parts of a linked file.

ghost use Rattle.cap_emit.specs.File.{PartsFit};

/// States that the parts of a layout, with the lists of its own plan and bytes of the right lengths, follow one another
/// in the file, for callers that know how these were made. It computes nothing.
pub fn emit_laws()
    ensures { PartsFit }
{}
