//! What holds of all files that can be read.

ghost use Rattle.cap_elf.specs.ReadLaws.{ReadLaws};

/// Every object that can be read is sound, and its numbers fit their fields.
pub fn read_laws()
    ensures { ReadLaws }
{}
