//! The laws of linked files.

ghost use Rattle.cap_link.specs.Laws.{ReadsBack, RefusesOthers, IsExactAndApart, EqualsAreAliases};

use cap_chain::built_are_sound;
use cap_elf::read_laws;
use cap_layout::layout_laws;
use cap_readback::readback_laws;
use cap_syms::resolve_laws;

/// States how a linked file is read back, that its data have exact bounds that lie apart, and that data of one interval are
/// aliases, for callers that know what was linked. It computes nothing.
pub fn link_laws()
    ensures reads { ReadsBack }
    ensures others { RefusesOthers }
    ensures exact { IsExactAndApart }
    ensures aliases { EqualsAreAliases }
{
    read_laws();
    resolve_laws();
    layout_laws();
    built_are_sound();
    readback_laws();
}
