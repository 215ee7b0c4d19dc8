ghost use Rattle.cap_session.specs.Exact.{InexactIsUnfit, NamesAreAnswered, RunsAreSound, StatesAreReached, StatesLieApart, StoresGiveRead};
ghost use Rattle.cap_session.specs.Held.{RunsAreHeld};
ghost use Rattle.cap_session.specs.Bound.{RunsAreBound, RunsAreShown};

/// States what holds of every state that a start and calls lead to, and of a refusal. It computes nothing.
pub fn state_laws()
    ensures read { StoresGiveRead }
    ensures reached { StatesAreReached }
    ensures answered { NamesAreAnswered }
    ensures apart { StatesLieApart }
    ensures unfit { InexactIsUnfit }
    ensures runs { RunsAreSound }
    ensures held { RunsAreHeld }
    ensures bound { RunsAreBound }
    ensures shown { RunsAreShown }
{
    cap_elf::read_laws();
    cap_reloc::binding_laws();
    cap_reloc::storing_laws();
}
