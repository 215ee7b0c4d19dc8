ghost use Rattle.cap_own.specs.Laws.{GrantsStand};

/// States that the word of each capability that a mapping grants stands for it. It computes nothing.
pub fn grant_laws()
    ensures { GrantsStand }
{
    cap_conc::encoding_laws();
}
