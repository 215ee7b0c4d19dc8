ghost use Rattle.cap_exact.specs.Loads.{LoadsKeepBounds};

/// States what holds of each start and calls over a store whose files are told. It computes nothing.
pub fn exact_laws()
    ensures { LoadsKeepBounds }
{
    cap_link::link_laws();
    cap_session::state_laws();
}
