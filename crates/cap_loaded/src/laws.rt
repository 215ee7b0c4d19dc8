ghost use Rattle.cap_loaded.specs.Images.{StatesAreReadBack, StatesHoldWords};
ghost use Rattle.cap_loaded.specs.Shown.{StatesAreShown};

/// States what the image of each state has that a start and calls lead to. It computes nothing.
pub fn loaded_laws()
    ensures reads_back { StatesAreReadBack }
    ensures holds { StatesHoldWords }
    ensures shown { StatesAreShown }
{
    cap_session::state_laws();
    cap_image::image_laws();
    cap_image::reading_laws();
    cap_image::granule_laws();
}
