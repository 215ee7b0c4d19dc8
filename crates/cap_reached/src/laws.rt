ghost use Rattle.cap_reached.specs.Leading.{ReachIsAlong, StepsAreNamed};

/// States where what is reached in the image of a state comes from. It computes nothing.
pub fn reached_laws()
    ensures steps { StepsAreNamed }
    ensures along { ReachIsAlong }
{
    cap_conc::computed_laws();
    cap_image::granule_laws();
    cap_loaded::loaded_laws();
}
