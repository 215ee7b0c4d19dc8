ghost use Rattle.cap_init.specs.Laws.{AllAreCalls, AreReached, EachStandsOnce, NeededStandBefore};

/// States what the order of a group is, by the dependencies alone. It computes nothing.
pub fn order_laws()
    ensures once { EachStandsOnce }
    ensures reached { AreReached }
    ensures needed { NeededStandBefore }
{}

/// States what each call is in memory. It computes nothing.
pub fn call_laws()
    ensures { AllAreCalls }
{}
