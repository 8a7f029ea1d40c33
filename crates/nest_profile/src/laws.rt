ghost use Rattle.nest_profile.specs.Least.{OneLeast, BelowLeastAreTraps};

/// A law: a job has one least distance.
pub fn one_least()
    ensures { OneLeast }
{}

/// A law: where the set distance of a run is below the least one, no segment is given up for an overlap, and for a trap the
/// one alone in which the outcome traps. Kind of signature, workers and epochs in a segment are those of the least distance.
pub fn below_least_are_traps<S>()
    ensures { BelowLeastAreTraps S }
{
    spec_core::histories_give_up_for_trap::<S>();
}
