ghost use Rattle.nest_mean.specs.Bound.{HasFewIterations};

/// The course of a nest with no more bodies than a program may have has at most 2^60 iterations, so no count of them
/// overflows.
pub fn few_iterations()
    ensures { HasFewIterations }
{}
