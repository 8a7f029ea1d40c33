ghost use Rattle.spec_checker.specs.Numbers.{PairsAreNumbered};

/// A law: the pairs of two or more workers have the numbers from 0 on, each its own, in the order of pairs. Those whose
/// late task is in one of the first `n` epochs have the numbers below `workers * (workers - 1) * n * (n - 1) / 2`.
pub fn pairs_are_numbered()
    ensures { PairsAreNumbered }
{}
