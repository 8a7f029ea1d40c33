ghost use Rattle.nest_scope.specs.Entered.{BodiesAreEntered, BodiesHaveBoundNames};

/// A law: what the names in the bodies of a program are bound to. The bodies, with the scopes in which they stand, are
/// those of the program's shape; where no rule on names is broken, each name in each of them is bound to what it is used
/// as. What declares it is told by the walk over the body from that scope.
pub fn names_in_bodies_are_bound()
    ensures bodies { BodiesAreEntered }
    ensures names { BodiesHaveBoundNames }
{}
