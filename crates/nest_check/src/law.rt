ghost use Rattle.nest_check.specs.Inside.{TurnsStayInside};

/// A law: the turns of a program that keeps the rules stay inside its arrays, with any scalars and whatever they read.
/// They read and write only words of declared arrays, and write no `const` one.
pub fn turns_stay_inside()
    ensures { TurnsStayInside }
{}
