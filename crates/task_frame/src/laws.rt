ghost use Rattle.task_frame.specs.System.{TurnsAreRealised, TurnsMayPause};
ghost use Rattle.task_frame.specs.Bodies.{BodiesAreRealised, BodiesStopAtMost};
ghost use Rattle.task_frame.specs.Stops.{StopsAreInside};

/// A law: where the hops of a code unfold to a cut turn, and the turn writes no word that is told, a piece that begins so
/// realises the cut turn, with as many stops left as the turn has operations and stops at most.
pub fn turns_are_realised()
    ensures { TurnsAreRealised }
{}

/// A law: a cut turn has no more stops than its turn has operations and stops.
pub fn turns_may_pause()
    ensures { TurnsMayPause }
{}

/// A law: in the code of a program that keeps the rules, the piece that opens an iteration of a body realises the body's cut
/// turn, as a piece of the task system of the code, with as many stops left as the body costs at most.
pub fn bodies_are_realised()
    ensures { BodiesAreRealised }
{}

/// A law: the cut turn of a body has no more stops than the body costs at most.
pub fn bodies_stop_at_most()
    ensures { BodiesStopAtMost }
{}

/// A law: each piece of a program's code that stops at a word stops inside the arrays of the program.
pub fn stops_are_inside()
    ensures { StopsAreInside }
{}
