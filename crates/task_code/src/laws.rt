ghost use Rattle.task_code.specs.Entries.{EntriesCount, EntriesAreOfBodies, TurnsAreOfBodies, VariablesAreLocals};

/// A law: the code of a program has an entry for each of its bodies.
pub fn entries_count()
    ensures { EntriesCount }
{}

/// A law: the entry with the number of a body is that body's, so the hops from it on make the body's cut turn.
pub fn entries_are_of_bodies()
    ensures { EntriesAreOfBodies }
{}

/// A law: the turn of an iteration that names its body by a number is the turn of that body.
pub fn turns_are_of_bodies()
    ensures { TurnsAreOfBodies }
{}

/// A law: the variable of a body's invocation is among the locals of the body.
pub fn variables_are_locals()
    ensures { VariablesAreLocals }
{}
