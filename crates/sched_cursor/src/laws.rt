ghost use Rattle.sched_cursor.specs.Laws.{CursorsFollow, ConstWordsSuffice, WholeInvocationsFollow, CursorsStay, EventsCount, FixedWordsAreConst, BodiesInside};
ghost use Rattle.sched_cursor.specs.Given.{GivenAgree};

/// A law: from its start on a cursor follows the course of its program, event by event.
pub fn cursors_follow()
    ensures { CursorsFollow }
{}

/// A law: where an event isn't a drain, the present words lead where the opening words do, as long as the
/// `const` words are those of the opening.
pub fn const_words_suffice()
    ensures { ConstWordsSuffice }
{}

/// A law: where a cursor stands in an invocation, its turns are the next iterations of the course, in order, and behind the
/// invocation the cursor follows what comes behind their end.
pub fn whole_invocations_follow()
    ensures { WholeInvocationsFollow }
{}

/// A law: a cursor of a program stays one, behind each event, behind each invocation and at its start again, and it passes
/// at most 2^60 iterations, whatever the words.
pub fn cursors_stay()
    ensures { CursorsStay }
{}

/// A law: behind an iteration one more was passed, behind any other event as many as before, and an event of an invocation
/// reads no word.
pub fn events_count()
    ensures { EventsCount }
{}

/// A law: words that hold what is told of the opening words have the `const` words of the opening.
pub fn fixed_words_are_const()
    ensures { FixedWordsAreConst }
{}

/// A law: where a program has a cursor, each iteration of its course is of one of its bodies.
pub fn bodies_inside()
    ensures { BodiesInside }
{}

/// A law: scalars that `put_scalars` is lent, one for each name of the program, agree behind it with those that the
/// iteration is told with, on the scheduler's scalars and on the variable of the invocation.
pub fn given_agree()
    ensures { GivenAgree }
{}
