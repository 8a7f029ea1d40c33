//! What a name in a body is: a local of the body, everywhere in it, or a scalar from outside.
//!
//! A law of the rules on names, for whoever compiles or runs a body: it needs no scopes, since which names are locals of
//! the body says what each use of a name means. The function here is that law; it does nothing.
#![tactic(auto)]

ghost use Rattle.body_names.specs.Laws.{NamesAreLocalOrOutside, ProgramsNameLocalsOrOutside, BodiesAssignLocals};

/// In a body whose occurrences keep the rules on names, each local is bound to nothing where the body begins, so each use
/// of its name is of the local; any other name that the body uses as a scalar is bound to a scalar there, and stays bound
/// to that everywhere in the body.
pub fn names_are_local_or_outside()
    ensures { NamesAreLocalOrOutside }
{}

/// So it is in each body of a program that keeps the rules on names, from the scope in which it is entered; and a scalar
/// from outside is the variable of the loop that invokes the body, or a scalar of the scheduler.
pub fn programs_name_locals_or_outside()
    ensures { ProgramsNameLocalsOrOutside }
{}

/// The bodies of a program that keeps the rules on assigned names assign locals alone: what is in scope, no loop's
/// variable and no scalar of the scheduler is a local, and no body is entered in a scope that binds one.
pub fn bodies_assign_locals()
    ensures { BodiesAssignLocals }
{}
