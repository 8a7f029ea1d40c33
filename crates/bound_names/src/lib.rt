//! What each name in a body of a checked program is bound to: the declaration or the loop of the body that binds it, or a
//! scalar of the scheduler, or an array.
//!
//! A law of the rules on names, for whoever reads a body's text: `specs/Uses.antt` goes over the body and tells at each use
//! of a name what the body binds there, the innermost first. The function here is that law; it does nothing.
#![tactic(auto)]

ghost use Rattle.bound_names.specs.Meant.{NamesHaveMeaning};

/// In each body of a program that keeps the rules, each use of a name is of what the innermost binding of it in the body
/// tells, or of a scalar of the scheduler or an array, which has its number and is no local of the body. A declared name
/// is bound by nothing else there, an assigned one by a declaration and by no loop, and a written array isn't `const`.
pub fn names_have_meaning()
    ensures { NamesHaveMeaning }
{}
