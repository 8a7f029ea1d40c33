//! The rules on names: declared once, declared before they are used, and assigned only where they may be.
//!
//! In comes a program, out goes the lowest line that breaks each of five rules. A scope has one binding for each name of
//! the program; `specs/Occurrences.antt` gives the binding of each name at each place where it stands, and
//! `specs/Rules.antt` says of each rule which of these places break it.
#![tactic(auto)]

mod breaches;
mod law;
mod occurrences;
mod scopes;
mod walk;

pub use breaches::ScopeBreaches;
pub use law::names_in_bodies_are_bound;
pub use occurrences::{Action, Binding, Level, Occurrence};
pub use walk::scope_breaches;
