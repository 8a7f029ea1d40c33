ghost use Rattle.std.specs.Prelude.{◌≡◌};
ghost use Rattle.nest_scope.specs.Noted.{noted, none_noted};

use crate::occurrences::Occurrence;
use nest_syntax::{Line, Lowest};
use std::marker::Model;

/// The lowest line that breaks each of the rules on names, none where the rule holds.
#[derive(Clone, Copy, Debug, PartialEq, Eq)]
pub struct ScopeBreaches {
    /// A name is declared while a declaration of it is in scope.
    pub redeclared: Option<Line>,
    /// A name is used that isn't in scope, or is bound to something else there.
    pub unknown: Option<Line>,
    /// A word of a `const` array is written.
    pub const_written: Option<Line>,
    /// The variable of a loop is assigned in that loop.
    pub loop_variable_assigned: Option<Line>,
    /// A body assigns a scalar of the scheduler.
    pub scheduler_scalar_assigned: Option<Line>,
}

/// The breaches that were found so far.
#[derive(Debug, Drop)]
pub(crate) struct Found {
    redeclared: Lowest,
    unknown: Lowest,
    const_written: Lowest,
    loop_variable_assigned: Lowest,
    scheduler_scalar_assigned: Lowest,
}

impl Model for Found {
    ghost use Rattle.nest_scope.specs.declared.breaches.ScopeBreaches.{ScopeBreaches};

    ghost Value = { ScopeBreaches };

    ghost view = { λ f. record { redeclared = f.redeclared; unknown = f.unknown; const_written = f.const_written; loop_variable_assigned = f.loop_variable_assigned; scheduler_scalar_assigned = f.scheduler_scalar_assigned } };
}

impl Found {
    pub(crate) fn new() -> Found
        ensures { result ≡ none_noted }
    {
        Found {
            redeclared: Lowest::new(),
            unknown: Lowest::new(),
            const_written: Lowest::new(),
            loop_variable_assigned: Lowest::new(),
            scheduler_scalar_assigned: Lowest::new(),
        }
    }

    pub(crate) fn note(&mut self, occurrence: Occurrence)
        ensures { self.new ≡ noted self.old occurrence }
    {
        let line = occurrence.line;
        self.redeclared.note_where(occurrence.redeclares(), line);
        self.unknown.note_where(occurrence.uses_unknown(), line);
        self.const_written
            .note_where(occurrence.writes_const(), line);
        self.loop_variable_assigned
            .note_where(occurrence.assigns_loop_variable(), line);
        self.scheduler_scalar_assigned
            .note_where(occurrence.assigns_scheduler_scalar(), line);
    }

    pub(crate) fn breaches(&self) -> ScopeBreaches
        ensures { result ≡ self.now }
    {
        ScopeBreaches {
            redeclared: self.redeclared.line(),
            unknown: self.unknown.line(),
            const_written: self.const_written.line(),
            loop_variable_assigned: self.loop_variable_assigned.line(),
            scheduler_scalar_assigned: self.scheduler_scalar_assigned.line(),
        }
    }
}
