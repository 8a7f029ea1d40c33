ghost use Rattle.std.specs.Prelude.{◌≡◌};
ghost use Rattle.nest_scope.specs.Rules.{redeclares, uses_unknown, writes_const, assigns_loop_variable, assigns_scheduler_scalar, is_no_scalar, is_no_array};
ghost use Rattle.nest_scope.specs.Occurrences.{inner, declared_at, variable_at, array_binding};

use nest_syntax::Line;

/// What a name is bound to.
#[derive(Clone, Copy, Debug, PartialEq, Eq)]
pub enum Binding {
    /// No declaration of the name is in scope.
    Unbound,
    Array,
    ConstArray,
    /// A scalar declared before the regions or as an item.
    SchedulerScalar,
    RegionVariable,
    /// A scalar that a body declares.
    Local,
    /// The variable of a loop at depth 2 or more.
    LoopVariable,
}

/// Where a statement or a loop stands.
#[derive(Clone, Copy, Debug, PartialEq, Eq)]
pub enum Level {
    /// Before or among the regions.
    Outside,
    /// Among the items of a region.
    Items,
    Body,
}

/// What is done with a name where it stands.
#[derive(Clone, Copy, Debug, PartialEq, Eq)]
pub enum Action {
    Declared,
    ScalarRead,
    /// A word of the array of this name is read.
    WordRead,
    Assigned,
    /// A word of the array of this name is written.
    WordWritten,
}

/// A place where a name stands: the line of the innermost statement, arm or loop that holds it, the level of that, what
/// is done with the name, and what it is bound to there.
#[derive(Clone, Copy, Debug, PartialEq, Eq)]
pub struct Occurrence {
    pub line: Line,
    pub level: Level,
    pub action: Action,
    pub binding: Binding,
}

impl Binding {
    /// What the declaration of an array binds its name to.
    pub(crate) fn of_array(fixed: bool) -> Binding
        ensures { result ≡ array_binding fixed }
    {
        if fixed {
            Binding::ConstArray
        } else {
            Binding::Array
        }
    }

    fn is_no_scalar(self) -> bool
        ensures { result ≡ is_no_scalar self }
    {
        matches!(
            self,
            Binding::Unbound | Binding::Array | Binding::ConstArray
        )
    }

    fn is_no_array(self) -> bool
        ensures { result ≡ is_no_array self }
    {
        !matches!(self, Binding::Array | Binding::ConstArray)
    }
}

impl Level {
    /// The level of what stands in the block of a loop at this level.
    pub(crate) fn inner(self) -> Level
        ensures { result ≡ inner self }
    {
        match self {
            Level::Outside => Level::Items,
            Level::Items | Level::Body => Level::Body,
        }
    }

    /// What a declaration of a scalar at this level binds its name to.
    pub(crate) fn declared(self) -> Binding
        ensures { result ≡ declared_at self }
    {
        match self {
            Level::Outside | Level::Items => Binding::SchedulerScalar,
            Level::Body => Binding::Local,
        }
    }

    /// What a loop at this level binds its variable to.
    pub(crate) fn variable(self) -> Binding
        ensures { result ≡ variable_at self }
    {
        match self {
            Level::Outside => Binding::RegionVariable,
            Level::Items | Level::Body => Binding::LoopVariable,
        }
    }
}

impl Occurrence {
    /// A name is declared while a declaration of it is in scope.
    pub(crate) fn redeclares(self) -> bool
        ensures { result ≡ redeclares self }
    {
        matches!(self.action, Action::Declared) && !matches!(self.binding, Binding::Unbound)
    }

    /// A name is used as something that it isn't bound to.
    pub(crate) fn uses_unknown(self) -> bool
        ensures { result ≡ uses_unknown self }
    {
        match self.action {
            Action::Declared => false,
            Action::ScalarRead | Action::Assigned => self.binding.is_no_scalar(),
            Action::WordRead | Action::WordWritten => self.binding.is_no_array(),
        }
    }

    /// A word of a `const` array is written.
    pub(crate) fn writes_const(self) -> bool
        ensures { result ≡ writes_const self }
    {
        matches!(self.action, Action::WordWritten) && matches!(self.binding, Binding::ConstArray)
    }

    /// The variable of a loop is assigned in its scope.
    pub(crate) fn assigns_loop_variable(self) -> bool
        ensures { result ≡ assigns_loop_variable self }
    {
        matches!(self.action, Action::Assigned)
            && matches!(
                self.binding,
                Binding::RegionVariable | Binding::LoopVariable
            )
    }

    /// A body assigns a scalar of the scheduler.
    pub(crate) fn assigns_scheduler_scalar(self) -> bool
        ensures { result ≡ assigns_scheduler_scalar self }
    {
        matches!(self.level, Level::Body)
            && matches!(self.action, Action::Assigned)
            && matches!(
                self.binding,
                Binding::SchedulerScalar | Binding::RegionVariable
            )
    }
}
