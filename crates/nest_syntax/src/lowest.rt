ghost use Rattle.std.specs.Prelude.{◌≡◌, Option, None};
ghost use Rattle.nest_syntax.specs.declared.names.Line.{Line};
ghost use Rattle.nest_syntax.specs.Lowest.{lower, lower_if};

use crate::names::Line;
use std::marker::Model;

/// The lowest of the lines noted so far, none before the first.
#[derive(Debug, Drop)]
pub struct Lowest {
    line: Option<Line>,
}

impl Model for Lowest {
    ghost use Rattle.std.specs.Prelude.{Option};
    ghost use Rattle.nest_syntax.specs.declared.names.Line.{Line};

    ghost Value = { Option Line };

    ghost view = { λ l. l.line };
}

impl Lowest {
    pub fn new() -> Lowest
        ensures { result ≡ None }
    {
        Lowest { line: None }
    }

    pub fn note(&mut self, line: Line)
        ensures { self.new ≡ lower self.old line }
    {
        self.line = match self.line {
            None => Some(line),
            Some(lowest) => Some(if line < lowest { line } else { lowest }),
        };
    }

    /// Notes a line where it breaks the rule.
    pub fn note_where(&mut self, breaks: bool, line: Line)
        ensures { self.new ≡ lower_if breaks self.old line }
    {
        if breaks {
            self.note(line);
        }
    }

    /// The lowest line noted.
    pub fn line(&self) -> Option<Line>
        ensures { result ≡ self.now }
    {
        self.line
    }
}
