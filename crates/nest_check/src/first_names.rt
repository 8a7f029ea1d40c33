ghost use Rattle.std.specs.Prelude.{◌≡◌, [], OnOk, length};
ghost use Rattle.nest_check.specs.Declarations.{has_name};
ghost use Rattle.nest_check.specs.Noted.{added};

use nest_syntax::{Line, NoMemory};
use std::alloc::Global;
use std::marker::Model;

/// The first declarations of names, in order. There are few of them, so a name is looked for one by one.
#[derive(Debug, Drop)]
pub(crate) struct FirstNames {
    found: Vec<(u32, Line)>,
}

impl Model for FirstNames {
    ghost use Rattle.std.specs.Prelude.{List};
    ghost use Rattle.nest_syntax.specs.Shape.{Declaration};

    ghost Value = { List Declaration };

    ghost view = { λ n. n.found.items };
}

impl FirstNames {
    pub fn new(alloc: Global) -> FirstNames
        ensures { result ≡ [] }
    {
        FirstNames {
            found: Vec::new(alloc),
        }
    }

    pub fn as_slice(&self) -> &[(u32, Line)]
        ensures { result.now ≡ self.now }
    {
        self.found.as_slice()
    }

    pub fn len(&self) -> usize
        ensures { result ≡ length self.now }
    {
        self.found.len()
    }

    /// Takes a declaration whose name is new, unless there are `most` names already.
    pub fn note(&mut self, most: usize, name: u32, line: Line) -> Result<(), NoMemory>
        ensures { OnOk result (self.new ≡ added most self.old (name, line)) }
    {
        if self.found.len() < most && !has_name(self.found.as_slice(), name) {
            self.found.push((name, line))?;
        }
        Ok(())
    }
}

fn has_name(found: &[(u32, Line)], name: u32) -> bool
    ensures { result ≡ has_name found.now name }
{
    for declaration in found {
        if declaration.0 == name {
            return true;
        }
    }
    false
}
