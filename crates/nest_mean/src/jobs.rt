ghost use Rattle.std.specs.Prelude.{◌≡◌, IfOk};
ghost use Rattle.word_store.specs.Memory.{HasLayout};
ghost use Rattle.nest_mean.specs.Nest.{CanRun};

use nest_check::Checked;
use nest_syntax::NoMemory;
use std::alloc::Global;
use std::marker::Model;
use word_store::Words;

/// A checked program with its opening words: what can be run.
#[derive(Debug, Drop)]
pub struct Job {
    checked: Checked,
    words: Words,
}

impl Model for Job {
    ghost use Rattle.nest_mean.specs.Nest.{Nest, CanRun};
    ghost use Rattle.nest_syntax.specs.contracts.tree.Expr as expr;
    ghost use Rattle.nest_syntax.specs.contracts.tree.Loop as loop;
    ghost use Rattle.std.specs.Coded.{codes};

    ghost Value = { Nest };

    ghost coded = { Prim.hlevel (codes, expr.the_row.coded, loop.the_row.coded) };

    ghost view = { λ j. record { program = j.checked; opening = j.words } };

    ghost invariant = { λ j. CanRun (record { program = j.checked; opening = j.words }) };
}

impl Job {
    /// A job of a program and the words of its arrays, which have its layout.
    pub fn new(checked: Checked, words: Words) -> Job
        requires { HasLayout words checked.decls }
        ensures { result ≡ record { program = checked; opening = words } }
    {
        // It tells what the invariant needs: the program keeps the rules, and has few declarations and bodies.
        let _program = checked.program();
        Job { checked, words }
    }

    /// The program.
    pub fn checked(&self) -> &Checked
        ensures same { result.now ≡ self.now.program }
        ensures runs { CanRun self.now }
    {
        &self.checked
    }

    /// The opening words, over all arrays in order of declaration.
    pub fn words(&self) -> &Words
        ensures same { result.now ≡ self.now.opening }
        ensures runs { CanRun self.now }
    {
        &self.words
    }

    /// An equal job.
    pub fn copy(&self, alloc: Global) -> Result<Job, NoMemory>
        ensures { IfOk result (λ copied. copied ≡ self.now) }
    {
        Ok(Job {
            checked: self.checked.copy(alloc)?,
            words: self.words.copy(alloc)?,
        })
    }
}
