ghost use Rattle.std.specs.Prelude.{◌≡◌, IfOk, IfSome};
ghost use Rattle.nest_syntax.specs.Value.{with_scalar};
ghost use Rattle.nest_syntax.specs.Course.{opening_scalars, declared_scalars};
ghost use Rattle.nest_mean.specs.NamesChanged.{changed_in_loop};
ghost use Rattle.nest_mean.specs.Added.{HasNames};
ghost use Rattle.nest_mean.specs.Saved.{AreSaved, taken_over};

use crate::few::{FewNames, listed};
use crate::jobs::Job;
use crate::saved::{put_aside, put_back};
use crate::values::Scalars;
use nest_syntax::{Decl, Loop, NoMemory, Program};
use std::alloc::Global;
use std::marker::Model;
use word_store::Words;

/// A run as it stands: its scalars, how many iterations are behind it, and its words.
#[derive(Debug, Drop)]
pub(crate) struct Run {
    pub(crate) scalars: RunScalars,
    pub(crate) number: u64,
    pub(crate) words: Words,
}

impl Run {
    /// A job's run as the regions begin.
    pub(crate) fn begin(alloc: Global, job: &Job) -> Result<Run, NoMemory>
        ensures scalars { IfOk result (λ run. run.scalars.present ≡ opening_scalars job.now.program) }
        ensures number { IfOk result (λ run. run.number ≡ 0) }
        ensures words { IfOk result (λ run. run.words ≡ job.now.opening) }
    {
        Ok(Run {
            scalars: RunScalars::first(alloc, job.checked().program())?,
            number: 0,
            words: job.words().copy(alloc)?,
        })
    }
}

/// The scalars of a run, with room to put as many aside.
#[derive(Debug, Drop)]
pub(crate) struct RunScalars {
    pub(crate) present: Scalars,
    aside: Scalars,
}

impl Model for RunScalars {
    ghost use Rattle.std.specs.Prelude.{◌≡◌, length};
    ghost use Rattle.nest_mean.specs.Saved.{SavedScalars};

    ghost Value = { SavedScalars };

    ghost view = { λ s. record { present = s.present; aside = s.aside } };

    ghost invariant = { λ s. length s.aside ≡ length s.present };
}

impl RunScalars {
    fn first(alloc: Global, program: &Program) -> Result<RunScalars, NoMemory>
        ensures { IfOk result (λ made. made.present ≡ opening_scalars program.now) }
    {
        let names = program.names.len();
        let mut present = Scalars::zeros(alloc, names)?;
        let aside = Scalars::zeros(alloc, names)?;
        declare_scalars(program.decls.as_slice(), &mut present);
        Ok(RunScalars { present, aside })
    }

    pub(crate) fn present(&self) -> &Scalars
        ensures { result.now ≡ self.now.present }
    {
        &self.present
    }

    pub(crate) fn set(&mut self, name: u32, value: i64)
        ensures present { self.new.present ≡ with_scalar self.old.present name value }
        ensures aside { self.new.aside ≡ self.old.aside }
    {
        self.present.set(name, value);
    }

    /// Puts the scalars that an invocation changes aside.
    pub(crate) fn put_aside(&mut self, invoked: &Loop)
        ensures present { self.new.present ≡ self.old.present }
        ensures saved { AreSaved (changed_in_loop invoked.now) self.old.present self.new.aside }
    {
        put_aside(invoked, &self.present, &mut self.aside);
    }

    /// Puts them back, by a list of their names where there is one.
    pub(crate) fn put_back(&mut self, invoked: &Loop, names: &Option<FewNames>)
        requires { IfSome names.now (λ list. HasNames list.items (changed_in_loop invoked.now)) }
        ensures present { self.new.present ≡ taken_over (changed_in_loop invoked.now) self.old.aside self.old.present }
        ensures aside { self.new.aside ≡ self.old.aside }
    {
        put_back(invoked, listed(names), &self.aside, &mut self.present);
    }
}

fn declare_scalars(decls: &[Decl], scalars: &mut Scalars)
    ensures { scalars.new ≡ declared_scalars decls.now scalars.old }
{
    for decl in decls {
        match decl {
            Decl::Scalar { name, value, .. } => scalars.set(*name, *value),
            Decl::Array { .. } => {}
        }
    }
}
