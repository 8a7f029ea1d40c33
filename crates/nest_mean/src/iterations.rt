ghost use Rattle.std.specs.Prelude.{◌≡◌, ◌+◌, ◌<◌, ◌^◌, ℕ, [], ◌∷◌, FitsSigned, IfSome};
ghost use Rattle.std.specs.Int.{w64};
ghost use Rattle.nest_syntax.specs.Words.{variable};
ghost use Rattle.nest_syntax.specs.Locals.{locals_of};
ghost use Rattle.nest_mean.specs.NamesChanged.{names_changed};
ghost use Rattle.nest_mean.specs.Added.{HasNames};
ghost use Rattle.nest_mean.specs.CourseParts.{IsReady, Iterates, IteratesAll, setting_in, at_iteration, next_number};

use crate::bodies::{TurnTrap, run_body};
use crate::few::{FewNames, few_changed, few_locals, listed};
use crate::jobs::Job;
use crate::run::Run;
use nest_syntax::{Loop, Place, Stmt};
use std::slice;
use word_store::value_in_turn;

/// The iterations of an invocation whose bounds are known. Behind each the scalars are what they were.
pub(crate) fn run_iterations(
    invoked: &Loop,
    low: i64,
    count: u64,
    run: &mut Run,
    job: &Job,
) -> Result<(), Place>
    requires ready { IsReady job.now count run.old }
    requires reach { (k : ℕ) → k < count → FitsSigned w64 (variable low invoked.now.step k) }
    ensures { IteratesAll (setting_in job.now) invoked.now low count result run.old run.new }
{
    let names = few_changed(invoked);
    let locals = few_locals(invoked.body.as_slice());
    run.scalars.put_aside(invoked);
    for k in 0..count {
        let value = value_in_turn(low, invoked.step, k);
        run.scalars.set(invoked.name, value);
        run_iteration(invoked.body.as_slice(), &locals, run, job)?;
        run.scalars.put_back(invoked, &names);
    }
    Ok(())
}

/// The one iteration of a statement that writes a word.
pub(crate) fn run_write(stmt: &Stmt, run: &mut Run, job: &Job) -> Result<(), Place>
    requires { IsReady job.now 1 run.old }
    ensures { Iterates (setting_in job.now) (stmt.now ∷ []) (names_changed (stmt.now ∷ [])) result run.old run.new }
{
    run_iteration(slice::from_ref(stmt), &None, run, job)
}

fn run_iteration(
    body: &[Stmt],
    locals: &Option<FewNames>,
    run: &mut Run,
    job: &Job,
) -> Result<(), Place>
    requires ready { IsReady job.now 1 run.old }
    requires locals { IfSome locals.now (λ list. HasNames list.items (locals_of body.now)) }
    ensures { Iterates (setting_in job.now) body.now (names_changed body.now) result run.old run.new }
{
    let scalars = &mut run.scalars.present;
    let ended = run_body(body, listed(locals), scalars, &mut run.words, job.checked());
    count_iteration(ended, &mut run.number)
}

fn count_iteration(ended: Result<(), TurnTrap>, number: &mut u64) -> Result<(), Place>
    requires { number.old + 1 < 2 ^ 64 }
    ensures answer { result ≡ at_iteration number.old ended }
    ensures count { number.new ≡ next_number number.old ended }
{
    match ended {
        Ok(()) => {
            *number += 1;
            Ok(())
        }
        Err(trap) => Err(Place {
            cause: trap.cause,
            line: trap.line,
            number: *number,
            by_scheduler: false,
        }),
    }
}
