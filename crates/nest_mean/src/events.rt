ghost use Rattle.std.specs.Prelude.{◌≡◌, ◌<◌, ◌≤◌, ℕ, [], ◌∷◌, if◌then◌else◌, IfOk, FitsSigned};
ghost use Rattle.std.specs.List.{list_any};
ghost use Rattle.std.specs.Int.{w64};
ghost use Rattle.nest_syntax.specs.Words.{variable, most_turns};
ghost use Rattle.nest_syntax.specs.Arrays.{arrays_of};
ghost use Rattle.nest_syntax.specs.Value.{value, names_written, is_written};
ghost use Rattle.word_store.specs.Memory.{HasLayout};
ghost use Rattle.nest_mean.specs.CourseParts.{event_words, header, value_changed};

use crate::bodies::turns_of;
use crate::expressions::eval;
use crate::jobs::Job;
use crate::run::Run;
use crate::values::Scalars;
use nest_check::Checked;
use nest_syntax::{Cause, Decl, Expr, Loop, Op};
use word_store::{Words, assign};

/// What the scheduler evaluates.
pub(crate) fn scheduled(expr: &Expr, run: &Run, job: &Job) -> Result<i64, Cause>
    requires { HasLayout run.now.words job.now.program.decls }
    ensures { result ≡ value (arrays_of job.now.program.decls) run.now.scalars.present
        (event_words (arrays_of job.now.program.decls) (expr.now ∷ []) run.now.words.words job.now.opening.words) expr.now }
{
    let checked = job.checked();
    let words = words_of_event(names_written(expr, checked), run, job);
    eval(expr, run.scalars.present(), words, checked)
}

/// The low bound and the count of turns of a region or an invocation.
pub(crate) fn scheduled_header(headed: &Loop, run: &Run, job: &Job) -> Result<(i64, u64), Cause>
    requires { HasLayout run.now.words job.now.program.decls }
    ensures value { result ≡ header (arrays_of job.now.program.decls) headed.now run.now.scalars.present
        (event_words (arrays_of job.now.program.decls) (headed.now.low ∷ headed.now.high ∷ []) run.now.words.words job.now.opening.words) }
    ensures reach { IfOk result (λ b. (k : ℕ) → k < b.1 → FitsSigned w64 (variable b.0 headed.now.step k)) }
    ensures count { IfOk result (λ b. b.1 ≤ most_turns) }
{
    let checked = job.checked();
    let words = words_of_event(has_drain(headed, checked), run, job);
    header_on(headed, run.scalars.present(), words, checked)
}

fn header_on(
    headed: &Loop,
    scalars: &Scalars,
    words: &Words,
    checked: &Checked,
) -> Result<(i64, u64), Cause>
    requires { HasLayout words.now checked.now.decls }
    ensures value { result ≡ header (arrays_of checked.now.decls) headed.now scalars.now words.now.words }
    ensures reach { IfOk result (λ b. (k : ℕ) → k < b.1 → FitsSigned w64 (variable b.0 headed.now.step k)) }
    ensures count { IfOk result (λ b. b.1 ≤ most_turns) }
{
    let low = eval(&headed.low, scalars, words, checked)?;
    let high = eval(&headed.high, scalars, words, checked)?;
    let count = turns_of(low, high, headed.step, headed.through)?;
    Ok((low, count))
}

/// The value that `=` and `op=` among the items give a scalar.
pub(crate) fn changed_value(
    name: u32,
    op: Op,
    value: &Expr,
    run: &Run,
    job: &Job,
) -> Result<i64, Cause>
    requires { HasLayout run.now.words job.now.program.decls }
    ensures { result ≡ value_changed (arrays_of job.now.program.decls) name op value.now run.now.scalars.present
        (event_words (arrays_of job.now.program.decls) (value.now ∷ []) run.now.words.words job.now.opening.words) }
{
    let right = scheduled(value, run, job)?;
    assign(op, run.scalars.present().get(name), right)
}

// The words of an event. One that names a written array is a drain: it reads the present words. Any other reads `const`
// words alone, which are what they were at the opening.
fn words_of_event<'a>(drains: bool, run: &'a Run, job: &'a Job) -> &'a Words
    requires { HasLayout run.now.words job.now.program.decls }
    ensures words { result.now.words ≡ (if drains then run.now.words.words else job.now.opening.words) }
    ensures sizes { HasLayout result.now job.now.program.decls }
{
    if drains { &run.words } else { job.words() }
}

// Whether a bound names a written array.
#[tactic(auto, using(crate::proofs::Scan::either_of_two))]
fn has_drain(headed: &Loop, checked: &Checked) -> bool
    ensures { result ≡ list_any (names_written (arrays_of checked.now.decls)) (headed.now.low ∷ headed.now.high ∷ []) }
{
    names_written(&headed.low, checked) || names_written(&headed.high, checked)
}

// Whether an expression names a written array.
fn names_written(expr: &Expr, checked: &Checked) -> bool
    ensures { result ≡ names_written (arrays_of checked.now.decls) expr.now }
{
    match expr {
        Expr::Number(_) | Expr::Scalar(_) => false,
        Expr::Word(name, place) => is_written(*name, checked.program().decls.as_slice())
            || names_written(place.get(), checked),
        Expr::Unary(_, part) => names_written(part.get(), checked),
        Expr::Binary(_, left, right) => {
            names_written(left.get(), checked) || names_written(right.get(), checked)
        }
        Expr::Choice(test, first, second) => {
            names_written(test.get(), checked)
                || names_written(first.get(), checked)
                || names_written(second.get(), checked)
        }
    }
}

fn is_written(name: u32, decls: &[Decl]) -> bool
    ensures { result ≡ is_written (arrays_of decls.now) name }
{
    for decl in decls {
        match decl {
            Decl::Array {
                name: declared,
                fixed,
                ..
            } => {
                if *declared == name {
                    return !*fixed;
                }
            }
            Decl::Scalar { .. } => {}
        }
    }
    false
}
