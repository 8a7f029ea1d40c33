ghost use Rattle.std.specs.Prelude.{◌≡◌, ◌++◌, true, IfOk};
ghost use Rattle.word_store.specs.Memory.{HasLayout};
ghost use Rattle.nest_mean.specs.Outcomes.{outcome};
ghost use Rattle.progress_board.specs.Options.{IsInRange};
ghost use Rattle.nest_data.specs.Sum.{written_words, sum_of};
ghost use Rattle.nest_data.specs.Text.{array_lines};
ghost use Rattle.nest_report.specs.Report.{report_text, summary_text};
ghost use Rattle.cross_top.specs.Answers.{AnswersAlone, is_summary, done_text, told_steps, steps_part, ended, told};

use crate::answers::Reply;
use crate::status::Status;
use cross_words::{Action, Call};
use nest_check::Checked;
use nest_data::{print_words, sum_words};
use nest_mean::{Job, Outcome};
use nest_report::{print_place, print_report, print_steps, print_summary};
use nest_runtime::{Ran, run_alone};
use nest_syntax::NoMemory;
use progress_board::Facts;
use std::alloc::Global;
use word_store::Words;

/// The outcome of a job by its engine on one thread, by the rotation, told as the call asks.
pub fn alone(alloc: Global, call: &Call, job: Job) -> Result<Reply, NoMemory>
    requires { IsInRange call.now.options }
    ensures { IfOk result (λ reply. AnswersAlone call.now job.program job.opening.words reply) }
{
    // The engine takes the job, and what is told goes by the copy.
    let copy = job.copy(alloc)?;
    let ran = run_alone(alloc, job, call.options, &[])?;
    told(alloc, call, &copy, ran)
}

/// What is told of a run of a job.
pub fn told(alloc: Global, call: &Call, job: &Job, ran: Ran) -> Result<Reply, NoMemory>
    requires { ran.outcome ≡ outcome job.now }
    ensures { IfOk result (λ reply. reply ≡ told call.now job.now.program ran.facts ran.history.items (outcome job.now)) }
{
    let Ran {
        outcome,
        facts,
        history,
    } = ran;
    match outcome {
        Outcome::Done(words) => {
            let text = done_text(alloc, call, job.checked(), &words, &facts)?;
            ended(alloc, call, Status::Done, text, history)
        }
        Outcome::Trapped(place) => {
            let text = print_place(alloc, &place)?;
            ended(alloc, call, Status::Trapped, text, history)
        }
    }
}

/// The arrays and the report, or the summary.
fn done_text(
    alloc: Global,
    call: &Call,
    checked: &Checked,
    words: &Words,
    facts: &Facts,
) -> Result<Vec<u8>, NoMemory>
    requires { HasLayout words.now checked.now.decls }
    ensures { IfOk result (λ text. text.items ≡ done_text call.now checked.now words.now facts.now) }
{
    if is_summary(call.action) {
        summary(alloc, call, checked, words, facts)
    } else {
        arrays_and_report(alloc, checked, words, facts)
    }
}

/// The summary of a run that is done.
fn summary(
    alloc: Global,
    call: &Call,
    checked: &Checked,
    words: &Words,
    facts: &Facts,
) -> Result<Vec<u8>, NoMemory>
    requires { HasLayout words.now checked.now.decls }
    ensures { IfOk result (λ text. text.items ≡ summary_text call.now.seed call.now.size facts.now (sum_of (written_words words.now 0 checked.now.decls))) }
{
    let sum = sum_words(words, checked);
    print_summary(alloc, call.seed, call.size, facts, sum)
}

/// Its arrays, and then its report.
fn arrays_and_report(
    alloc: Global,
    checked: &Checked,
    words: &Words,
    facts: &Facts,
) -> Result<Vec<u8>, NoMemory>
    requires { HasLayout words.now checked.now.decls }
    ensures { IfOk result (λ text. text.items ≡ array_lines checked.now.names words.now 0 checked.now.decls ++ report_text checked.now facts.now) }
{
    let mut text = print_words(alloc, words, checked)?;
    let report = print_report(alloc, facts, checked)?;
    text.extend_from_slice(report.as_slice())?;
    Ok(text)
}

/// A text with the steps of its run, where the call shows them.
fn ended(
    alloc: Global,
    call: &Call,
    status: Status,
    mut text: Vec<u8>,
    history: Vec<u8>,
) -> Result<Reply, NoMemory>
    ensures { IfOk result (λ reply. reply ≡ ended call.now status text.items history.items) }
{
    let part = steps_part(alloc, call, history.as_slice())?;
    text.extend_from_slice(part.as_slice())?;
    Ok(Reply {
        status,
        text,
        history: told_steps(alloc, call, history),
    })
}

/// The text of the steps, where the words ask for it.
fn steps_part(alloc: Global, call: &Call, history: &[u8]) -> Result<Vec<u8>, NoMemory>
    ensures { IfOk result (λ part. part.items ≡ steps_part call.now history.now) }
{
    if is_summary(call.action) {
        return Ok(Vec::new(alloc));
    }
    if call.with_steps {
        print_steps(alloc, history)
    } else {
        Ok(Vec::new(alloc))
    }
}

/// The steps that are handed back.
fn told_steps(alloc: Global, call: &Call, history: Vec<u8>) -> Vec<u8>
    ensures { result.items ≡ told_steps call.now history.items }
{
    if is_summary(call.action) {
        Vec::new(alloc)
    } else {
        history
    }
}

/// Whether an action tells of a run its sum alone.
fn is_summary(action: Action) -> bool
    ensures { result ≡ is_summary action }
{
    matches!(action, Action::Big)
}
