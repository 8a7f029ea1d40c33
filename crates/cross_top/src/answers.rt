ghost use Rattle.std.specs.Prelude.{◌≡◌, ◌≤◌, true, false, IfOk, length};
ghost use Rattle.nest_io.specs.declared.transfer.TheConstants.{MOST_BYTES};
ghost use Rattle.nest_gen.specs.Generated.{generated};
ghost use Rattle.cross_top.specs.Answers.{refusal, refused_answer, plain_answer, check_answer, deps_answer, gen_answer};
ghost use Rattle.cross_top.specs.Answers.{Answers, AnswersInput, AnswersProgram, AnswersData, AnswersPlain, AnswersAlone, AnswersReplay, AnswersProfile, is_gen};
ghost use Rattle.progress_board.specs.Options.{IsInRange};
ghost use Rattle.cross_top.specs.Words.{IsAnswerable, is_answered};

use crate::alone::alone;
use crate::profile::profile;
use crate::refusals::reason_text;
use crate::replay::replay;
use crate::status::Status;
use cross_words::{Action, Call};
use nest_check::Checked;
use nest_data::print_words;
use nest_gen::generate;
use nest_input::{InputRefused, Refusal, read_nest, read_words};
use nest_mean::{Job, Outcome, run_plain};
use nest_print::print_program;
use nest_report::{print_deps, print_place};
use nest_syntax::NoMemory;
use std::alloc::Global;
use std::marker::Model;

/// What is due: a status, the bytes to print, and the steps that an engine made.
#[derive(Drop)]
pub struct Reply {
    pub status: Status,
    pub text: Vec<u8>,
    pub history: Vec<u8>,
}

impl Model for Reply {
    ghost use Rattle.cross_top.specs.Answers.{Answer};

    ghost Value = { Answer };

    ghost view = { λ r. record { status = r.status; bytes = r.text.items; history = r.history.items } };
}

/// The line of a refusal.
pub fn refusal(alloc: Global, status: Status, reason: &[u8]) -> Result<Reply, NoMemory>
    ensures { IfOk result (λ reply. reply ≡ refusal status reason.now) }
{
    let mut text = Vec::from_slice(alloc, b"refused: ")?;
    text.extend_from_slice(reason)?;
    text.push(b'\n')?;
    Ok(Reply {
        status,
        text,
        history: Vec::new(alloc),
    })
}

/// The answer to an input that is refused.
pub fn refused(alloc: Global, why: Refusal) -> Result<Reply, NoMemory>
    ensures { IfOk result (λ reply. reply ≡ refused_answer why) }
{
    let reason = reason_text(alloc, &why)?;
    refusal(alloc, Status::TextRefused, reason.as_slice())
}

/// What a call that reads nothing answers: `gen` prints the input that is generated, `big` runs it.
pub fn answer_generated(alloc: Global, call: &Call) -> Result<Reply, NoMemory>
    requires { IsAnswerable call.now }
    ensures { IfOk result (λ reply. Answers call.now (generated call.now.seed call.now.size) reply) }
{
    let text = generate(alloc, call.seed, call.size)?;
    if is_gen(call.action) {
        Ok(done(alloc, text))
    } else {
        answer_input(alloc, call, text.as_slice())
    }
}

/// Whether an action prints what is generated.
fn is_gen(action: Action) -> bool
    ensures { result ≡ is_gen action }
{
    matches!(action, Action::Gen)
}

/// A text that is done, of no engine.
fn done(alloc: Global, text: Vec<u8>) -> Reply
    ensures { result ≡ gen_answer text.items }
{
    Reply {
        status: Status::Done,
        text,
        history: Vec::new(alloc),
    }
}

/// What a call answers to an input.
pub fn answer_input(alloc: Global, call: &Call, input: &[u8]) -> Result<Reply, NoMemory>
    requires few { length input.now ≤ MOST_BYTES }
    requires answerable { IsAnswerable call.now }
    requires no_gen { is_gen call.now.action ≡ false }
    ensures { IfOk result (λ reply. AnswersInput call.now input.now reply) }
{
    match read_nest(alloc, input) {
        Ok(checked) => answer_program(alloc, call.action, call, input, checked),
        Err(InputRefused::Refused(why)) => refused(alloc, why),
        Err(InputRefused::NoMemory) => Err(NoMemory),
    }
}

/// What a call of this action answers to an input with this program.
fn answer_program(
    alloc: Global,
    action: Action,
    call: &Call,
    input: &[u8],
    checked: Checked,
) -> Result<Reply, NoMemory>
    requires few { length input.now ≤ MOST_BYTES }
    requires in_range { IsInRange call.now.options }
    requires answered { is_answered action ≡ true }
    requires no_gen { is_gen action ≡ false }
    ensures { IfOk result (λ reply. AnswersProgram action call.now input.now checked reply) }
{
    match action {
        Action::Plain => plain_of(alloc, input, checked),
        Action::Check => canonical(alloc, &checked),
        Action::Deps => kinds(alloc, &checked),
        Action::Alone => alone_of(alloc, call, input, checked),
        Action::Big => alone_of(alloc, call, input, checked),
        Action::Replay => replay_of(alloc, call, input, checked),
        Action::Profile => profile_of(alloc, call, input, checked),
        Action::Gen => unreachable!(),
        Action::Run => unreachable!(),
    }
}

/// The canonical text of a program.
fn canonical(alloc: Global, checked: &Checked) -> Result<Reply, NoMemory>
    ensures { IfOk result (λ reply. reply ≡ check_answer checked.now) }
{
    let text = print_program(alloc, checked.program())?;
    Ok(Reply {
        status: Status::Done,
        text,
        history: Vec::new(alloc),
    })
}

/// The kind of each loop of a program that invokes a body.
fn kinds(alloc: Global, checked: &Checked) -> Result<Reply, NoMemory>
    ensures { IfOk result (λ reply. reply ≡ deps_answer checked.now) }
{
    let text = print_deps(alloc, checked)?;
    Ok(Reply {
        status: Status::Done,
        text,
        history: Vec::new(alloc),
    })
}

/// What `plain` answers to an input with this program.
fn plain_of(alloc: Global, input: &[u8], checked: Checked) -> Result<Reply, NoMemory>
    requires { length input.now ≤ MOST_BYTES }
    ensures { IfOk result (λ reply. AnswersData (AnswersPlain checked) input.now checked reply) }
{
    match read_words(alloc, input, &checked) {
        Ok(words) => plain(alloc, &Job::new(checked, words)),
        Err(InputRefused::Refused(why)) => refused(alloc, why),
        Err(InputRefused::NoMemory) => Err(NoMemory),
    }
}

/// What `alone` or `big` answers to an input with this program.
fn alone_of(alloc: Global, call: &Call, input: &[u8], checked: Checked) -> Result<Reply, NoMemory>
    requires few { length input.now ≤ MOST_BYTES }
    requires in_range { IsInRange call.now.options }
    ensures { IfOk result (λ reply. AnswersData (AnswersAlone call.now checked) input.now checked reply) }
{
    match read_words(alloc, input, &checked) {
        Ok(words) => alone(alloc, call, Job::new(checked, words)),
        Err(InputRefused::Refused(why)) => refused(alloc, why),
        Err(InputRefused::NoMemory) => Err(NoMemory),
    }
}

/// What `replay` answers to an input with this program.
fn replay_of(alloc: Global, call: &Call, input: &[u8], checked: Checked) -> Result<Reply, NoMemory>
    requires few { length input.now ≤ MOST_BYTES }
    requires in_range { IsInRange call.now.options }
    ensures { IfOk result (λ reply. AnswersData (AnswersReplay call.now input.now checked) input.now checked reply) }
{
    match read_words(alloc, input, &checked) {
        Ok(words) => replay(alloc, call, input, Job::new(checked, words)),
        Err(InputRefused::Refused(why)) => refused(alloc, why),
        Err(InputRefused::NoMemory) => Err(NoMemory),
    }
}

/// What `profile` answers to an input with this program.
fn profile_of(alloc: Global, call: &Call, input: &[u8], checked: Checked) -> Result<Reply, NoMemory>
    requires few { length input.now ≤ MOST_BYTES }
    requires in_range { IsInRange call.now.options }
    ensures { IfOk result (λ reply. AnswersData (AnswersProfile call.now checked) input.now checked reply) }
{
    match read_words(alloc, input, &checked) {
        Ok(words) => profile(alloc, call, &Job::new(checked, words)),
        Err(InputRefused::Refused(why)) => refused(alloc, why),
        Err(InputRefused::NoMemory) => Err(NoMemory),
    }
}

/// The outcome of textual order.
fn plain(alloc: Global, job: &Job) -> Result<Reply, NoMemory>
    ensures { IfOk result (λ reply. reply ≡ plain_answer job.now.program job.now.opening.words) }
{
    match run_plain(alloc, job)? {
        Outcome::Done(words) => {
            let text = print_words(alloc, &words, job.checked())?;
            Ok(Reply {
                status: Status::Done,
                text,
                history: Vec::new(alloc),
            })
        }
        Outcome::Trapped(place) => {
            let text = print_place(alloc, &place)?;
            Ok(Reply {
                status: Status::Trapped,
                text,
                history: Vec::new(alloc),
            })
        }
    }
}
