//! What the scheduler computes at an event.
ghost use Rattle.std.specs.Prelude.{◌≡◌, IfOk};
ghost use Rattle.nest_syntax.specs.Arrays.{arrays_of};
ghost use Rattle.nest_syntax.specs.Words.{turns, counted};
ghost use Rattle.nest_syntax.specs.Value.{value};
ghost use Rattle.word_store.specs.Memory.{HasLayout};
ghost use Rattle.sched_cursor.specs.Turning.{Reaches};
ghost use Rattle.sched_cursor.specs.Steps.{turning_of, changed, step_of, line_of};

use crate::node::{Header, Invocation, Next, Node, Region};
use crate::turning::Turning;
use nest_check::Checked;
use nest_mean::{Scalars, eval};
use nest_syntax::{Cause, Expr, Line, Op};
use word_store::{Words, assign, count_turns};

/// What an event changes.
#[derive(Debug, Drop)]
pub(crate) enum Step {
    Enter(Region),
    Change { name: u32, value: i64, next: Next },
    Go(Next),
    Invoke(Invocation),
}

impl Node {
    /// The line on which the statement, the arm or the loop begins.
    pub(crate) fn line(&self) -> Line
        ensures { result ≡ line_of self.now }
    {
        match self {
            Node::Region { header, .. } | Node::Invoke { header, .. } => header.line,
            Node::Change { line, .. } | Node::Test { line, .. } | Node::Write { line, .. } => *line,
        }
    }

    /// What the event changes, or the cause of its trap.
    pub(crate) fn step(
        &self,
        scalars: &Scalars,
        words: &Words,
        checked: &Checked,
    ) -> Result<Step, Cause>
        requires sizes { HasLayout words.now checked.now.decls }
        ensures { result ≡ step_of (arrays_of checked.now.decls) self.now scalars.now words.now.words }
    {
        match self {
            Node::Region {
                header,
                items,
                leave,
            } => Ok(Step::Enter(Region {
                name: header.name,
                turning: header.turning(scalars, words, checked)?,
                items: *items,
                leave: *leave,
            })),
            Node::Change {
                name,
                op,
                value,
                next,
                ..
            } => Ok(Step::Change {
                name: *name,
                value: changed(*name, *op, value, scalars, words, checked)?,
                next: *next,
            }),
            Node::Test {
                test,
                taken,
                otherwise,
                ..
            } => {
                let value = eval(test, scalars, words, checked)?;
                Ok(Step::Go(if value == 0 { *otherwise } else { *taken }))
            }
            Node::Invoke { header, body, next } => Ok(Step::Invoke(Invocation {
                body: *body,
                name: Some(header.name),
                turning: header.turning(scalars, words, checked)?,
                next: *next,
            })),
            Node::Write { body, next, .. } => Ok(Step::Invoke(Invocation {
                body: *body,
                name: None,
                turning: Turning::begin(0, 1, 1),
                next: *next,
            })),
        }
    }
}

impl Header {
    /// The turns of the loop: its low bound is evaluated, then its high bound.
    pub(crate) fn turning(
        &self,
        scalars: &Scalars,
        words: &Words,
        checked: &Checked,
    ) -> Result<Turning, Cause>
        requires sizes { HasLayout words.now checked.now.decls }
        ensures { result ≡ turning_of (arrays_of checked.now.decls) self.now scalars.now words.now.words }
    {
        let low = eval(&self.low, scalars, words, checked)?;
        let high = eval(&self.high, scalars, words, checked)?;
        let trips = turns_of(low, high, self.step, self.through)?;
        Ok(Turning::begin(low, self.step, trips))
    }
}

// The new value of a scalar under `=` or `op=`. The old one is read after the right side is evaluated.
fn changed(
    name: u32,
    op: Op,
    value: &Expr,
    scalars: &Scalars,
    words: &Words,
    checked: &Checked,
) -> Result<i64, Cause>
    requires sizes { HasLayout words.now checked.now.decls }
    ensures { result ≡ changed (arrays_of checked.now.decls) name op value.now scalars.now words.now.words }
{
    let right = eval(value, scalars, words, checked)?;
    assign(op, scalars.get(name), right)
}

// How often a loop turns. A step of 0, which no checked program has, has the count that the definition gives it.
fn turns_of(low: i64, high: i64, step: u64, through: bool) -> Result<u64, Cause>
    ensures count { result ≡ counted (turns low high step through) }
    ensures reach { IfOk result (λ n. Reaches low step n) }
{
    if step > 0 {
        return count_turns(low, high, step, through);
    }
    Ok(u64::from(through && low <= high))
}
