ghost use Rattle.std.specs.Prelude.{◌≡◌, true, IfOk};
ghost use Rattle.nest_runtime.specs.Ran.{outcome_told};

use nest_mean::Outcome;
use nest_syntax::NoMemory;
use progress_board::{Ending, Facts, Machine};
use std::alloc::Global;

/// What a run comes to: its outcome, the facts of its steps, and the steps, each by the number of its actor.
#[derive(Drop)]
pub struct Ran {
    pub outcome: Outcome,
    pub facts: Facts,
    pub history: Vec<u8>,
}

impl Ran {
    // What a finished machine tells, with the steps that led to it.
    pub(crate) fn told<M: Machine>(
        alloc: Global,
        machine: &M,
        history: Vec<u8>,
    ) -> Result<Ran, NoMemory>
        requires { M.is_finished machine.now ≡ true }
        ensures outcome { IfOk result (λ ran. ran.outcome ≡ outcome_told (M.ending_of machine.now) (M.words_of machine.now)) }
        ensures facts { IfOk result (λ ran. ran.facts ≡ M.facts_of machine.now) }
        ensures history { IfOk result (λ ran. ran.history.items ≡ history.items) }
    {
        Ok(Ran {
            outcome: outcome_of(alloc, machine)?,
            facts: *machine.facts(),
            history,
        })
    }
}

fn outcome_of<M: Machine>(alloc: Global, machine: &M) -> Result<Outcome, NoMemory>
    requires { M.is_finished machine.now ≡ true }
    ensures { IfOk result (λ outcome. outcome ≡ outcome_told (M.ending_of machine.now) (M.words_of machine.now)) }
{
    match machine.ending() {
        Ending::Done => Ok(Outcome::Done(machine.words().copy(alloc)?)),
        Ending::Trapped(place) => Ok(Outcome::Trapped(place)),
        Ending::Unfinished => unreachable!(),
    }
}
