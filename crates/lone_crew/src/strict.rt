ghost use Rattle.std.specs.Prelude.{◌≡◌, ◌+◌, ◌≤◌, true, ◌++◌, length, vec_len, vec_capacity, OnOk, IfErr};
ghost use Rattle.progress_board.specs.Actors.{actors_of};
ghost use Rattle.progress_board.specs.Runs.{Agrees};
ghost use Rattle.progress_board.specs.Rotation.{taken, rounds, rotation};
ghost use Rattle.lone_crew.specs.Turns.{Makes};
ghost use Rattle.lone_crew.specs.Refusals.{IsRefused, IsFull};

use crate::lone::{count_actors, follow_entry, rotate};
use crate::refused::StepRefused;
use progress_board::Machine;

/// Makes given steps, and then drives the machine to its end as `lone_run` does.
///
/// `Step` has the number, from 0, of the first step that names no actor, or whose actor has no enabled row; the steps
/// before it are made then. What is appended to the history is exactly the steps that were made, in order, at a refusal
/// too.
///
/// After `history.reserve(n)` the next n steps take no memory.
pub fn strict_run<M: Machine>(
    machine: &mut M,
    steps: &[u8],
    history: &mut Vec<u8>,
) -> Result<(), StepRefused>
    ensures finished { OnOk result (M.is_finished machine.new ≡ true) }
    ensures enabled { OnOk result (taken M.step machine.old steps.now ≡ steps.now) }
    ensures rotation { OnOk result (history.new.items ≡ history.old.items ++ rotation M.step M.measure machine.old (actors_of (M.options_of machine.old)) steps.now) }
    ensures agrees { Agrees M.step machine.old history.old.items machine.new history.new.items }
    ensures refused { IfErr result (IsRefused M.step machine.old history.old.items steps.now (steps.now ++ rounds (actors_of (M.options_of machine.old)) (M.measure machine.old)) machine.new history.new.items) }

    // No more steps than the measure of the machine.
    ensures bound { length history.new.items + M.measure machine.new ≤ length history.old.items + M.measure machine.old }

    // Memory runs out only where the history is full.
    ensures room { IfErr result (IsFull (vec_capacity history.old) (vec_len history.new)) }
{
    let actors = count_actors(machine);
    make_steps(machine, steps, history)?;
    rotate(machine, actors, history)?;
    Ok(())
}

// Makes the steps of a list, in order.
fn make_steps<M: Machine>(
    machine: &mut M,
    steps: &[u8],
    history: &mut Vec<u8>,
) -> Result<(), StepRefused>
    ensures made { OnOk result (Makes M.step machine.old history.old.items steps.now machine.new history.new.items) }
    ensures refused { IfErr result (IsRefused M.step machine.old history.old.items steps.now steps.now machine.new history.new.items) }
    ensures kept { M.options_of machine.new ≡ M.options_of machine.old }
    ensures room { IfErr result (IsFull (vec_capacity history.old) (vec_len history.new)) }
    ensures capacity { vec_capacity history.old ≤ vec_capacity history.new }
{
    for number in 0..steps.len() {
        if !follow_entry(machine, steps[number], history)? {
            return Err(StepRefused::Step(number as u64));
        }
    }
    Ok(())
}
