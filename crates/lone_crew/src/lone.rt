ghost use Rattle.std.specs.Prelude.{◌≡◌, ◌+◌, ◌<◌, ◌≤◌, true, ◌++◌, length, vec_len, vec_capacity, IfOk, OnOk, OnErr};
ghost use Rattle.progress_board.specs.Actors.{actors_of};
ghost use Rattle.progress_board.specs.Runs.{IsLegal, Agrees};
ghost use Rattle.progress_board.specs.Rotation.{up_to, rounds, rotation, GoesOn, StopsIn};
ghost use Rattle.lone_crew.specs.Turns.{Looked, Rotates};

use nest_syntax::NoMemory;
use progress_board::{Ask, Machine};

/// Drives a machine to its end, on the caller's thread.
///
/// It looks at the actors of the schedule in order, and then at all actors, 0 to W + 1, again and again, until the
/// machine is finished. Each actor that has an enabled row makes one step; a number that is no actor's, or an actor
/// with no enabled row, is passed over. The steps that are made are appended to the history, in order, also where
/// memory runs out: then machine and history agree, and the run may be taken up again.
///
/// After `history.reserve(n)` the next n steps take no memory.
pub fn lone_run<M: Machine>(
    machine: &mut M,
    schedule: &[u8],
    history: &mut Vec<u8>,
) -> Result<(), NoMemory>
    ensures finished { OnOk result (M.is_finished machine.new ≡ true) }
    ensures rotation { OnOk result (history.new.items ≡ history.old.items ++ rotation M.step M.measure machine.old (actors_of (M.options_of machine.old)) schedule.now) }
    ensures agrees { Agrees M.step machine.old history.old.items machine.new history.new.items }

    // Where memory runs out, it stops within the same looks.
    ensures stopped { OnErr result (StopsIn M.step machine.old history.old.items (schedule.now ++ rounds (actors_of (M.options_of machine.old)) (M.measure machine.old)) machine.new history.new.items) }

    // No more steps than the measure of the machine.
    ensures bound { length history.new.items + M.measure machine.new ≤ length history.old.items + M.measure machine.old }

    // Memory runs out only where the history is full.
    ensures room { OnErr result (vec_capacity history.old ≤ vec_len history.new) }
{
    let actors = count_actors(machine);
    follow(machine, schedule, history)?;
    rotate(machine, actors, history)?;
    Ok(())
}

// Looks at all actors, again and again, until the machine is finished.
pub(crate) fn rotate<M: Machine>(
    machine: &mut M,
    actors: u8,
    history: &mut Vec<u8>,
) -> Result<(), NoMemory>
    requires { actors ≡ actors_of (M.options_of machine.old) }
    ensures finished { OnOk result (M.is_finished machine.new ≡ true) }
    ensures rotates { OnOk result (Rotates M.step M.measure actors machine.old history.old.items machine.new history.new.items) }
    ensures stopped { OnErr result (StopsIn M.step machine.old history.old.items (rounds actors (M.measure machine.old)) machine.new history.new.items) }
    ensures room { OnErr result (vec_capacity history.old ≤ vec_len history.new) }
{
    'rounds: while !machine.finished() {
        round(machine, actors, history)?;
    }
    Ok(())
}

// How many actors the machine has, the scheduler and the checker counted.
pub(crate) fn count_actors<M: Machine>(machine: &M) -> u8
    ensures count { result ≡ actors_of (M.options_of machine.now) }
    ensures legal { IsLegal M.job_of M.options_of M.opens M.step machine.now }
{
    machine.options().workers + 2
}

// Looks at the entries of a schedule, in order.
fn follow<M: Machine>(
    machine: &mut M,
    schedule: &[u8],
    history: &mut Vec<u8>,
) -> Result<(), NoMemory>
    ensures goes { OnOk result (GoesOn M.step machine.old history.old.items schedule.now machine.new history.new.items) }
    ensures stopped { OnErr result (StopsIn M.step machine.old history.old.items schedule.now machine.new history.new.items) }
    ensures kept { M.options_of machine.new ≡ M.options_of machine.old }
    ensures room { OnErr result (vec_capacity history.old ≤ vec_len history.new) }
    ensures capacity { vec_capacity history.old ≤ vec_capacity history.new }
{
    for entry in schedule {
        follow_entry(machine, *entry, history)?;
    }
    Ok(())
}

// Lets the actor of a schedule's entry make its step. False says that the entry names no actor, or that its actor has
// no step.
pub(crate) fn follow_entry<M: Machine>(
    machine: &mut M,
    entry: u8,
    history: &mut Vec<u8>,
) -> Result<bool, NoMemory>
    ensures looked { IfOk result (Looked M.step machine.old history.old.items entry machine.new history.new.items) }
    ensures same { OnErr result ((machine.new ≡ machine.old) × (history.new.items ≡ history.old.items)) }
    ensures kept { M.options_of machine.new ≡ M.options_of machine.old }
    ensures room { OnErr result (vec_capacity history.old ≤ vec_len history.new) }
    ensures capacity { vec_capacity history.old ≤ vec_capacity history.new }
{
    if entry >= count_actors(machine) {
        return Ok(false);
    }
    look(machine, entry, history)
}

// Looks at each actor once, from 0 on.
fn round<M: Machine>(machine: &mut M, actors: u8, history: &mut Vec<u8>) -> Result<(), NoMemory>
    requires { actors ≡ actors_of (M.options_of machine.old) }
    ensures goes { OnOk result (GoesOn M.step machine.old history.old.items (up_to actors) machine.new history.new.items) }
    ensures stopped { OnErr result (StopsIn M.step machine.old history.old.items (up_to actors) machine.new history.new.items) }
    ensures kept { M.options_of machine.new ≡ M.options_of machine.old }
    ensures room { OnErr result (vec_capacity history.old ≤ vec_len history.new) }
    ensures capacity { vec_capacity history.old ≤ vec_capacity history.new }
{
    for actor in 0..actors {
        look(machine, actor, history)?;
    }
    Ok(())
}

// Lets an actor make its step, if it has one. The room in the history is taken first, so that a step that was made is
// never lost.
fn look<M: Machine>(machine: &mut M, actor: u8, history: &mut Vec<u8>) -> Result<bool, NoMemory>
    requires { actor < actors_of (M.options_of machine.old) }
    ensures looked { IfOk result (Looked M.step machine.old history.old.items actor machine.new history.new.items) }
    ensures same { OnErr result ((machine.new ≡ machine.old) × (history.new.items ≡ history.old.items)) }
    ensures kept { M.options_of machine.new ≡ M.options_of machine.old }
    ensures room { OnErr result (vec_capacity history.old ≤ vec_len history.new) }
    ensures capacity { vec_capacity history.old ≤ vec_capacity history.new }
{
    let Ask::Ready(asked) = machine.ask(actor) else {
        return Ok(false);
    };
    history.reserve(1)?;
    let Ok(_made) = machine.give(actor, asked.done()) else {
        unreachable!();
    };
    history.push(actor).unwrap();
    Ok(true)
}
