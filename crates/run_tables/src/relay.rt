use crate::jobs::{job_of, options};
use lone_crew::lone_run;
use nest_input::InputRefused;
use nest_syntax::NoMemory;
use progress_board::{Ask, Ending, Given, Machine, Options, Row, Work};
use std::alloc::Global;
use std::process::Abort;
use std::test::Fail;
use toy_machine::Relay;

// A machine on the empty nest.
fn open(rt: &impl Abort, alloc: Global, workers: u8, queue: u16) -> Result<Relay, InputRefused> {
    let job = job_of(rt, alloc, "")?;
    Ok(Relay::open(job, options(rt, workers, queue)))
}

// Drives a machine to its end. Each caller of `lone_run` shows that its machine may cross threads; this is the only one.
fn run(machine: &mut Relay, schedule: &[u8], history: &mut Vec<u8>) -> Result<(), NoMemory> {
    lone_run(machine, schedule, history)
}

// What a machine shows of itself.
fn shown(machine: &Relay) -> (bool, Ending, Options, usize, usize) {
    (
        machine.finished(),
        machine.ending(),
        machine.facts().options,
        machine.job().words().arrays(),
        machine.words().arrays(),
    )
}

// Workers, the room of a queue, the schedule, and the steps, found by hand.
#[test]
fn the_rotation_goes_on_behind_the_schedule(rt: HostRuntime) -> Result<(), Fail> {
    for (workers, queue, schedule, wanted) in [
        (2, 2, [].as_slice(), [2, 0, 2, 1, 2].as_slice()),
        (2, 2, &[2, 2, 2, 9, 3, 1, 0, 1], &[2, 2, 2, 0, 1]),
        (1, 1, &[], &[1, 0, 1]),
        (3, 1, &[3, 3], &[3, 3, 0]),
        (2, 1, &[0, 7, 255, 3], &[2, 0, 2]),
    ] {
        let mut machine = open(&rt, rt.alloc(), workers, queue)?;
        let mut history = Vec::new(rt.alloc());
        run(&mut machine, schedule, &mut history)?;
        assert_eq!(rt;
            history.as_slice(),
            wanted,
            "{workers} workers, room {queue}"
        );
        assert_eq!(rt;
            shown(&machine),
            (true, Ending::Done, options(&rt, workers, queue), 0, 0)
        );
    }
    Ok(())
}

fn ask(rt: &impl Abort, machine: &Relay, actor: u8) -> Ask {
    let workers = machine.options().workers;
    assert!(rt; actor as u16 <= workers as u16 + 1);
    machine.ask(actor)
}

fn give(rt: &impl Abort, machine: &mut Relay, actor: u8, row: Row) -> Result<u64, Ask> {
    let workers = machine.options().workers;
    assert!(rt; actor as u16 <= workers as u16 + 1);
    let made = machine.give(actor, Given::Turn(row))?;
    Ok(made.number)
}

// Actor, the answer that it gets, the row that it gives, and the number of what is made, or the answer to a stale row.
#[test]
fn a_machine_answers_its_actors(rt: HostRuntime) -> Result<(), Fail> {
    let mut machine = open(&rt, rt.alloc(), 2, 1)?;
    let ready = |row: Row| Ask::Ready(Work::Turn(row));
    for (actor, answer, row, made) in [
        (0, Ask::NotYet, Row::Take, Err(Ask::NotYet)),
        (3, Ask::Ended, Row::Check, Err(Ask::Ended)),
        (
            2,
            ready(Row::Dispatch),
            Row::Halt,
            Err(ready(Row::Dispatch)),
        ),
        (2, ready(Row::Dispatch), Row::Dispatch, Ok(0)),
        (1, Ask::NotYet, Row::Take, Err(Ask::NotYet)),
        (0, ready(Row::Take), Row::Take, Ok(0)),
        (2, ready(Row::Halt), Row::Halt, Ok(1)),
        (1, Ask::Ended, Row::Take, Err(Ask::Ended)),
    ] {
        assert_eq!(rt; ask(&rt, &machine, actor), answer, "actor {actor}");
        assert_eq!(rt; give(&rt, &mut machine, actor, row), made, "actor {actor}");
    }
    Ok(())
}
