ghost use Rattle.std.specs.Prelude.{◌≡◌, ◌≤◌, Some, IfOk};
ghost use Rattle.settle_law.specs.Runs.{run};
ghost use Rattle.cross_crew.specs.Boards.{led};

use crate::board::{Board, Origin};
use crate::gate::Gate;
use crate::refused::GiveRefused;
use nest_syntax::NoMemory;
use progress_board::{Ask, Given, Machine, Made, Work};
use std::alloc::Global;
use std::marker::Brand;
use std::sync::atomic::{AtomicBool, Ordering};
use std::sync::{Mutex, Wait};
use std::thread;
use std::thread::Threads;

/// Runs a machine by a thread for each of its actors, and gives it back with the history that leads to it. The machine
/// may be in any state.
///
/// Each step is made under one lock; the work on a piece, and the call of the gate behind each step, are done outside
/// it. Where a thread can't be started, the caller's own thread drives the actor, and all behind it, in turn. An actor
/// returns when its part is ended. So what comes back is finished, if all threads got on.
///
/// Memory runs out only where the history can't grow. The call may wait, and nothing says that it returns.
pub fn crew_run<R: Threads + Wait + Sync, M: Machine, G: Gate>(
    rt: &R,
    alloc: Global,
    machine: M,
    gate: &G,
) -> Result<(M, Vec<u8>), NoMemory>
    ensures { IfOk result (λ back. run M.step machine back.1.items ≡ Some back.0) }
{
    run_from::<M, Brand, R, G>(rt, alloc, machine, gate)
}

// The same, where the machine has a name that types can have.
fn run_from<M: Machine, B: Origin<M> + Send + Sync, R: Threads + Wait + Sync, G: Gate>(
    rt: &R,
    alloc: Global,
    machine: M,
    gate: &G,
) -> Result<(M, Vec<u8>), NoMemory>
    requires { B.first ≡ Some machine }
    ensures { IfOk result (λ back. run M.step machine back.1.items ≡ Some back.0) }
{
    let actors = count_actors(&machine);
    let crew = Crew::<M, B>::open(alloc, machine);
    start_all(rt, &crew, gate, actors);
    crew.into_parts()
}

// How many actors the machine has, the scheduler and the checker counted.
fn count_actors<M: Machine>(machine: &M) -> u8
    ensures { result ≤ 10 }
{
    machine.options().workers + 2
}

// What the actors share: the board under its lock, and beside it the mark that one of them found no memory.
#[derive(Drop)]
struct Crew<M: Machine, B: Origin<M>> {
    board: Mutex<Board<M, B>>,
    given_up: AtomicBool,
}

impl<M: Machine, B: Origin<M>> Crew<M, B> {
    fn open(alloc: Global, machine: M) -> Crew<M, B>
        requires { B.first ≡ Some machine }
    {
        Crew {
            board: Mutex::new(Board::open(alloc, machine)),
            given_up: AtomicBool::new(false),
        }
    }

    fn ask<R: Wait>(&self, rt: &R, actor: u8) -> Ask {
        self.board.lock(rt).ask(actor)
    }

    fn give<R: Wait>(&self, rt: &R, actor: u8, given: Given) -> Result<Made, GiveRefused> {
        self.board.lock(rt).give(actor, given)
    }

    fn give_up(&self) {
        self.given_up.store(true, Ordering::SeqCst);
    }

    fn has_given_up(&self) -> bool {
        self.given_up.load(Ordering::SeqCst)
    }

    fn into_parts(self) -> Result<(M, Vec<u8>), NoMemory>
        ensures { IfOk result (λ back. led M.step B.first back.1.items ≡ Some back.0) }
    {
        if self.has_given_up() {
            return Err(NoMemory);
        }
        Ok(self.board.into_inner().into_parts())
    }
}

// Starts a thread for each actor, and joins them. Where one can't be started, this thread drives that actor and those
// behind it.
fn start_all<'x, M, B, R, G>(rt: &'x R, crew: &'x Crew<M, B>, gate: &'x G, actors: u8)
where
    M: Machine,
    B: Origin<M> + Send + Sync,
    R: Threads + Wait + Sync,
    G: Gate,
    requires { actors ≤ 10 }
{
    thread::scope(
        thread::scope_env(),
        rt,
        |scope|
            requires { actors ≤ 10 }
        {
            for actor in 0..actors {
                if scope.spawn(move || drive(rt, crew, gate, actor)).is_err() {
                    drive_in_turn(rt, crew, gate, actor, actors);
                    return;
                }
            }
        },
    );
}

// Drives an actor to the end of its part. While it has no work, it yields the processor.
fn drive<M: Machine, B: Origin<M>, R: Wait, G: Gate>(
    rt: &R,
    crew: &Crew<M, B>,
    gate: &G,
    actor: u8,
) {
    for _ in rt.forever() {
        if go_on(rt, crew, gate, actor) == Part::IsOver {
            return;
        }
        thread::yield_now();
    }
}

// Drives the actors from the first up to and without the end, each for as long as it has work, until all their parts are
// ended. While none of them has work, it yields the processor.
fn drive_in_turn<M: Machine, B: Origin<M>, R: Wait, G: Gate>(
    rt: &R,
    crew: &Crew<M, B>,
    gate: &G,
    first: u8,
    end: u8,
) {
    for _ in rt.forever() {
        let mut waits = false;
        for actor in first..end {
            waits |= go_on(rt, crew, gate, actor) == Part::Waits;
        }
        if !waits {
            return;
        }
        thread::yield_now();
    }
}

// How far an actor has come.
#[derive(Clone, Copy, PartialEq, Eq)]
enum Part {
    Waits,
    IsOver,
}

// Makes the actor's steps for as long as it has work. Its part is over where it is ended, and also where the crew has
// given up and the actor would have to wait.
fn go_on<M: Machine, B: Origin<M>, R: Wait, G: Gate>(
    rt: &R,
    crew: &Crew<M, B>,
    gate: &G,
    actor: u8,
) -> Part {
    let mut answer = crew.ask(rt, actor);
    for _ in rt.forever() {
        answer = match answer {
            Ask::Ready(asked) => make_step(rt, crew, gate, actor, asked),
            Ask::NotYet if !crew.has_given_up() => return Part::Waits,
            Ask::NotYet | Ask::Ended => return Part::IsOver,
        };
    }
    unreachable!()
}

// Does the work outside the lock and gives it. The answer is what the actor goes on with: where the work was stale, what
// it is asked for in its place.
fn make_step<M: Machine, B: Origin<M>, R: Wait, G: Gate>(
    rt: &R,
    crew: &Crew<M, B>,
    gate: &G,
    actor: u8,
    asked: Work,
) -> Ask {
    match crew.give(rt, actor, asked.done()) {
        Ok(made) => {
            gate.between(actor, made);
            crew.ask(rt, actor)
        }
        Err(GiveRefused::Stale(answer)) => answer,
        Err(GiveRefused::NoMemory) => {
            crew.give_up();
            Ask::Ended
        }
    }
}
