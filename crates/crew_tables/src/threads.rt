ghost use Rattle.progress_board.specs.Options.{IsInRange};

use cross_crew::{Gate, OpenGate, crew_run};
use nest_input::{InputRefused, read_nest, read_words};
use nest_mean::Job;
use nest_syntax::NoMemory;
use progress_board::{Ask, Engine, Given, Machine, Made, Options, Row, Sign, Work};
use std::alloc::Global;
use std::process::Abort;
use std::sync::Wait;
use std::sync::atomic::{AtomicBool, AtomicU64, Ordering};
use std::test::Fail;
use std::thread;
use std::thread::Threads;
use toy_machine::Relay;

// The job of an input.
fn job_of(rt: &impl Abort, alloc: Global, input: &str) -> Result<Job, InputRefused> {
    assert!(rt; input.len() <= 1000);
    let checked = read_nest(alloc, input.as_bytes())?;
    let words = read_words(alloc, input.as_bytes(), &checked)?;
    Ok(Job::new(checked, words))
}

// A machine on the empty nest.
fn open(rt: &impl Abort, alloc: Global, workers: u8, tokens: u16) -> Result<Relay, InputRefused> {
    let job = job_of(rt, alloc, "")?;
    Ok(Relay::open(job, options(rt, workers, tokens)))
}

// Options in range. As many tokens are handed out as a queue holds.
fn options(rt: &impl Abort, workers: u8, tokens: u16) -> Options
    ensures { IsInRange result }
{
    assert!(rt; 1 <= workers && workers <= 8);
    assert!(rt; 1 <= tokens && tokens <= 1024);
    Options {
        engine: Engine::Domore,
        workers,
        queue: tokens,
        sign: Sign::Range,
        segment: 16,
        distance: 4,
    }
}

// The history of a machine with a thread for each actor, and whether it was finished.
fn run<R: Threads + Wait + Sync, G: Gate>(
    rt: &R,
    alloc: Global,
    machine: Relay,
    gate: &G,
) -> Result<(bool, Vec<u8>), NoMemory> {
    let (machine, history) = crew_run(rt, alloc, machine, gate)?;
    Ok((machine.finished(), history))
}

// Makes given steps on one thread, and says whether each was enabled and they finish the machine.
fn remakes(rt: &impl Abort, machine: &mut Relay, steps: &[u8]) -> bool {
    for actor in steps {
        let workers = machine.options().workers;
        assert!(rt; *actor as u16 <= workers as u16 + 1);
        let Ask::Ready(Work::Turn(row)) = machine.ask(*actor) else {
            return false;
        };
        if machine.give(*actor, Given::Turn(row)).is_err() {
            return false;
        }
    }
    machine.finished()
}

// Counts its calls, by actor.
#[derive(Drop)]
struct Counting {
    calls: [AtomicU64; 4],
}

impl Counting {
    fn new() -> Counting {
        Counting {
            calls: [
                AtomicU64::new(0),
                AtomicU64::new(0),
                AtomicU64::new(0),
                AtomicU64::new(0),
            ],
        }
    }

    fn counts(&self) -> [u64; 4] {
        let [a, b, c, d] = &self.calls;
        [a, b, c, d].map(|calls| calls.load(Ordering::SeqCst))
    }
}

impl Gate for Counting {
    fn between(&self, actor: u8, _made: Made) {
        if let Some(calls) = self.calls.get(actor as usize) {
            calls.fetch_add(1, Ordering::SeqCst);
        }
    }
}

// How often each actor stands in a history.
fn counted(history: &[u8]) -> [u64; 4] {
    [0, 1, 2, 3].map(|actor| history.iter().filter(|step| **step == actor).count() as u64)
}

// Workers, tokens, and how often each actor makes a step: tokens are taken in turn, and the scheduler halts behind them.
#[test]
fn a_gate_is_called_behind_each_step(rt: HostRuntime) -> Result<(), Fail> {
    for (workers, tokens, wanted) in [
        (1, 1, [1, 2, 0, 0]),
        (2, 1, [1, 0, 2, 0]),
        (2, 301, [151, 150, 302, 0]),
        (3, 7, [3, 2, 2, 8]),
    ] {
        let gate = Counting::new();
        let machine = open(&rt, rt.alloc(), workers, tokens)?;
        let (is_finished, history) = run(&rt, rt.alloc(), machine, &gate)?;
        assert!(rt; is_finished);
        assert_eq!(rt; counted(&history), wanted, "{workers} workers");
        assert_eq!(rt; gate.counts(), wanted, "{workers} workers");
    }
    Ok(())
}

#[test]
fn a_history_of_threads_can_be_made_again(rt: HostRuntime) -> Result<(), Fail> {
    let machine = open(&rt, rt.alloc(), 3, 100)?;
    let (_, history) = run(&rt, rt.alloc(), machine, &OpenGate)?;
    assert!(rt; remakes(&rt, &mut open(&rt, rt.alloc(), 3, 100)?, &history));
    Ok(())
}

// Holds worker 0 behind its first step until worker 1 has made one, and gives up behind so many turns.
#[derive(Drop)]
struct Holding {
    is_met: AtomicBool,
    gave_up: AtomicBool,
}

const TURNS: u64 = 10_000_000;

impl Gate for Holding {
    fn between(&self, actor: u8, made: Made) {
        match (actor, made.row, made.number) {
            (1, Row::Take, _) => self.is_met.store(true, Ordering::SeqCst),
            (0, Row::Take, 0) => self.hold(),
            _ => {}
        }
    }
}

impl Holding {
    fn hold(&self) {
        for _ in 0..TURNS {
            if self.is_met.load(Ordering::SeqCst) {
                return;
            }
            thread::yield_now();
        }
        self.gave_up.store(true, Ordering::SeqCst);
    }
}

#[test]
fn a_worker_goes_on_while_another_is_held(rt: HostRuntime) -> Result<(), Fail> {
    let gate = Holding {
        is_met: AtomicBool::new(false),
        gave_up: AtomicBool::new(false),
    };
    let machine = open(&rt, rt.alloc(), 2, 2)?;
    let (is_finished, _) = run(&rt, rt.alloc(), machine, &gate)?;
    assert!(rt; is_finished);
    assert!(rt; gate.is_met.load(Ordering::SeqCst));
    assert!(rt; !gate.gave_up.load(Ordering::SeqCst));
    Ok(())
}
