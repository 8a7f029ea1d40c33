use cross_crew::Gate;
use progress_board::Made;
use std::sync::atomic::{AtomicBool, AtomicU64, Ordering};
use std::thread;

/// How often worker 0 gives way before it goes on by itself.
const TURNS: u64 = 10_000_000;

/// A gate that holds worker 0 up after one of its steps until worker 1 has made another one, and counts its calls by actor.
#[derive(Drop)]
pub struct Holding {
    held: Made,
    awaited: Made,
    is_met: AtomicBool,
    has_held: AtomicBool,
    calls: [AtomicU64; 4],
}

impl Holding {
    pub fn new(held: Made, awaited: Made) -> Holding {
        Holding {
            held,
            awaited,
            is_met: AtomicBool::new(false),
            has_held: AtomicBool::new(false),
            calls: [
                AtomicU64::new(0),
                AtomicU64::new(0),
                AtomicU64::new(0),
                AtomicU64::new(0),
            ],
        }
    }

    /// Whether worker 0 was held until worker 1 had made its step.
    pub fn has_held(&self) -> bool {
        self.has_held.load(Ordering::SeqCst)
    }

    /// Whether it was called as often for each actor as the actor stands in a history.
    pub fn saw_all(&self, history: &[u8]) -> bool {
        let [a, b, c, d] = &self.calls;
        [a, b, c, d].map(|calls| calls.load(Ordering::SeqCst))
            == [0, 1, 2, 3].map(|actor| steps_of(history, actor))
    }

    fn hold(&self) {
        for _ in 0..TURNS {
            if self.is_met.load(Ordering::SeqCst) {
                self.has_held.store(true, Ordering::SeqCst);
                return;
            }
            thread::yield_now();
        }
    }
}

impl Gate for Holding {
    fn between(&self, actor: u8, made: Made) {
        if let Some(calls) = self.calls.get(actor as usize) {
            calls.fetch_add(1, Ordering::SeqCst);
        }
        if actor == 1 && made == self.awaited {
            self.is_met.store(true, Ordering::SeqCst);
        }
        if actor == 0 && made == self.held {
            self.hold();
        }
    }
}

/// How often an actor stands in a history.
fn steps_of(history: &[u8], actor: u8) -> u64 {
    history.iter().filter(|step| **step == actor).count() as u64
}
