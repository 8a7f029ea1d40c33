ghost use Rattle.std.specs.Prelude.{◌≡◌};
ghost use Rattle.domore_core.specs.Tickets.{waits_in};

use arrayvec::ArrayVec;
use std::marker::Model;

/// To wait until `worker` has finished iteration `number`.
#[derive(Clone, Copy, Debug, Default)]
pub struct Wait {
    pub(crate) worker: u8,
    pub(crate) number: u64,
}

impl Model for Wait {
    ghost use Rattle.domore_machine.specs.Waits.{Wait as On};

    ghost Value = { On };

    ghost view = { λ w. record { worker = w.worker; number = w.number } };

    ghost inverse = { λ w. record { worker = w.worker; number = w.number } };
}

/// The waits that are listed by worker, in the order of the workers.
pub(crate) fn listed_waits(by_worker: &[Option<u64>; 8]) -> ArrayVec<Wait, 8>
    ensures { result.items ≡ waits_in by_worker.now }
{
    let mut waits = ArrayVec::new();
    'workers: for worker in 0..8 {
        if let Some(number) = by_worker[worker as usize] {
            waits.push(Wait { worker, number });
        }
    }
    waits
}
