use epoch_plan::{Epoch, Seen, block_of, unordered_pairs};
use nest_syntax::TaskName;
use std::process::Abort;
use std::test::Fail;

/// An epoch of so many turns, which all workers share or one has.
fn epoch(trips: u64, all: bool) -> Epoch {
    Epoch {
        body: 0,
        first: 0,
        low: 0,
        step: 1,
        trips,
        all,
        env: [0; 32],
    }
}

fn block(rt: &impl Abort, epoch: &Epoch, index: u32, worker: u8, workers: u8) -> (u64, u64) {
    assert!(rt; epoch.trips <= 16_777_216);
    assert!(rt; worker < workers);
    assert!(rt; workers <= 8);
    block_of(epoch, index, worker, workers)
}

// Turns, whether they are shared, the epoch's index, the worker, the workers, and the block.
#[test]
fn blocks_of_turns(rt: HostRuntime) -> Result<(), Fail> {
    for (trips, all, index, worker, workers, wanted) in [
        (5, true, 0, 0, 1, (0, 5)),
        (5, true, 0, 0, 2, (0, 2)),
        (5, true, 3, 1, 2, (2, 5)),
        (7, true, 0, 1, 3, (2, 4)),
        (7, true, 0, 2, 3, (4, 7)),
        (3, true, 0, 2, 8, (0, 1)),
        (3, true, 0, 3, 8, (1, 1)),
        (3, true, 0, 7, 8, (2, 3)),
        (0, true, 0, 1, 2, (0, 0)),
        (16_777_216, true, 0, 7, 8, (14_680_064, 16_777_216)),
        (5, false, 3, 1, 2, (0, 5)),
        (5, false, 3, 0, 2, (0, 0)),
        (5, false, 8, 2, 3, (0, 5)),
        (5, false, 0, 0, 1, (0, 5)),
    ] {
        assert_eq!(rt;
            block(&rt, &epoch(trips, all), index, worker, workers),
            wanted,
            "worker {worker} of {workers}"
        );
    }
    Ok(())
}

fn task(epoch: u32, worker: u8) -> TaskName {
    TaskName { epoch, worker }
}

/// The names that are written into four places, before which there is none.
fn names(rt: &impl Abort, seen: [u32; 8], late: TaskName, workers: u8) -> (usize, [TaskName; 4]) {
    let mut into = [task(9, 9); 4];
    assert!(rt; late.worker < workers);
    assert!(rt; workers <= 8);
    assert!(rt; late.epoch <= 4 && late.epoch as usize * (workers as usize - 1) <= 4);
    let count = unordered_pairs(&Seen(seen), late, workers, &mut into);
    (count, into)
}

// What the late task saw, the late task, the workers, how many tasks are unordered with it, and their names.
#[test]
fn unordered_tasks_in_order(rt: HostRuntime) -> Result<(), Fail> {
    let none = task(9, 9);
    for (seen, late, workers, wanted) in [
        ([0, 0, 0, 0, 0, 0, 0, 0], (0, 1), 2, (0, [none; 4])),
        ([4, 0, 0, 0, 0, 0, 0, 0], (4, 0), 1, (0, [none; 4])),
        (
            [2, 1, 0, 0, 0, 0, 0, 0],
            (2, 0),
            2,
            (1, [task(1, 1), none, none, none]),
        ),
        (
            [2, 1, 0, 0, 0, 0, 0, 0],
            (2, 0),
            3,
            (3, [task(0, 2), task(1, 1), task(1, 2), none]),
        ),
        ([2, 2, 2, 0, 0, 0, 0, 0], (2, 2), 3, (0, [none; 4])),
    ] {
        assert_eq!(rt;
            names(&rt, seen, task(late.0, late.1), workers),
            wanted,
            "epoch {} of {workers}",
            late.0
        );
    }
    Ok(())
}
