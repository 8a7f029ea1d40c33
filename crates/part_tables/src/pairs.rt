use epoch_plan::Seen;
use nest_syntax::TaskName;
use spec_checker::Checker;
use std::process::Abort;
use std::test::Fail;

type Pair = (TaskName, TaskName);

fn pair(early: (u32, u8), late: (u32, u8)) -> Option<Pair> {
    Some((
        TaskName {
            epoch: early.0,
            worker: early.1,
        },
        TaskName {
            epoch: late.0,
            worker: late.1,
        },
    ))
}

/// A checker to which one pair was handed, or none.
fn passed(last: Option<Pair>) -> Checker {
    let mut checker = Checker::new();
    if let Some((early, late)) = last {
        checker.pass(early, late);
    }
    checker
}

/// What is due where all of the first three workers have finished these numbers of epochs, and whether all pairs of that
/// many epochs have passed.
fn due(
    rt: &impl Abort,
    checker: &Checker,
    finished: [u32; 3],
    workers: u8,
    seen: &[Seen],
) -> (Option<Pair>, bool) {
    let [first, second, third] = finished;
    assert!(rt; 0 < workers && workers <= 3);
    assert!(rt; first <= 3 && second <= 3 && third <= 3);
    assert!(rt; seen.len() >= 9);
    (
        checker.next(&[first, second, third, 0, 0, 0, 0, 0], workers, seen),
        checker.all_passed(first, workers, seen),
    )
}

fn saw(counts: [u32; 3]) -> Seen {
    Seen([counts[0], counts[1], counts[2], 0, 0, 0, 0, 0])
}

// Of two workers: task (1, 0) began before (0, 1) was finished, and (1, 1) after all of epoch 0.
fn two() -> [Seen; 9] {
    [
        saw([0, 0, 0]),
        saw([0, 0, 0]),
        saw([1, 0, 0]),
        saw([1, 1, 0]),
        saw([2, 2, 0]),
        saw([2, 2, 0]),
        saw([0, 0, 0]),
        saw([0, 0, 0]),
        saw([0, 0, 0]),
    ]
}

// Of three workers: task (1, 0) saw nothing of the others, the rest of epoch 1 all of epoch 0, and task (2, 0) one epoch of
// worker 1 and none of worker 2.
fn three() -> [Seen; 9] {
    [
        saw([0, 0, 0]),
        saw([0, 0, 0]),
        saw([0, 0, 0]),
        saw([1, 0, 0]),
        saw([1, 1, 1]),
        saw([1, 1, 1]),
        saw([2, 1, 0]),
        saw([2, 2, 2]),
        saw([2, 2, 2]),
    ]
}

// The workers and what their tasks saw, the last pair passed, what is finished, the pair due, and whether all have passed.
#[test]
fn pairs_come_due_in_their_order(rt: HostRuntime) -> Result<(), Fail> {
    for (workers, seen, last, finished, wanted, all) in [
        (2, two(), None, [0, 0, 0], None, true),
        (1, two(), None, [3, 0, 0], None, true),
        (2, two(), None, [2, 0, 0], None, false),
        (2, two(), None, [2, 1, 0], pair((0, 1), (1, 0)), false),
        (2, two(), pair((0, 1), (1, 0)), [3, 3, 0], None, true),
        (3, three(), None, [3, 3, 3], pair((0, 1), (1, 0)), false),
        (
            3,
            three(),
            pair((0, 1), (1, 0)),
            [3, 3, 3],
            pair((0, 2), (1, 0)),
            false,
        ),
        (3, three(), pair((0, 2), (1, 0)), [3, 3, 1], None, false),
        (
            3,
            three(),
            pair((0, 2), (1, 0)),
            [3, 3, 2],
            pair((0, 2), (2, 0)),
            false,
        ),
        (
            3,
            three(),
            pair((0, 2), (2, 0)),
            [3, 3, 3],
            pair((1, 1), (2, 0)),
            false,
        ),
        (
            3,
            three(),
            pair((1, 1), (2, 0)),
            [3, 3, 3],
            pair((1, 2), (2, 0)),
            false,
        ),
        (3, three(), pair((1, 2), (2, 0)), [3, 3, 3], None, true),
    ] {
        assert_eq!(rt;
            due(&rt, &passed(last), finished, workers, &seen),
            (wanted, all),
            "after {last:?}"
        );
    }
    Ok(())
}
