use crate::jobs::job_of;
use crate::nests::SCATTER;
use nest_data::print_words;
use nest_mean::{Scalars, TurnTrap, has_body, run_turn};
use nest_syntax::{Cause, Line};
use std::alloc::Global;
use std::process::Abort;
use std::test::Fail;

/// Body 0 is a statement; body 1 stops at its second one.
const STOPPED: &str = "long a[3];
for (long t = 0; t < 1; t++) {
  a[0] = 7;
  for (long i = 0; i < 2; i++) {
    a[i] = 5;
    a[i + 2] = 1 / i;
  }
}
";

/// The lines behind one iteration of a body on the opening words, and its trap.
fn turned(
    rt: &impl Abort,
    alloc: Global,
    input: &str,
    body: u32,
    scalars: &[(u32, i64)],
) -> Result<(Vec<u8>, Option<TurnTrap>), Fail> {
    let job = job_of(rt, alloc, input)?;
    let checked = job.checked();
    let mut words = job.words().copy(alloc)?;
    let mut values = Scalars::zeros(alloc, checked.program().names.len())?;
    for (name, value) in scalars {
        values.set(*name, *value);
    }
    let same = words.lengths() == checked.lengths();
    assert!(rt; same);
    let there = has_body(checked, body);
    assert!(rt; there);
    let trap = run_turn(checked, body, &mut values, &mut words).err();
    let text = print_words(alloc, &words, checked)?;
    Ok((text, trap))
}

fn stopped(cause: Cause) -> Option<TurnTrap> {
    Some(TurnTrap {
        cause,
        line: Line(6),
    })
}

#[test]
fn a_turn_leaves_its_words(rt: HostRuntime) -> Result<(), Fail> {
    let alloc = rt.alloc();
    // The names are numbered as they first appear: `t` and `i` are 2 and 3, and then 1 and 2.
    let cases: [(&str, u32, &[(u32, i64)], Option<TurnTrap>, &[u8]); 5] = [
        (SCATTER, 0, &[(2, 1), (3, 2)], None, b"a 1 2 5 4\n"),
        (SCATTER, 0, &[(2, 0), (3, 1)], None, b"a 2 2 3 4\n"),
        (STOPPED, 0, &[(1, 0)], None, b"a 7 0 0\n"),
        (
            STOPPED,
            1,
            &[(1, 0), (2, 0)],
            stopped(Cause::Divide),
            b"a 5 0 0\n",
        ),
        (
            STOPPED,
            1,
            &[(1, 0), (2, 1)],
            stopped(Cause::Index),
            b"a 0 5 0\n",
        ),
    ];
    for (input, body, scalars, trap, words) in cases {
        let behind = turned(&rt, alloc, input, body, scalars)?;
        assert_eq!(rt; behind.0.as_slice(), words);
        assert!(rt; behind.1 == trap);
    }
    Ok(())
}
