use crate::jobs::job_of;
use crate::nests::{FIRST, SHIFTED};
use addr_slice::{Claims, claims};
use nest_mean::{Job, Scalars};
use nest_partition::partition;
use nest_syntax::NoMemory;
use std::alloc::{AllocError, Global};
use std::fmt::Write;
use std::test::Fail;

/// The words of `p` are read at a place that is known, those of `a` are written at one that isn't.
const BY_WORD: &str = "long p[2];
long a[3];
for (long t = 0; t < 1; t++) {
  for (long i = 0; i < 2; i++) {
    a[p[i]] = i + 7;
  }
}
data
p 2 0
";

/// Claims in rising order, each word with its kinds.
fn shown(alloc: Global, claims: &Claims) -> Result<String, AllocError> {
    let mut text = String::new(alloc);
    let mut from = 0;
    for _ in 0..claims.words() {
        let Some(word) = claims.next_from(from) else {
            break;
        };
        let read = if claims.has(word, false) { "r" } else { "" };
        let write = if claims.has(word, true) { "w" } else { "" };
        write!(text, " {word}{read}{write}")?;
        from = word + 1;
    }
    Ok(text)
}

/// The claims of an iteration of body 0 with these scalars.
fn claimed(alloc: Global, job: &Job, scalars: [(u32, i64); 2]) -> Result<Claims, NoMemory> {
    let checked = job.checked();
    let split = partition(alloc, checked)?;
    let mut values = Scalars::zeros(alloc, checked.program().names.len())?;
    for (name, value) in scalars {
        values.set(name, value);
    }
    let mut into = Claims::with_room(alloc, checked.lengths())?;
    claims(&split, checked, 0, &mut values, job.words(), &mut into);
    Ok(into)
}

// The scalars are `t` and `i`; names are numbered as they first appear. The value is `a[3 - i] + t * 10 + i` in the first
// nest and `a[i] + a[i + 3]` in the second, which traps from its second iteration on.
#[test]
fn the_claims_of_iterations(rt: HostRuntime) -> Result<(), Fail> {
    for (input, names, outer, inner, wanted) in [
        (FIRST, [1, 2], 0, 0, " 0w 3r"),
        (FIRST, [1, 2], 0, 1, " 1w 2r"),
        (FIRST, [1, 2], 1, 2, " 1r 2w"),
        (FIRST, [1, 2], 1, 3, " 0r 3w"),
        (FIRST, [1, 2], 9, -1, ""),
        (FIRST, [1, 2], i64::MAX, i64::MIN, ""),
        (SHIFTED, [1, 2], 0, 0, " 0rw 3r"),
        (SHIFTED, [1, 2], 0, 1, " 1r"),
        (SHIFTED, [1, 2], 9, 4, ""),
        (BY_WORD, [2, 3], 0, 1, " 1r 2w 3w 4w"),
    ] {
        let job = job_of(&rt, rt.alloc(), input)?;
        let [t, i] = names;
        let claims = claimed(rt.alloc(), &job, [(t, outer), (i, inner)])?;
        assert_eq!(rt; shown(rt.alloc(), &claims)?.as_str(), wanted, "at {inner}");
    }
    Ok(())
}
