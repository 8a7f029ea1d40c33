ghost use Rattle.std.specs.Prelude.{◌≡◌};
ghost use Rattle.progress_board.specs.Options.{IsInRange};

use crate::nests::SCATTER;
use nest_input::{InputRefused, read_nest, read_words};
use nest_mean::Job;
use nest_syntax::NoMemory;
use progress_board::{Engine, Options, Sign};
use std::alloc::Global;
use std::process::Abort;
use std::test::Fail;
use word_store::Words;

/// The job of an input.
pub fn job_of(rt: &impl Abort, alloc: Global, input: &str) -> Result<Job, InputRefused> {
    assert!(rt; input.len() <= 1000);
    let checked = read_nest(alloc, input.as_bytes())?;
    let words = read_words(alloc, input.as_bytes(), &checked)?;
    Ok(Job::new(checked, words))
}

/// Options in range.
pub fn options(rt: &impl Abort, workers: u8, queue: u16) -> Options
    ensures allowed { IsInRange result }
    ensures engine { result.engine ≡ Engine.Domore }
{
    assert!(rt; 1 <= workers && workers <= 8);
    assert!(rt; 1 <= queue && queue <= 1024);
    Options {
        engine: Engine::Domore,
        workers,
        queue,
        sign: Sign::Range,
        segment: 16,
        distance: 4,
    }
}

/// The words of an array.
pub fn array<'a>(rt: &impl Abort, words: &'a Words, number: u32) -> &'a [i64] {
    assert!(rt; (number as usize) < words.arrays());
    words.array(number)
}

fn copied(job: &Job, alloc: Global) -> Result<Job, NoMemory> {
    job.copy(alloc)
}

#[test]
fn a_copied_job_has_the_lengths_and_the_words(rt: HostRuntime) -> Result<(), Fail> {
    let job = copied(&job_of(&rt, rt.alloc(), SCATTER)?, rt.alloc())?;
    for (number, wanted) in [(0, [1i64, 2, 3, 4]), (1, [0, 0, 2, 3])] {
        assert_eq!(rt; job.checked().lengths(), [4u64, 4].as_slice());
        assert_eq!(rt; array(&rt, job.words(), number), wanted.as_slice());
    }
    Ok(())
}
