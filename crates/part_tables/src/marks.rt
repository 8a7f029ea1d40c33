ghost use Rattle.std.specs.Prelude.{◌≡◌};

use checkpoint::Checkpoint;
use std::process::Abort;
use std::test::Fail;
use word_store::Words;

fn set(rt: &impl Abort, words: &mut Words, array: u32, value: i64)
    ensures { words.new.sizes ≡ words.old.sizes }
{
    assert!(rt; (array as usize) < words.arrays());
    assert!(rt; words.store(array, 1, value));
}

fn told(rt: &impl Abort, words: &Words) -> (Option<i64>, Option<i64>) {
    assert!(rt; 1 < words.arrays());
    (words.load(0, 1), words.load(1, 1))
}

#[test]
fn the_words_last_marked_come_back(rt: HostRuntime) -> Result<(), Fail> {
    let mut words = Words::zeros(rt.alloc(), &[2, 3])?;
    let mut mark = Checkpoint::mark(rt.alloc(), &words)?;
    set(&rt, &mut words, 0, 5);
    set(&rt, &mut words, 1, 6);
    mark.restore(&mut words);
    assert_eq!(rt; told(&rt, &words), (Some(0), Some(0)));
    set(&rt, &mut words, 1, 7);
    mark.commit(&words);
    set(&rt, &mut words, 0, 8);
    mark.restore(&mut words);
    assert_eq!(rt; told(&rt, &words), (Some(0), Some(7)));
    Ok(())
}
