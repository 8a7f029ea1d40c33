ghost use Rattle.std.specs.Prelude.{◌≡◌, [], ◌∷◌, IfOk};

use nest_syntax::NoMemory;
use range_sign::{ExactSign, RangeSign, Signature};
use std::alloc::Global;
use std::process::Abort;
use std::test::Fail;

/// Array, place, and whether the word was written.
type Note = (u32, u64, bool);

const LENGTHS: [u64; 2] = [70, 8];

fn note<S: Signature>(rt: &impl Abort, sign: &mut S, one: Note)
    requires { S.sizes_of sign.old ≡ 70 ∷ 8 ∷ [] }
    ensures { S.sizes_of sign.new ≡ 70 ∷ 8 ∷ [] }
{
    let (array, place, write) = one;
    if array == 0 {
        assert!(rt; place < 70);
        sign.note(array, place, write);
    } else {
        assert!(rt; array == 1 && place < 8);
        sign.note(array, place, write);
    }
}

fn noted<S: Signature>(rt: &impl Abort, alloc: Global, notes: &[Note]) -> Result<S, NoMemory>
    ensures { IfOk result (λ made. S.sizes_of made ≡ 70 ∷ 8 ∷ []) }
{
    let mut sign = S::make(alloc, &LENGTHS)?;
    for one in notes {
        note(rt, &mut sign, *one);
    }
    Ok(sign)
}

/// Where signatures of two lists of notes overlap, and where they do once the second is cleared.
fn overlaps<S: Signature>(
    rt: &impl Abort,
    alloc: Global,
    first: &[Note],
    second: &[Note],
) -> Result<(Option<u32>, Option<u32>), NoMemory> {
    let first = noted::<S>(rt, alloc, first)?;
    let mut second = noted::<S>(rt, alloc, second)?;
    let overlap = first.overlap(&second);
    second.clear();
    Ok((overlap, first.overlap(&second)))
}

const READ: bool = false;

const WRITTEN: bool = true;

// Notes of two tasks, and the array in which their signatures overlap: of ranges, and of the exact words.
#[test]
fn overlaps_of_notes(rt: HostRuntime) -> Result<(), Fail> {
    let none: [Note; 2] = [(0, 0, READ); 2];
    for (first, second, ranges, exact) in [
        (none, none, None, None),
        (
            [(0, 0, WRITTEN), (0, 2, WRITTEN)],
            [(0, 3, WRITTEN), (0, 1, WRITTEN)],
            Some(0),
            None,
        ),
        (
            [(0, 5, WRITTEN), (0, 1, WRITTEN)],
            [(0, 4, READ), (0, 4, READ)],
            Some(0),
            None,
        ),
        (
            [(0, 5, READ), (0, 6, READ)],
            [(0, 5, READ), (0, 6, READ)],
            None,
            None,
        ),
        (
            [(0, 5, READ), (1, 6, WRITTEN)],
            [(0, 5, WRITTEN), (1, 6, READ)],
            Some(0),
            Some(0),
        ),
        (
            [(0, 69, WRITTEN), (1, 7, READ)],
            [(1, 0, READ), (1, 7, WRITTEN)],
            Some(1),
            Some(1),
        ),
        (
            [(0, 63, WRITTEN), (1, 0, READ)],
            [(0, 64, READ), (1, 0, READ)],
            None,
            None,
        ),
        (
            [(0, 64, READ), (1, 0, READ)],
            [(0, 64, WRITTEN), (1, 7, READ)],
            Some(0),
            Some(0),
        ),
    ] {
        assert_eq!(rt;
            overlaps::<RangeSign>(&rt, rt.alloc(), &first, &second)?,
            (ranges, None),
            "{first:?}"
        );
        assert_eq!(rt;
            overlaps::<ExactSign>(&rt, rt.alloc(), &first, &second)?,
            (exact, None),
            "{first:?}"
        );
    }
    Ok(())
}
