ghost use Rattle.std.specs.Prelude.{◌≡◌, ◌<◌, ◌≤◌, IfOk};
ghost use Rattle.addr_slice.specs.Claims.{words_of};

use addr_slice::Claims;
use nest_syntax::NoMemory;
use shadow_memory::Shadow;
use std::alloc::Global;
use std::test::Fail;

#[derive(Clone, Copy)]
enum Claim {
    Reads(u32),
    Writes(u32),
}

use self::Claim::{Reads, Writes};

// Claims of a program of four words.
fn claims_of(alloc: Global, list: &[Claim]) -> Result<Claims, NoMemory>
    ensures { IfOk result (λ made. words_of made ≡ 4) }
{
    let mut claims = Claims::with_room(alloc, &[4])?;
    for claim in list {
        match *claim {
            Reads(word) if word < 4 => claims.add(word, false),
            Writes(word) if word < 4 => claims.add(word, true),
            _ => (),
        }
    }
    Ok(claims)
}

// Notes an iteration, after what it waits for is added.
fn note(
    shadow: &mut Shadow,
    claims: &Claims,
    worker: u8,
    number: u64,
    waits: &mut Vec<(u64, u64)>,
) -> Result<(), NoMemory>
    requires room { words_of claims.now ≤ shadow.old.words }
    requires worker { worker < shadow.old.workers }
    requires number { number < u64.MAX }
    ensures words { shadow.new.words ≡ shadow.old.words }
    ensures workers { shadow.new.workers ≡ shadow.old.workers }
{
    for need in shadow.need(claims, worker) {
        if let Some(on) = need {
            waits.push((number, on))?;
        }
    }
    shadow.note(claims, worker, number);
    Ok(())
}

// The waits of iterations in their order, each with the number that it waits for. Iteration k is of worker `k % workers`.
fn waits_of(
    alloc: Global,
    shadow: &mut Shadow,
    workers: u8,
    iterations: &[&[Claim]],
) -> Result<Vec<(u64, u64)>, NoMemory>
    requires some { 0 < workers }
    requires words { shadow.old.words ≡ 4 }
    requires workers { shadow.old.workers ≡ workers }
    ensures words { shadow.new.words ≡ shadow.old.words }
    ensures workers { shadow.new.workers ≡ shadow.old.workers }
{
    let mut waits = Vec::new(alloc);
    for (number, list) in iterations.iter().enumerate() {
        let claims = claims_of(alloc, list)?;
        let worker = (number % workers as usize) as u8;
        note(shadow, &claims, worker, number as u64, &mut waits)?;
    }
    Ok(waits)
}

// The waits of iterations on a new shadow, and then on the same one, cleared.
fn waits_twice(
    alloc: Global,
    workers: u8,
    iterations: &[&[Claim]],
) -> Result<(Vec<(u64, u64)>, Vec<(u64, u64)>), NoMemory>
    requires some { 0 < workers }
    requires few { workers ≤ 8 }
{
    let mut shadow = Shadow::new(alloc, 4, workers)?;
    let first = waits_of(alloc, &mut shadow, workers, iterations)?;
    shadow.clear();
    let second = waits_of(alloc, &mut shadow, workers, iterations)?;
    Ok((first, second))
}

// `a[i] = a[3 - i] ..`, of four iterations.
const MIRROR: [&[Claim]; 8] = [
    &[Writes(0), Reads(3)],
    &[Writes(1), Reads(2)],
    &[Writes(2), Reads(1)],
    &[Writes(3), Reads(0)],
    &[Writes(0), Reads(3)],
    &[Writes(1), Reads(2)],
    &[Writes(2), Reads(1)],
    &[Writes(3), Reads(0)],
];

// `a[ix[i]] += ..`, where `ix` is 0, 0, 2, 3.
const SCATTER: [&[Claim]; 8] = [
    &[Reads(0), Writes(0)],
    &[Reads(0), Writes(0)],
    &[Reads(2), Writes(2)],
    &[Reads(3), Writes(3)],
    &[Reads(0), Writes(0)],
    &[Reads(0), Writes(0)],
    &[Reads(2), Writes(2)],
    &[Reads(3), Writes(3)],
];

// One word that many read, and a worker writes when they did.
const READERS: [&[Claim]; 7] = [
    &[Reads(1)],
    &[Reads(1)],
    &[Reads(1)],
    &[Writes(1)],
    &[Reads(1)],
    &[Reads(1)],
    &[Writes(1)],
];

// The last to conflict at the first word is a later one than at the second.
const GREATEST: [&[Claim]; 5] = [&[], &[Writes(2)], &[], &[Reads(0)], &[Writes(0), Reads(2)]];

#[test]
fn iterations_wait_for_the_last_that_conflict(rt: HostRuntime) -> Result<(), Fail> {
    for (workers, iterations, wanted) in [
        (
            2,
            MIRROR.as_slice(),
            [(2, 1), (3, 0), (4, 3), (5, 2), (6, 5), (7, 4)].as_slice(),
        ),
        (2, &SCATTER, &[(1, 0), (4, 1), (5, 4)]),
        (
            8,
            &SCATTER,
            &[
                (1, 0),
                (4, 0),
                (4, 1),
                (5, 0),
                (5, 1),
                (5, 4),
                (6, 2),
                (7, 3),
            ],
        ),
        (1, &SCATTER, &[]),
        (
            3,
            &READERS,
            &[(3, 1), (3, 2), (4, 3), (5, 3), (6, 4), (6, 5)],
        ),
        (2, &GREATEST, &[(4, 3)]),
    ] {
        assert!(rt; 0 < workers && workers <= 8);
        let (first, second) = waits_twice(rt.alloc(), workers, iterations)?;
        assert_eq!(rt; first.as_slice(), wanted, "{workers} workers");
        assert_eq!(rt; second.as_slice(), wanted, "{workers} workers, cleared");
    }
    Ok(())
}
