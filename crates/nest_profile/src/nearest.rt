//! The least distance of two tasks in a table of hulls.
ghost use Rattle.std.specs.Prelude.{◌≡◌, ◌<◌, ◌≤◌, ℕ, List, length, IsSome};
ghost use Rattle.nest_syntax.specs.Among.{Each};
ghost use Rattle.range_sign.specs.Overlap.{overlap_of};
ghost use Rattle.nest_profile.specs.Hulls.{IsEven};
ghost use Rattle.nest_profile.specs.Nearest.{Tells, MeetsOther, MeetsAt, Meet, MeetApart, IsNearest};

use crate::row::Row;
use range_sign::Signature;

/// The least distance, below `bound`, of two of the first `count` rows in which signatures of different workers
/// overlap. Distances are tried from 1 upwards, so no pair further apart than the answer is compared.
pub(crate) fn nearest<G: Signature>(rows: &[Row<G>], count: usize, bound: usize) -> Option<usize>
    requires inside { count ≤ length rows.now }
    requires even { (sizes : List ℕ) × Each (IsEven G.sizes_of sizes) rows.now }
    ensures { IsNearest G.sizes_of G.holds rows.now count bound result }
{
    for distance in 1..bound {
        if meet_apart(rows, count, distance) {
            return Some(distance);
        }
    }
    None
}

fn meet_apart<G: Signature>(rows: &[Row<G>], count: usize, distance: usize) -> bool
    requires inside { count ≤ length rows.now }
    requires even { (sizes : List ℕ) × Each (IsEven G.sizes_of sizes) rows.now }
    ensures { Tells result (MeetApart G.sizes_of G.holds rows.now count distance) }
{
    for late in distance..count {
        if meet(&rows[late - distance], &rows[late]) {
            return true;
        }
    }
    false
}

// Whether signatures of different workers overlap.
fn meet<G: Signature>(early: &Row<G>, late: &Row<G>) -> bool
    requires { (sizes : List ℕ) × IsEven G.sizes_of sizes early.now × IsEven G.sizes_of sizes late.now }
    ensures { Tells result (Meet G.sizes_of G.holds early.now.signs.items late.now.signs.items) }
{
    for worker in 0..early.signs.len() {
        if meets_other(&early.signs[worker], worker, late) {
            return true;
        }
    }
    false
}

// Whether a signature overlaps with that of any other worker.
fn meets_other<G: Signature>(sign: &G, own: usize, others: &Row<G>) -> bool
    requires { IsEven G.sizes_of (G.sizes_of sign.now) others.now }
    ensures { Tells result (MeetsOther G.sizes_of G.holds sign.now own others.now.signs.items) }
{
    for worker in 0..others.signs.len() {
        if meets_at(sign, own, others, worker) {
            return true;
        }
    }
    false
}

// Whether it overlaps with that of this worker, another one.
fn meets_at<G: Signature>(sign: &G, own: usize, others: &Row<G>, worker: usize) -> bool
    requires even { IsEven G.sizes_of (G.sizes_of sign.now) others.now }
    requires there { worker < length others.now.signs.items }
    ensures { Tells result (MeetsAt G.sizes_of G.holds sign.now own others.now.signs.items worker) }
{
    worker != own && overlap(sign, &others.signs[worker])
}

fn overlap<G: Signature>(sign: &G, other: &G) -> bool
    requires { G.sizes_of sign.now ≡ G.sizes_of other.now }
    ensures { Tells result (IsSome (overlap_of (G.sizes_of sign.now) (G.holds sign.now) (G.holds other.now))) }
{
    sign.overlap(other).is_some()
}
