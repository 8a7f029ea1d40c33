ghost use Rattle.std.specs.Prelude.{◌≡◌, Ok, Err, [], ◌∷◌, map};
ghost use Rattle.std.specs.List.{flat_map};
ghost use Rattle.std.specs.Result.{MatchResult};
ghost use Rattle.nest_mean.specs.Numbered.{at_number, bodies_in_item, bodies_in_items, bodies_in_arm, bodies_in_region};

use nest_syntax::{Arm, Loop, Stmt};
use std::slice;

/// The body with this number among those of the regions, or what is left of the number behind them.
pub(crate) fn body_in_regions(regions: &[Loop], mut number: u32) -> Result<&[Stmt], u32>
    ensures { MatchResult result (λ body. at_number (flat_map bodies_in_region regions.now) number ≡ Ok body.now)
        (λ left. at_number (flat_map bodies_in_region regions.now) number ≡ Err left) }
{
    for region in regions {
        match body_in_items(region.body.as_slice(), number) {
            Ok(body) => return Ok(body),
            Err(left) => number = left,
        }
    }
    Err(number)
}

#[cycle(find)]
fn body_in_items(items: &[Stmt], mut number: u32) -> Result<&[Stmt], u32>
    ensures { MatchResult result (λ body. at_number (bodies_in_items items.now) number ≡ Ok body.now)
        (λ left. at_number (bodies_in_items items.now) number ≡ Err left) }
{
    for item in items {
        match body_in_item(item, number) {
            Ok(body) => return Ok(body),
            Err(left) => number = left,
        }
    }
    Err(number)
}

#[cycle(find)]
fn body_in_item(item: &Stmt, number: u32) -> Result<&[Stmt], u32>
    ensures { MatchResult result (λ body. at_number (bodies_in_item item.now) number ≡ Ok body.now)
        (λ left. at_number (bodies_in_item item.now) number ≡ Err left) }
{
    match item {
        Stmt::Declare { .. } => Err(number),
        Stmt::Assign { .. } => Err(number),
        Stmt::Write { .. } => only_body(slice::from_ref(item), number),
        Stmt::Loop(invoked) => only_body(invoked.body.as_slice(), number),
        Stmt::If { arms, other } => match body_in_arms(arms.as_slice(), number) {
            Ok(body) => Ok(body),
            Err(left) => body_in_items(other.as_slice(), left),
        },
    }
}

#[cycle(find)]
fn body_in_arms(arms: &[Arm], mut number: u32) -> Result<&[Stmt], u32>
    ensures { MatchResult result (λ body. at_number (flat_map bodies_in_arm arms.now) number ≡ Ok body.now)
        (λ left. at_number (flat_map bodies_in_arm arms.now) number ≡ Err left) }
{
    for arm in arms {
        match body_in_items(arm.body.as_slice(), number) {
            Ok(body) => return Ok(body),
            Err(left) => number = left,
        }
    }
    Err(number)
}

fn only_body(body: &[Stmt], number: u32) -> Result<&[Stmt], u32>
    ensures { MatchResult result (λ found. at_number (body.now ∷ []) number ≡ Ok found.now)
        (λ left. at_number (body.now ∷ []) number ≡ Err left) }
{
    match number.checked_sub(1) {
        Some(left) => Err(left),
        None => Ok(body),
    }
}
