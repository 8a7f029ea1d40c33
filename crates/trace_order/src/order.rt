ghost use Rattle.std.specs.Prelude.{◌≡◌, map, MatchOption};
ghost use Rattle.std.specs.List.{position};
ghost use Rattle.settle_law.specs.Traces.{InOrder};
ghost use Rattle.trace_order.specs.Swaps.{traced, swapped_with, IsFirstSwap};

use crate::access::Access;

/// The first pair of accesses that conflict and don't stand in the order of their tasks, as places from 0: first by the
/// place of its second access, then by that of its first. None comes exactly where the accesses are in order.
///
/// It takes no memory: each access is compared with all those before it.
pub fn in_order(accesses: &[Access]) -> Option<(usize, usize)>
    ensures { MatchOption result (InOrder (map traced accesses.now)) (λ pair. IsFirstSwap (map traced accesses.now) pair.0 pair.1) }
{
    for second in 0..accesses.len() {
        if let Some(first) = first_swapped(&accesses[..second], accesses[second]) {
            return Some((first, second));
        }
    }
    None
}

// The first of these accesses that a later one is swapped with.
fn first_swapped(earlier: &[Access], later: Access) -> Option<usize>
    ensures { result ≡ position (λ a. swapped_with later a) earlier.now }
{
    earlier
        .iter()
        .position(|access| access.is_swapped_with(&later))
}
