ghost use Rattle.range_sign.specs.Overlap.{OverlapsAreKept};

/// A law of `overlap`, for whatever two signatures hold. It is Some where they hold a common word, one of them as written;
/// it stays Some for signatures that hold at least the same; and the array is the first with such a word.
pub fn overlaps_are_kept()
    ensures { OverlapsAreKept }
{}
