ghost use Rattle.std.specs.Prelude.{◌≡◌, ◌<◌, Some, None};
ghost use Rattle.shadow_memory.specs.Notes.{later};

use std::marker::Model;

/// The greatest of the numbers met so far, or none. It takes eight bytes, and no more with the none: kept is one more
/// than the number, and 0 for none.
#[derive(Clone, Copy)]
pub struct Last {
    above: u64,
}

impl Model for Last {
    ghost use Rattle.std.specs.Prelude.{ℕ, Option};
    ghost use Rattle.shadow_memory.specs.Last.{number_below, one_above, one_above-number_below};

    ghost Value = { Option ℕ };

    ghost view = { λ l. number_below l.above };

    ghost inverse = { λ o. record { above = one_above o } };

    ghost inverse_ok = { λ l h i. record { above = one_above-number_below l.above i } };
}

impl Last {
    pub fn none() -> Last
        ensures { result ≡ None }
    {
        Last { above: 0 }
    }

    pub fn number(self) -> Option<u64>
        ensures { result ≡ self }
    {
        self.above.checked_sub(1)
    }

    /// With one number more.
    pub fn and(self, number: u64) -> Last
        requires { number < u64.MAX }
        ensures { result ≡ later (Some number) self }
    {
        Last {
            above: self.above.max(number + 1),
        }
    }
}
