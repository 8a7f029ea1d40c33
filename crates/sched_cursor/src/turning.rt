ghost use Rattle.std.specs.Prelude.{◌≡◌, ◌≤◌, IsTrue};
ghost use Rattle.sched_cursor.specs.Turning.{Reaches, begun, has_turn, variable_of, one_passed, all_passed};

use std::marker::Model;
use word_store::value_in_turn;

/// The turns of a loop that was entered.
#[derive(Debug, Drop)]
pub(crate) struct Turning {
    low: i64,
    step: u64,
    trips: u64,
    /// How many turns were passed.
    turn: u64,
}

impl Model for Turning {
    ghost use Rattle.std.specs.Prelude.{◌≤◌};
    ghost use Rattle.sched_cursor.specs.Turning.{Turning as Turns, Reaches};

    ghost Value = { Turns };

    ghost view = { λ t. record { low = t.low; step = t.step; trips = t.trips; turn = t.turn } };

    ghost invariant = { λ t. (t.turn ≤ t.trips) × Reaches t.low t.step t.trips };
}

impl Turning {
    /// Before the first turn.
    pub(crate) fn begin(low: i64, step: u64, trips: u64) -> Turning
        requires { Reaches low step trips }
        ensures { result ≡ begun low step trips }
    {
        Turning {
            low,
            step,
            trips,
            turn: 0,
        }
    }

    pub(crate) fn low(&self) -> i64
        ensures { result ≡ self.now.low }
    {
        self.low
    }

    pub(crate) fn step(&self) -> u64
        ensures { result ≡ self.now.step }
    {
        self.step
    }

    pub(crate) fn trips(&self) -> u64
        ensures same { result ≡ self.now.trips }
        ensures reach { Reaches self.now.low self.now.step self.now.trips }
    {
        self.trips
    }

    pub(crate) fn turn(&self) -> u64
        ensures same { result ≡ self.now.turn }
        ensures few { self.now.turn ≤ self.now.trips }
    {
        self.turn
    }

    /// Whether a turn is left.
    pub(crate) fn has_turn(&self) -> bool
        ensures { result ≡ has_turn self.now }
    {
        self.turn < self.trips
    }

    /// The variable in the next turn.
    pub(crate) fn variable(&self) -> i64
        requires { IsTrue (has_turn self.now) }
        ensures { result ≡ variable_of self.now }
    {
        value_in_turn(self.low, self.step, self.turn)
    }

    pub(crate) fn pass(&mut self)
        requires { IsTrue (has_turn self.old) }
        ensures { self.new ≡ one_passed self.old }
    {
        self.turn += 1;
    }

    pub(crate) fn pass_all(&mut self)
        ensures { self.new ≡ all_passed self.old }
    {
        self.turn = self.trips;
    }
}
