//! How much a turn of a body takes at most: operations and stops, read off the body's text.
//!
//! A law of the definitions of `nest_syntax`. The function here is that law; it does nothing.
#![tactic(auto)]

ghost use Rattle.turn_cost.specs.Costs.{TurnsCostAtMost};

/// A turn of a body has no more operations and stops than the body's text says, whatever the scalars and whatever it reads.
pub fn turns_cost_at_most()
    ensures { TurnsCostAtMost }
{}
