ghost use Rattle.cross_top.specs.Answers.{OneAnswer};

use nest_input::one_saying;
use nest_profile::one_least;
use nest_runtime::facts_are_due;

/// A law: two answers to one call and input are the same, where their steps are the same and they refuse the same step of
/// `replay` or none. By `speccross` and `barrier` they may differ in the facts. So the bytes of `plain`, `check`, `deps`,
/// `profile` and `gen` are a function of words and input.
pub fn one_answer()
    ensures { OneAnswer }
{
    one_saying();
    facts_are_due();
    one_least();
}
