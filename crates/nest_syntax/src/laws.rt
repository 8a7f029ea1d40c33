ghost use Rattle.nest_syntax.specs.Reads.{ReckoningsAreValues};

/// What an expression does in a turn, step by step, is its value: carried out on words, the turn goes on with it, or stops
/// at its trap. So the order of evaluation that `Turn` says is that of `Value`.
pub fn reckonings_are_values()
    ensures { ReckoningsAreValues }
{}
