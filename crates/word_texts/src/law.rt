ghost use Rattle.std.specs.Prelude.{◌≡◌, List};
ghost use Rattle.word_texts.specs.Spelling.{Text, Pair, Give};

/// The words give one list of pairs at most.
pub fn one_list()
    ensures { (words : List Text) (a b : List Pair) → Give words a → Give words b → a ≡ b }
{}
