ghost use Rattle.std.specs.Prelude.{◌≡◌, List};
ghost use Rattle.word_texts.specs.Spelling.{Text};
ghost use Rattle.cross_words.specs.Table.{Say};
ghost use Rattle.cross_words.specs.Ranges.{IsInRange};
ghost use Rattle.cross_words.specs.declared.call.Call.{Call};

use word_texts::one_list;

/// The words say one call at most.
pub fn one_call()
    ensures { (words : List Text) (a b : Call) → Say words a → Say words b → a ≡ b }
{
    one_list();
}

/// Each number of a call that words say is in its range.
pub fn calls_are_in_range()
    ensures { (words : List Text) (call : Call) → Say words call → IsInRange call }
{}
