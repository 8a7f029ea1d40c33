//! The sum of a program's words.
ghost use Rattle.std.specs.Prelude.{◌≡◌, ◌<◌, ◌^◌, ◌+ℤ◌, length};
ghost use Rattle.nest_syntax.specs.Words.{wrap};
ghost use Rattle.nest_syntax.specs.Arrays.{arrays_of};
ghost use Rattle.word_store.specs.Memory.{HasLayout};
ghost use Rattle.nest_data.specs.Sum as summed;

use nest_check::Checked;
use nest_syntax::Decl;
use word_store::Words;

/// The sum of all words of the arrays that aren't `const`, by the language's `+`. The words have the sizes of the declared
/// arrays.
pub fn sum_words(words: &Words, checked: &Checked) -> i64
    requires { HasLayout words.now checked.now.decls }
    ensures { result ≡ summed.sum_of (summed.written_words words.now 0 checked.now.decls) }
{
    sum_lines(words, checked.program().decls.as_slice())
}

// The same of declarations.
#[tactic(auto, using(crate::proofs::Summed::more_added))]
fn sum_lines(words: &Words, decls: &[Decl]) -> i64
    requires sizes { HasLayout words.now decls.now }
    requires few { length (arrays_of decls.now) < 2 ^ 32 }
    ensures { result ≡ summed.sum_of (summed.written_words words.now 0 decls.now) }
{
    let mut total = 0i64;
    let mut number = 0u32;
    for decl in decls {
        if let Decl::Array { fixed, .. } = decl {
            if !fixed {
                total = added(total, words.array(number));
            }
            number += 1;
        }
    }
    total
}

// A sum with further words.
fn added(total: i64, values: &[i64]) -> i64
    ensures { result ≡ summed.added total values.now }
{
    let mut sum = total;
    for value in values {
        sum = plus(sum, *value);
    }
    sum
}

#[tactic(auto, using(std::proofs::lemmas::Int::wraps))]
fn plus(sum: i64, word: i64) -> i64
    ensures { result ≡ wrap (sum +ℤ word) }
{
    sum.wrapping_add(word)
}
