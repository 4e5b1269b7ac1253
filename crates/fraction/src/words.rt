// Words as numbers and figures: whole numbers go into words and come out of them.
#![tactic(auto, unfolding(crate::specs::Words::word_of))]

ghost use Rattle.std.specs.Prelude.{◌≡◌};
ghost use Rattle.fraction.specs.Words.{word, word_of, whole_of, natural_of};

use crate::Fraction;

// The word at a place; 0 outside.
pub fn word_at(words: &[i32], at: usize) -> i32
    ensures { result ≡ word words.now at }
{
    words.get(at).copied().unwrap_or(0)
}

// A number as a word; 0 where it is beyond range.
pub fn word_of(k: usize) -> i32
    ensures { result ≡ word_of k }
{
    i32::try_from(k).unwrap_or(0)
}

// A number as a fraction.
pub fn whole(k: usize) -> Fraction
    ensures { result ≡ whole_of k }
{
    Fraction {
        num: word_of(k),
        den: 1,
    }
}

// A numerator as a number; 0 below zero.
pub fn natural_of(f: Fraction) -> usize
    ensures { result ≡ natural_of f.num }
{
    usize::try_from(f.num).unwrap_or(0)
}
