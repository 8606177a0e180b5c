// What the functions that take an expression, a statement or a state share: an operand of the line, as the tables have it.
#![tactic(auto)]

ghost use Rattle.std.specs.Prelude.{◌≡◌, cond, drop};
ghost use Rattle.lists.specs.Lists.{on_opt};
ghost use Rattle.texts.specs.Numbers.{decimal};
ghost use Rattle.tabled.specs.Tabled.{word_of};
ghost use Rattle.readers.specs.Words.{word};

use spoken::number_at;
use terms::short;

// The number at a place of the text, in 16 bits; 0 where the line has no such operand.
// stays: may not change: the clause `cond there .. 0` at a place of the text, since a row of the tables has 0 there
pub fn operand(s: &[u8], at: usize, there: bool) -> u16
    ensures { result ≡ cond there (word_of (on_opt (decimal (word (drop at s.now))) 0 (λ n. n))) 0 }
{
    if there { short(number_at(s, at)) } else { 0 }
}
