// The number that document 01 gives each answer.
// stays: no plainer: the cast of an enum that numbers its answers, under the name that contracts cite
#![tactic(auto)]

ghost use Rattle.std.specs.Prelude.{◌≡◌};
ghost use Rattle.answers.specs.Number.{number};

use answers::Answer;

pub fn number(a: Answer) -> u8
    ensures { result ≡ number a }
{
    a as u8
}
