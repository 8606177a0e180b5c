// A rule as a number, the rule of a number, and which numbers are a meeting's.
#![tactic(auto)]

ghost use Rattle.std.specs.Prelude.{◌≡◌};
ghost use Rattle.labels.specs.Labels.{rule_number, rule_of, meeting};

use rules::Rule;

// The number of a rule.
pub fn rule_number(rule: Rule) -> u8
    ensures { result ≡ rule_number rule }
{
    rule as u8
}

// The rule of a number.
// stays: may not change: labels::rule_of, which has a rule for every number, as a TryFrom has not
pub fn rule_of(n: u8) -> Rule
    ensures { result ≡ rule_of n }
{
    match n {
        1 => Rule::ASSIGN,
        2 => Rule::NEW,
        3 => Rule::DELETE,
        4 => Rule::ASSERT,
        5 => Rule::SEQ,
        6 => Rule::IF,
        7 => Rule::WHILE,
        8 => Rule::SEND,
        9 => Rule::RAISE,
        10 => Rule::LEAVE,
        11 => Rule::RETURN,
        12 => Rule::DEQUEUE,
        13 => Rule::STEP,
        14 => Rule::ACTION,
        15 => Rule::CALL,
        16 => Rule::POP1,
        _ => Rule::POP2,
    }
}

// Whether a rule's number is a meeting's.
// stays: may not change: meeting, which tells a rule by its number
pub fn is_meeting(n: u8) -> bool
    ensures { result ≡ meeting n }
{
    matches!(n, 2 | 3 | 8 | 12)
}
