// The lines of a text from the first to the last (answers 2 and 3), one after the other.
#![tactic(auto)]

ghost use Rattle.reading.specs.Whole.{Begun, ReadAs};

use answers::{Answer, Refusal};
use gathering::Lines;
use tables::Kind;

// ALL LINES, where none is read yet; the kind that the program starts with.
pub fn read_lines(s: &[u8], lines: &mut Lines) -> Result<Kind, Refusal>
    requires { Begun s.now lines.old }
    ensures { ReadAs s.now result lines.new }
{
    let mut at: usize = 0;
    let mut line: usize = 1;
    // stays: may not change: reading, which has 0 for the kind before the first line
    let mut last: usize = 0;
    // stays: no plainer: the next line begins where the last one ended
    while at < s.len() {
        let next = one_line::read_line(s, at, last, lines).map_err(|answer| Refusal {
            answer,
            line,
        })?;
        at = next.at;
        last = next.kind;
        line += 1;
    }
    lines.start.ok_or(Refusal {
        answer: Answer::NotInForm,
        line,
    })
}
