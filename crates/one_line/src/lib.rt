// One line of a text (answers 2 and 3): it is recognised, its order and its range are tested, and it is taken into the arrays.
// Every byte is looked at a small constant number of times: once for the end of its line, and again where forms with the same beginning are tried.
#![tactic(auto)]

ghost use Rattle.std.specs.Prelude.{◌≡◌, cond, eqb, leb, ltb};
ghost use Rattle.one_line.specs.Loop.{LineTurn, TurnedAs};

use answers::Answer;
use gathering::Lines;

// Behind a line: the place at which the next one begins, and the line's kind.
// stays: may not change: ordered and kind (texts, Reading), which compare the numbers of the kinds
#[derive(Clone, Copy)]
pub struct Next {
    pub at: usize,
    pub kind: usize,
}

// A line of a kind may stand after one of the kind `last`.
fn in_order(last: usize, kind: usize) -> bool
    ensures { result ≡ cond (eqb kind 11) (ltb last 11) (leb last kind) }
{
    if kind == 11 { last < 11 } else { last <= kind }
}

// The line at a place, after one of the kind `last`.
pub fn read_line(s: &[u8], at: usize, last: usize, lines: &mut Lines) -> Result<Next, Answer>
    requires { LineTurn s.now last at lines.old }
    ensures { (h : LineTurn s.now last at lines.old) → TurnedAs s.now last at h.lines result lines.new }
{
    let e = numerals::until(s, b'\n', at, s.len());
    if s.len() <= e {
        return Err(Answer::NotInForm);
    }
    let form = forms::form_of(s, at, e).ok_or(Answer::NotInForm)?;
    let kind = spoken::kind_of(form.row);
    if !in_order(last, kind) {
        return Err(Answer::NotInForm);
    }
    if !taking_lines::take_line(s, form.row, form.at, lines) {
        return Err(Answer::OutOfRange);
    }
    Ok(Next { at: e + 1, kind })
}
