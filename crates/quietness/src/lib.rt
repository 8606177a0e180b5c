// Answer 7: "an exit with raise, return or leave anywhere inside". Which statements are quiet is worked out once, upward, and then each state is looked at.
#![tactic(auto)]

ghost use Rattle.std.specs.Prelude.{◌≡◌, ◌≤◌};
ghost use Rattle.lists.specs.Lists.{all};
ghost use Rattle.programs.specs.Program.{Program as Lines};
ghost use Rattle.soundness.specs.Asked.{quiet as asked};
ghost use Rattle.soundness.specs.Sound.{lines, first_fault};
ghost use Rattle.faults.specs.Lines.{line_of};
ghost use Rattle.marks.specs.Inner.{listed};
ghost use Rattle.quietness.specs.Quiet.{TellsStates, Loud, quiet_head, quiet_low, quiet_here};

use faults::{count_rows, first_bad, front, onward};
use marks::{Inner, climb, item_or};
use tables::{Head, Program};

// No raise, return or leave.
fn quiet_head(h: Head) -> bool
    ensures { result ≡ quiet_head h }
{
    !matches!(h, Head::Raise(_, _) | Head::Leave | Head::Return)
}

// All parts of statement s are quiet; one that is not lower counts as quiet.
fn quiet_inner(loud: &[u8; Program::STATEMENTS + 1], s: usize, i: Inner) -> bool
    requires { s ≤ 1024 }
    ensures { result ≡ all (quiet_low loud.now s) (listed i) }
{
    let lower = &loud[..s];
    match i {
        Inner::Nothing => true,
        Inner::One(a) => item_or(lower, a, 0) == 0,
        Inner::Two(a, b) => item_or(lower, a, 0) == 0 && item_or(lower, b, 0) == 0,
    }
}

// Statement s is quiet, and so are its parts.
fn quiet_stmt(
    stmts: &[u16; 5 * (Program::STATEMENTS + 1)],
    loud: &[u8; Program::STATEMENTS + 1],
    s: usize,
) -> bool
    requires { s ≤ 1024 }
    ensures { result ≡ quiet_here stmts.now loud.now s }
{
    let h = terms::stmt_at(stmts, s);
    quiet_head(h) && quiet_inner(loud, s, marks::parts_of(h))
}

// A mark at each statement that is not quiet. Costs one turn for each statement.
fn loud(stmts: &[u16; 5 * (Program::STATEMENTS + 1)]) -> [u8; Program::STATEMENTS + 1]
    ensures { Loud stmts.now result }
{
    // stays: may not change: Loud and Hushing say of a place that it is 0 or not
    climb(
        tables::stmt_count(stmts),
        0,
        |loud, s| u8::from(!quiet_stmt(stmts, loud, s)),
    )
}

// THE FIRST LINE of a state whose exit is not quiet. Costs one turn for each statement and one for each state.
pub fn quiet(program: &Program) -> Option<usize>
    ensures { (p : Lines) → TellsStates p program.now → result ≡ line_of (first_fault 1 (lines p (asked p))) }
{
    let c = count_rows(program);
    let marks = loud(&program.stmts);
    let q = first_bad(c.states, |q| item_or(&marks, program.state_exit[q], 0) == 0);
    let before = front(program) + c.exprs + c.stmts + c.actions;
    onward(before, q)
}
