// ANSWER 5: a part is lower than its whole, and each expression and each statement is named at most once. The tables are gone through once, with a mark for
// each number that was named before.
#![tactic(auto)]

ghost use Rattle.std.specs.Prelude.{◌≡◌, List, [], ◌++◌, map, ℕ, ◌≤◌};
ghost use Rattle.lists.specs.Lists.{flat};
ghost use Rattle.lists.specs.Check.{under, each};
ghost use Rattle.programs.specs.Program.{Program as Lines};
ghost use Rattle.programs.specs.Trees.{operands};
ghost use Rattle.programs.specs.Statements.{parts, exprs_of as exprs_in};
ghost use Rattle.soundness.specs.Asked.{bodies, lower};
ghost use Rattle.soundness.specs.Sound.{lines, first_fault};
ghost use Rattle.tables.specs.Decode.{exprs_of, stmt_of, stmts_of, actions_of, states_of};
ghost use Rattle.faults.specs.Faults.{row_fault};
ghost use Rattle.faults.specs.Lines.{line_of, number_of};
ghost use Rattle.faults.specs.Read.{Counted, Small};
ghost use Rattle.doubling.specs.Doubling.{Seen};
ghost use Rattle.lowering.specs.Lowering.{HasParts};

use doubling::{NUMBERS, name, name_exprs, name_operands, name_parts, name_two};
use faults::{Counts, fault, joined, onward};
use programs::Expr;
use tables::{
    Head, Program, action_count, body_of, entry_of, exit_of, expr_count, state_count, stmt_count,
};
use terms::{expr_at, stmt_at};

// The operands of an expression are lower than n.
fn operands_lower(x: Expr, n: usize) -> bool
    ensures { result ≡ (each (λ a. under a n) (operands x)).test }
{
    match x {
        Expr::Leaf(_) => true,
        Expr::Unary(_, a) => usize::from(a) < n,
        Expr::Binary(_, a, b) => usize::from(a) < n && usize::from(b) < n,
    }
}

// The parts of a statement are lower than n.
fn parts_lower(h: Head, n: usize) -> bool
    ensures { (inits : List ℕ) → result ≡ (each (λ a. under a n) (parts (stmt_of inits h))).test }
{
    match h {
        Head::Skip
        | Head::Assign(_, _)
        | Head::New(_, _, _, _)
        | Head::Delete
        | Head::Send(_, _, _)
        | Head::Raise(_, _)
        | Head::Leave
        | Head::Return
        | Head::Assert(_) => true,
        Head::Seq(a, b) => usize::from(a) < n && usize::from(b) < n,
        Head::If(_, a, b) => usize::from(a) < n && usize::from(b) < n,
        Head::While(_, a) => usize::from(a) < n,
    }
}

// The first faulty row of the expressions, and the marks of their operands. Linear in the expressions.
// stays: no plainer: four loops over rows, not one over a closure: each sets marks of its own, which a closure's contract could only give as steps;
// and from 0, since `joined` is told of the i rows before row i + 1
fn exprs_lower(program: &Program, seen: &mut [u8; NUMBERS]) -> Option<usize>
    ensures row { (p : Lines) → p.exprs ≡ exprs_of program.now.exprs → Seen seen.old [] → (result ≡ line_of (row_fault (lower p).expr p.exprs)) × Seen seen.new (flat operands p.exprs) }
    ensures bound { number_of result ≤ 1024 }
{
    let mut first = None;
    for i in 0..expr_count(&program.exprs) {
        let x = expr_at(&program.exprs, i + 1);
        let low = operands_lower(x, i + 1);
        let again = name_operands(seen, x);
        first = joined(first, i, fault(low && !again));
    }
    first
}

// The first faulty row of the statements, and the marks of their expressions and of their parts. Linear in the statements and their pairs.
fn stmts_lower(
    program: &Program,
    seen: &mut [u8; NUMBERS],
    done: &mut [u8; NUMBERS],
) -> Option<usize>
    ensures row { (p : Lines) → p.stmts ≡ stmts_of program.now.stmts program.now.inits → Seen seen.old (flat operands p.exprs) → Seen done.old [] → (result ≡ line_of (row_fault (lower p).stmt p.stmts)) × Seen seen.new (flat operands p.exprs ++ flat exprs_in p.stmts) × Seen done.new (flat parts p.stmts) }
    ensures bound { number_of result ≤ 1024 }
{
    let mut first = None;
    for i in 0..stmt_count(&program.stmts) {
        let h = stmt_at(&program.stmts, i + 1);
        let low = parts_lower(h, i + 1);
        let again = name_exprs(seen, h, &program.inits) | name_parts(done, h);
        first = joined(first, i, fault(low && !again));
    }
    first
}

// The first faulty row of the actions, and the marks of their statements. Linear in the actions.
fn actions_lower(program: &Program, done: &mut [u8; NUMBERS]) -> Option<usize>
    ensures row { (p : Lines) → p.actions ≡ actions_of program.now.action_of program.now.action_body → Seen done.old (flat parts p.stmts) → (result ≡ line_of (row_fault (lower p).action p.actions)) × Seen done.new (flat parts p.stmts ++ map (λ a. a.body) p.actions) }
    ensures bound { number_of result ≤ 64 }
{
    let mut first = None;
    for i in 0..action_count(&program.action_of) {
        let s = body_of(&program.action_of, &program.action_body, i + 1);
        let again = name(done, s);
        first = joined(first, i, fault(!again));
    }
    first
}

// The first faulty row of the states, and the marks of their entries and exits. Linear in the states.
fn states_lower(program: &Program, done: &mut [u8; NUMBERS]) -> Option<usize>
    ensures row { (p : Lines) (flags : List ℕ) → p.states ≡ states_of program.now.state_of program.now.state_entry program.now.state_exit flags → Seen done.old (flat parts p.stmts ++ map (λ a. a.body) p.actions) → (result ≡ line_of (row_fault (lower p).state p.states)) × Seen done.new (flat parts p.stmts ++ (map (λ a. a.body) p.actions ++ flat (bodies p) p.states)) }
    ensures bound { number_of result ≤ 64 }
{
    let mut first = None;
    for i in 0..state_count(&program.state_of) {
        let x = entry_of(&program.state_of, &program.state_entry, i + 1);
        let y = exit_of(&program.state_of, &program.state_exit, i + 1);
        let again = name_two(done, x, y);
        first = joined(first, i, fault(!again));
    }
    first
}

// ANSWER 5: the first line with a part that is not lower, or that is named again, of a program with c's rows. Linear in the lines, their pairs and the marks.
pub fn lower(c: Counts, program: &Program) -> Option<usize>
    requires { Small c }
    ensures { (p : Lines) → Counted p c → HasParts p program.now → result ≡ line_of (first_fault 1 (lines p (lower p))) }
{
    let mut seen: [u8; NUMBERS] = [0; NUMBERS];
    let e = exprs_lower(program, &mut seen);
    let mut done: [u8; NUMBERS] = [0; NUMBERS];
    let s = stmts_lower(program, &mut seen, &mut done);
    let a = actions_lower(program, &mut done);
    let q = states_lower(program, &mut done);
    let all = joined(e, c.exprs, joined(s, c.stmts, joined(a, c.actions, q)));
    onward(c.events + c.kinds + c.variables, all)
}
