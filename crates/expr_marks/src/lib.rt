// A table that is worked out of a program: for each kind the expressions that serve it.
// stays: may not change: rooted and mark_all, which say where a row of the whole table starts, and pairs_of, which cuts the pairs by a place and a number
#![tactic(auto)]

ghost use Rattle.std.specs.Prelude.{◌≡◌, map, ◌+◌, ◌≤◌};
ghost use Rattle.rows.specs.Seek.{table};
ghost use Rattle.programs.specs.Program.{Program as Lines};
ghost use Rattle.programs.specs.Statements.{exprs_of as named};
ghost use Rattle.tables.specs.Decode.{exprs_of, pairs_of, stmt_of, stmts_of};
ghost use Rattle.marks.specs.Marks.{Served};
ghost use Rattle.marks.specs.Flow.{mark_all};
ghost use Rattle.expr_marks.specs.Naming.{ExprServed, rooted};

use marks::{MARKS, Table};
use tables::{Head, Program, rows_from};

// Marks the expressions of an init list that are lower than n. Costs one turn for each pair.
fn mark_pairs(
    inits: &[u16; 2 * Program::PAIRS],
    b: usize,
    n: usize,
    i: u16,
    c: u16,
    marks: &mut Table,
)
    requires { b + n ≤ 17425 }
    ensures { marks.new ≡ mark_all b n (map (λ xe. xe.1) (pairs_of inits.now i c)) marks.old }
{
    let a = usize::from(i);
    for j in 0..rows_from(Program::PAIRS, a, usize::from(c)) {
        marks::mark_low(marks, b, n, inits[(a + j) * 2 + 1]);
    }
}

// Marks the expressions that a statement names and that are lower than n.
fn mark_named(inits: &[u16; 2 * Program::PAIRS], b: usize, n: usize, h: Head, marks: &mut Table)
    requires { b + n ≤ 17425 }
    ensures { marks.new ≡ mark_all b n (named (stmt_of inits.now h)) marks.old }
{
    match h {
        Head::Assign(_, e)
        | Head::Raise(_, e)
        | Head::Assert(e)
        | Head::If(e, _, _)
        | Head::While(e, _) => marks::mark_low(marks, b, n, e),
        Head::New(_, _, i, c) => mark_pairs(inits, b, n, i, c, marks),
        Head::Send(t, _, a) => {
            marks::mark_low(marks, b, n, t);
            marks::mark_low(marks, b, n, a);
        }
        _ => {}
    }
}

// Marks what each of n statements names, of x expressions, in the row that starts at b, where the statement is marked in that row of `served`.
fn mark_roots(program: &Program, served: &Table, x: usize, n: usize, b: usize, marks: &mut Table)
    requires { (b + 1025 ≤ 17425) × ((x ≤ 1024) × (n ≤ 1024)) }
    ensures { marks.new ≡ rooted program.now.stmts program.now.inits served.now x b (table (λ s. s) 1 n) marks.old }
{
    for s in (1..=n).rev() {
        if served[b + s] != 0 {
            let h = terms::stmt_at(&program.stmts, s);
            mark_named(&program.inits, b, x + 1, h, marks);
        }
    }
}

// WHICH EXPRESSION SERVES WHICH KIND, where `served` says it of the statements. Costs 16 turns for each statement and each expression; a statement and
// an expression are read once for each kind that they serve.
pub fn expr_served(program: &Program, served: &Table) -> Table
    ensures { (p : Lines) → p.exprs ≡ exprs_of program.now.exprs → p.stmts ≡ stmts_of program.now.stmts program.now.inits → Served p served.now → ExprServed p result }
{
    let exprs = &program.exprs;
    let x = tables::expr_count(exprs);
    let n = tables::stmt_count(&program.stmts);
    let mut marks = [0; MARKS];
    for k in 1..=Program::KINDS {
        let b = k * (Program::STATEMENTS + 1);
        mark_roots(program, served, x, n, b, &mut marks);
        marks::flow(
            x,
            b,
            |e| marks::operands_of(terms::expr_at(exprs, e)),
            &mut marks,
        );
    }
    marks
}
