// ANSWER 4, of variables, expressions and statements: everything that such a line names is there. One function for a line of each table, and one for
// each table, which answers its first faulty row.
// stays: no plainer: a search for each table, since each asks of a row what such a row names; what they share is `first_bad`
#![tactic(auto)]

ghost use Rattle.std.specs.Prelude.{◌≡◌, ◌&&◌, List, ℕ, ◌≤◌, length};
ghost use Rattle.lists.specs.Lists.{there};
ghost use Rattle.lists.specs.Check.{each};
ghost use Rattle.programs.specs.Program.{Program as Lines, new};
ghost use Rattle.soundness.specs.Asked.{leaf_refers, expr_refers, stmt_refers, refers};
ghost use Rattle.tables.specs.Decode.{variables_of, exprs_of, pairs_of, stmt_of, stmts_of};
ghost use Rattle.faults.specs.Faults.{row_fault};
ghost use Rattle.faults.specs.Read.{Counted};
ghost use Rattle.faults.specs.Lines.{line_of, number_of};
ghost use Rattle.naming.specs.Naming.{pair_refers};

use faults::{Counts, first_bad};
use programs::{Expr, Leaf};
use tables::{
    Head, Program, expr_count, rows_from, stmt_count, there, variable_count, variable_kind,
    variable_type,
};
use terms::{expr_at, stmt_at};
use values::Ty;

// The first faulty row of the variables: each is of a kind that is there. Linear in the variables.
pub fn variables_refer(program: &Program) -> Option<usize>
    ensures row { (p : Lines) (types : List ℕ) → p.machines ≡ program.now.kinds → p.variables ≡ variables_of program.now.variable_of types → result ≡ line_of (row_fault (refers p).variable p.variables) }
    ensures bound { number_of result ≤ 256 }
{
    first_bad(variable_count(&program.variable_of), |i| {
        let k = variable_kind(&program.variable_of, i);
        there(usize::from(program.kinds), usize::from(k.0))
    })
}

// What a leaf names is there.
fn leaf_refers(l: Leaf, variables: usize) -> bool
    ensures { (p : Lines) → length p.variables ≡ variables → result ≡ (leaf_refers p l).test }
{
    match l {
        Leaf::Var(x) => there(variables, usize::from(x)),
        Leaf::Bot
        | Leaf::Int(_)
        | Leaf::Bool(_)
        | Leaf::This
        | Leaf::Msg
        | Leaf::Arg
        | Leaf::Star => true,
    }
}

// What an expression names is there.
fn expr_refers(x: Expr, variables: usize, exprs: usize) -> bool
    ensures { (p : Lines) → length p.variables ≡ variables → length p.exprs ≡ exprs → result ≡ (expr_refers p x).test }
{
    match x {
        Expr::Leaf(l) => leaf_refers(l, variables),
        Expr::Unary(_, a) => there(exprs, usize::from(a)),
        Expr::Binary(_, a, b) => there(exprs, usize::from(a)) && there(exprs, usize::from(b)),
    }
}

// The first faulty row of the expressions, where there are as many variables. Linear in the expressions.
pub fn exprs_refer(program: &Program, variables: usize) -> Option<usize>
    ensures row { (p : Lines) → length p.variables ≡ variables → p.exprs ≡ exprs_of program.now.exprs → result ≡ line_of (row_fault (refers p).expr p.exprs) }
    ensures bound { number_of result ≤ 1024 }
{
    let n = expr_count(&program.exprs);
    first_bad(n, |i| expr_refers(expr_at(&program.exprs, i), variables, n))
}

// What a pair of an init list names is there.
fn pair_refers(x: u16, e: u16, c: Counts) -> bool
    ensures { result ≡ there c.variables x && there c.exprs e }
{
    there(c.variables, usize::from(x)) && there(c.exprs, usize::from(e))
}

// What the n pairs of an init list from place i on name is there. Linear in the pairs.
// stays: no plainer: i and n are the two numbers that a `new` holds; a slice would have to be cut by each caller, at the pool's end too
fn pairs_refer(program: &Program, i: usize, n: usize, c: Counts) -> bool
    ensures { (p : Lines) → length p.variables ≡ c.variables → length p.exprs ≡ c.exprs → result ≡ (each (pair_refers p) (pairs_of program.now.inits i n)).test }
{
    (0..rows_from(Program::PAIRS, i, n)).all(|j| {
        let x = program.inits[(i + j) * 2];
        let e = program.inits[(i + j) * 2 + 1];
        pair_refers(x, e, c)
    })
}

// What a `new` names is there, and its variable is of type id. Linear in its pairs.
fn new_refers(program: &Program, x: usize, k: usize, i: usize, n: usize, c: Counts) -> bool
    ensures { (p : Lines) → Counted p c → p.variables ≡ variables_of program.now.variable_of program.now.variable_type → result ≡ (stmt_refers p (new x k (pairs_of program.now.inits i n))).test }
{
    let t = variable_type(&program.variable_of, &program.variable_type, x);
    there(c.variables, x) && t == Ty::Id && there(c.kinds, k) && pairs_refer(program, i, n, c)
}

// What a statement names is there. Linear in its pairs.
fn stmt_refers(program: &Program, h: Head, c: Counts) -> bool
    ensures { (p : Lines) → Counted p c → p.variables ≡ variables_of program.now.variable_of program.now.variable_type → result ≡ (stmt_refers p (stmt_of program.now.inits h)).test }
{
    match h {
        Head::Skip | Head::Delete | Head::Leave | Head::Return => true,
        Head::Assign(x, e) => {
            there(c.variables, usize::from(x)) && there(c.exprs, usize::from(e))
        }
        Head::New(x, k, i, n) => new_refers(
            program,
            usize::from(x),
            usize::from(k.0),
            usize::from(i),
            usize::from(n),
            c,
        ),
        Head::Send(t, e, a) => {
            there(c.exprs, usize::from(t))
                && there(c.events, usize::from(e))
                && usize::from(a) <= c.exprs
        }
        Head::Raise(e, a) => there(c.events, usize::from(e)) && usize::from(a) <= c.exprs,
        Head::Assert(e) => there(c.exprs, usize::from(e)),
        Head::Seq(a, b) => usize::from(a) <= c.stmts && usize::from(b) <= c.stmts,
        Head::If(e, a, b) => {
            there(c.exprs, usize::from(e)) && usize::from(a) <= c.stmts && usize::from(b) <= c.stmts
        }
        Head::While(e, a) => there(c.exprs, usize::from(e)) && usize::from(a) <= c.stmts,
    }
}

// The first faulty row of the statements. Linear in the statements and their pairs.
pub fn stmts_refer(program: &Program, c: Counts) -> Option<usize>
    ensures row { (p : Lines) → Counted p c → p.variables ≡ variables_of program.now.variable_of program.now.variable_type → p.stmts ≡ stmts_of program.now.stmts program.now.inits → result ≡ line_of (row_fault (refers p).stmt p.stmts) }
    ensures bound { number_of result ≤ 1024 }
{
    first_bad(stmt_count(&program.stmts), |i| {
        stmt_refers(program, stmt_at(&program.stmts, i), c)
    })
}
