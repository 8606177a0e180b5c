// Answer 4 again: "A foreign variable is the fault of the line naming it". Which expression serves which kind is worked out once, and then each line is
// looked at.
#![tactic(auto)]

ghost use Rattle.std.specs.Prelude.{◌≡◌, ◌≤◌};
ghost use Rattle.lists.specs.Lists.{all};
ghost use Rattle.programs.specs.Program.{Program as Lines};
ghost use Rattle.tables.specs.Decode.{pairs_of};
ghost use Rattle.soundness.specs.Asked.{own as asked};
ghost use Rattle.soundness.specs.Sound.{lines, first_fault};
ghost use Rattle.faults.specs.Asking.{Tells};
ghost use Rattle.faults.specs.Lines.{line_of};
ghost use Rattle.marks.specs.Marks.{Served};
ghost use Rattle.ownness.specs.Own.{kind_in, own_kind, own_at, own_leaf, own_expr, own_pair, own_stmt};

use faults::{count_rows, first_bad, front, joined, onward};
use marks::Table;
use programs::{Expr, Leaf};
use tables::{Head, Kind, Program, rows_from};

// The kind of variable x.
fn kind_of(program: &Program, x: u16) -> Kind
    ensures { result.0 ≡ kind_in program.now.variable_of x }
{
    tables::variable_kind(&program.variable_of, usize::from(x))
}

// A variable of kind `of` in line n, against a mark of kind k.
fn own_kind(marks: &Table, n: usize, of: Kind, k: usize) -> bool
    requires { (n ≤ 1024) × (k ≤ 16) }
    ensures { result ≡ own_kind marks.now n of.0 k }
{
    marks[k * (Program::STATEMENTS + 1) + n] == 0 || usize::from(of.0) == k
}

// A variable of kind `of` in line n is of each kind that the line serves. Costs one turn for each kind.
fn own_at(program: &Program, marks: &Table, n: usize, of: Kind) -> bool
    requires { (n ≤ 1024) × (program.now.kinds ≤ 16) }
    ensures { result ≡ own_at marks.now program.now.kinds n of.0 }
{
    first_bad(usize::from(program.kinds), |k| own_kind(marks, n, of, k)).is_none()
}

// A leaf of expression n names no foreign variable.
fn own_leaf(program: &Program, marks: &Table, n: usize, l: Leaf) -> bool
    requires { (n ≤ 1024) × (program.now.kinds ≤ 16) }
    ensures { result ≡ own_leaf marks.now program.now.kinds program.now.variable_of n l }
{
    match l {
        Leaf::Var(x) => own_at(program, marks, n, kind_of(program, x)),
        _ => true,
    }
}

// Expression n names no foreign variable.
fn own_expr(program: &Program, marks: &Table, n: usize) -> bool
    requires { (n ≤ 1024) × (program.now.kinds ≤ 16) }
    ensures { result ≡ own_expr marks.now program.now.kinds program.now.variable_of program.now.exprs n }
{
    match terms::expr_at(&program.exprs, n) {
        Expr::Leaf(l) => own_leaf(program, marks, n, l),
        _ => true,
    }
}

// The variables of an init list are of kind m. Costs one turn for each pair.
fn own_pairs(program: &Program, m: Kind, i: u16, c: u16) -> bool
    ensures { result ≡ all (own_pair program.now.variable_of m.0) (pairs_of program.now.inits i c) }
{
    let a = usize::from(i);
    let n = rows_from(Program::PAIRS, a, usize::from(c));
    (0..n).all(|j| kind_of(program, program.inits[(a + j) * 2]) == m)
}

// Statement n names no foreign variable.
fn own_stmt(program: &Program, served: &Table, n: usize) -> bool
    requires { (n ≤ 1024) × (program.now.kinds ≤ 16) }
    ensures { result ≡ own_stmt served.now program.now.kinds program.now.variable_of program.now.stmts program.now.inits n }
{
    match terms::stmt_at(&program.stmts, n) {
        Head::Assign(x, _) => own_at(program, served, n, kind_of(program, x)),
        Head::New(x, m, i, c) => {
            own_at(program, served, n, kind_of(program, x)) && own_pairs(program, m, i, c)
        }
        _ => true,
    }
}

// THE FIRST LINE that names a foreign variable. `served` says which statement serves which kind, and there are at most 16 kinds. Costs 16 turns for each
// expression and each statement, and one for each pair of an init list for each kind that its statement serves.
pub fn own(program: &Program, served: &Table) -> Option<usize>
    requires { program.now.kinds ≤ 16 }
    ensures { (p : Lines) → Tells p program.now → Served p served.now → result ≡ line_of (first_fault 1 (lines p (asked p))) }
{
    let c = count_rows(program);
    let marks = expr_marks::expr_served(program, served);
    let e = first_bad(c.exprs, |e| own_expr(program, &marks, e));
    let s = first_bad(c.stmts, |s| own_stmt(program, served, s));
    onward(front(program), joined(e, c.exprs, s))
}
