// Answer 8: "height over 32, or more than 8 `*`". The heights and the stars of the expressions are worked out once, upward, and then each line is looked at.
#![tactic(auto)]

ghost use Rattle.std.specs.Prelude.{◌≡◌, map, ◌+◌, ◌≤◌};
ghost use Rattle.programs.specs.Program.{Program as Lines};
ghost use Rattle.programs.specs.Trees.{stars, tip};
ghost use Rattle.tables.specs.Decode.{exprs_of, pairs_of};
ghost use Rattle.soundness.specs.Asked.{low as asked};
ghost use Rattle.soundness.specs.Sound.{lines, first_fault};
ghost use Rattle.faults.specs.Asking.{Tells};
ghost use Rattle.faults.specs.Lines.{line_of};
ghost use Rattle.marks.specs.Marks.{Heights};
ghost use Rattle.marks.specs.Tall.{low_at, Low};
ghost use Rattle.lowness.specs.Trees.{few, Few, ExprHeights, ExprStars, stars_over};
ghost use Rattle.lowness.specs.Stars.{counted, few_total, stmt_stars};
ghost use Rattle.lowness.specs.Low.{low_stmt};

use faults::{count_rows, first_bad, front, joined, onward};
use marks::{climb, height_over, item_or, operands_of};
use programs::{Expr, Leaf};
use tables::{Head, Program, rows_from};

// The height of each expression. Costs one turn for each expression.
fn expr_heights(exprs: &[u32; 3 * (Program::EXPRESSIONS + 1)]) -> [u16; Program::EXPRESSIONS + 1]
    ensures { (p : Lines) → p.exprs ≡ exprs_of exprs.now → ExprHeights p result }
{
    climb(
        tables::expr_count(exprs),
        1,
        |heights, e|
            requires { (1 ≤ e) × ((e ≤ 1024) × Low heights.now e) }
        { height_over(heights, e, operands_of(terms::expr_at(exprs, e))) },
    )
}

// Two counts together: 9 at most.
fn add_few(a: u8, b: u8) -> u8
    requires { (a ≤ 9) × (b ≤ 9) }
    ensures { result ≡ few (a + b) }
{
    (a + b).min(9)
}

// The stars of a leaf.
fn leaf_stars(l: Leaf) -> u8
    ensures { result ≡ stars (tip l) }
{
    u8::from(l == Leaf::Star)
}

// The stars of expression e, from those of the lower ones.
fn stars_over(counts: &[u8; Program::EXPRESSIONS + 1], e: usize, x: Expr) -> u8
    requires { (e ≤ 1024) × Few counts.now }
    ensures { (result ≡ stars_over (low_at 0 counts.now e) x) × (result ≤ 9) }
{
    let lower = &counts[..e];
    match x {
        Expr::Leaf(l) => leaf_stars(l),
        Expr::Unary(_, a) => item_or(lower, a, 0),
        Expr::Binary(_, a, b) => add_few(item_or(lower, a, 0), item_or(lower, b, 0)),
    }
}

// How many stars each expression has. Costs one turn for each expression.
fn expr_stars(exprs: &[u32; 3 * (Program::EXPRESSIONS + 1)]) -> [u8; Program::EXPRESSIONS + 1]
    ensures { Few result × ((p : Lines) → p.exprs ≡ exprs_of exprs.now → ExprStars p result) }
{
    climb(
        tables::expr_count(exprs),
        0,
        |counts, e|
            requires { (e ≤ 1024) × Few counts.now }
        { stars_over(counts, e, terms::expr_at(exprs, e)) },
    )
}

// The stars of expression e.
fn stars_at(counts: &[u8; Program::EXPRESSIONS + 1], e: u16) -> u8
    requires { Few counts.now }
    ensures { (result ≡ counted counts.now e) × (result ≤ 9) }
{
    item_or(counts, e, 0)
}

// The stars of an init list. Costs one turn for each pair.
fn init_stars(
    counts: &[u8; Program::EXPRESSIONS + 1],
    inits: &[u16; 2 * Program::PAIRS],
    i: u16,
    n: u16,
) -> u8
    requires { Few counts.now }
    ensures { result ≡ few_total (counted counts.now) (map (λ xe. xe.1) (pairs_of inits.now i n)) }
{
    let a = usize::from(i);
    let m = rows_from(Program::PAIRS, a, usize::from(n));
    let mut sum = 0;
    for j in (0..m).rev() {
        sum = add_few(stars_at(counts, inits[(a + j) * 2 + 1]), sum);
    }
    sum
}

// The stars of a statement's expressions.
fn stmt_stars(
    counts: &[u8; Program::EXPRESSIONS + 1],
    inits: &[u16; 2 * Program::PAIRS],
    h: Head,
) -> u8
    requires { Few counts.now }
    ensures { result ≡ stmt_stars counts.now inits.now h }
{
    match h {
        Head::Assign(_, e)
        | Head::Raise(_, e)
        | Head::Assert(e)
        | Head::If(e, _, _)
        | Head::While(e, _) => stars_at(counts, e),
        Head::New(_, _, i, n) => init_stars(counts, inits, i, n),
        Head::Send(t, _, a) => add_few(stars_at(counts, t), stars_at(counts, a)),
        _ => 0,
    }
}

// Statement s is low enough and has few stars.
fn low_stmt(
    program: &Program,
    heights: &[u16; Program::STATEMENTS + 1],
    counts: &[u8; Program::EXPRESSIONS + 1],
    s: usize,
) -> bool
    requires { (s ≤ 1024) × Few counts.now }
    ensures { result ≡ low_stmt heights.now counts.now program.now.stmts program.now.inits s }
{
    let h = terms::stmt_at(&program.stmts, s);
    usize::from(heights[s]) <= Program::HEIGHT
        && usize::from(stmt_stars(counts, &program.inits, h)) <= Program::STARS
}

// THE FIRST LINE that is too high or has too many stars. `heights` has the heights of the statements. Costs three turns for each expression, one for each
// statement and one for each pair of its init list.
pub fn low(program: &Program, heights: &[u16; Program::STATEMENTS + 1]) -> Option<usize>
    ensures { (p : Lines) → Tells p program.now → Heights p heights.now → result ≡ line_of (first_fault 1 (lines p (asked p))) }
{
    let c = count_rows(program);
    let tall = expr_heights(&program.exprs);
    let counts = expr_stars(&program.exprs);
    let e = first_bad(c.exprs, |e| usize::from(tall[e]) <= Program::HEIGHT);
    let s = first_bad(c.stmts, |s| low_stmt(program, heights, &counts, s));
    onward(front(program), joined(e, c.exprs, s))
}
