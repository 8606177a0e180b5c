// Numbers named one after the other, with a mark for each that was named before: whether one is named again. So of the expressions and the statements that
// an expression or a statement names.
#![tactic(auto, using(crate::specs::Doubling::named_none))]

ghost use Rattle.std.specs.Prelude.{◌≡◌, List, [], ◌∷◌, map, ℕ};
ghost use Rattle.programs.specs.Trees.{operands};
ghost use Rattle.programs.specs.Statements.{parts, exprs_of};
ghost use Rattle.tables.specs.Decode.{pairs_of, stmt_of};
ghost use Rattle.doubling.specs.Doubling.{Named};

use programs::Expr;
use tables::{Head, Program, rows_from};

// A mark for each number of 16 bits.
// stays: may not change: Seen and Named of specs/Doubling, in which a mark is a number, 0 where it is not set
pub const NUMBERS: usize = 65536;

// Names x. 0 names nothing, so it is never named again.
pub fn name(seen: &mut [u8; NUMBERS], x: u16) -> bool
    ensures { Named seen.old (x ∷ []) result seen.new }
{
    let i = usize::from(x);
    let old = seen[i];
    seen[i] = 1;
    x != 0 && old != 0
}

// Names x, then y.
pub fn name_two(seen: &mut [u8; NUMBERS], x: u16, y: u16) -> bool
    ensures { Named seen.old (x ∷ y ∷ []) result seen.new }
{
    name(seen, x) | name(seen, y)
}

// Names the expressions of the n pairs of an init list from place i on. Linear in the pairs.
// stays: no plainer: i and n are the two numbers that a `new` holds; a slice would have to be cut by each caller, at the pool's end too
fn name_pairs(
    seen: &mut [u8; NUMBERS],
    inits: &[u16; 2 * Program::PAIRS],
    i: usize,
    n: usize,
) -> bool
    ensures { Named seen.old (map (λ xe. xe.1) (pairs_of inits.now i n)) result seen.new }
{
    let mut again = false;
    for j in 0..rows_from(Program::PAIRS, i, n) {
        let e = inits[(i + j) * 2 + 1];
        again |= name(seen, e);
    }
    again
}

// Names the expressions of a statement. Linear in its pairs.
pub fn name_exprs(seen: &mut [u8; NUMBERS], h: Head, inits: &[u16; 2 * Program::PAIRS]) -> bool
    ensures { Named seen.old (exprs_of (stmt_of inits.now h)) result seen.new }
{
    match h {
        Head::Skip | Head::Delete | Head::Leave | Head::Return | Head::Seq(_, _) => false,
        Head::Assign(_, e) => name(seen, e),
        Head::New(_, _, i, n) => name_pairs(seen, inits, usize::from(i), usize::from(n)),
        Head::Send(t, _, a) => name_two(seen, t, a),
        Head::Raise(_, a) => name(seen, a),
        Head::Assert(e) => name(seen, e),
        Head::If(e, _, _) => name(seen, e),
        Head::While(e, _) => name(seen, e),
    }
}

// Names the parts of a statement.
pub fn name_parts(seen: &mut [u8; NUMBERS], h: Head) -> bool
    ensures { (inits : List ℕ) → Named seen.old (parts (stmt_of inits h)) result seen.new }
{
    match h {
        Head::Skip
        | Head::Assign(_, _)
        | Head::New(_, _, _, _)
        | Head::Delete
        | Head::Send(_, _, _)
        | Head::Raise(_, _)
        | Head::Leave
        | Head::Return
        | Head::Assert(_) => false,
        Head::Seq(a, b) => name_two(seen, a, b),
        Head::If(_, a, b) => name_two(seen, a, b),
        Head::While(_, a) => name(seen, a),
    }
}

// Names the operands of an expression.
pub fn name_operands(seen: &mut [u8; NUMBERS], x: Expr) -> bool
    ensures { Named seen.old (operands x) result seen.new }
{
    match x {
        Expr::Leaf(_) => false,
        Expr::Unary(_, a) => name(seen, a),
        Expr::Binary(_, a, b) => name_two(seen, a, b),
    }
}
