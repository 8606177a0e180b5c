// The expressions and the statements of a program's tables: the numbers of a row as an expression, or as a statement without its init list.
// stays: no plainer: what a row means hangs on all of its numbers, which are no value of one type that a From could take
#![tactic(auto)]

ghost use Rattle.std.specs.Prelude.{◌≡◌, min};
ghost use Rattle.lists.specs.Lists.{at};
ghost use Rattle.programs.specs.declared.Leaf.TheVariants.{Bot as bot};
ghost use Rattle.programs.specs.declared.Expr.TheVariants.{Leaf as leaf};
ghost use Rattle.tables.specs.Decode.{expr_of, exprs_of, head_of, head_at};

use programs::{Expr, Leaf};
use tables::{Head, Kind, Program};
use values::{Binary, Unary, int_of};

// A number that does not fit 16 bits reads as the largest that does.
// stays: no plainer: std has no cut to a narrower type, and the name says which is meant
pub fn short(x: u32) -> u16
    ensures { result ≡ min x 65535 }
{
    u16::try_from(x).unwrap_or(u16::MAX)
}

// The expression of kind k, with its value x or its parts a and b.
#[tactic(auto, unfolding(tables::specs::Decode::expr_of))]
fn expr_of(k: u32, x: u32, a: u16, b: u16) -> Expr
    ensures { result ≡ expr_of k x a b }
{
    match k {
        1 => Expr::Leaf(Leaf::Int(int_of(x))),
        2 => Expr::Leaf(Leaf::Bool(x == 1)),
        3 => Expr::Leaf(Leaf::Var(a)),
        4 => Expr::Leaf(Leaf::This),
        5 => Expr::Leaf(Leaf::Msg),
        6 => Expr::Leaf(Leaf::Arg),
        7 => Expr::Leaf(Leaf::Star),
        8 => Expr::Unary(Unary::Not, a),
        9 => Expr::Unary(Unary::Neg, a),
        10 => Expr::Binary(Binary::Add, a, b),
        11 => Expr::Binary(Binary::Sub, a, b),
        12 => Expr::Binary(Binary::And, a, b),
        13 => Expr::Binary(Binary::Or, a, b),
        _ => Expr::Leaf(Leaf::Bot),
    }
}

// Expression e.
pub fn expr_at(exprs: &[u32; 3 * (Program::EXPRESSIONS + 1)], e: usize) -> Expr
    ensures { result ≡ at (leaf bot) (exprs_of exprs.now) e }
{
    if tables::there(tables::expr_count(exprs), e) {
        let i = e * 3;
        let x = exprs[i + 1];
        expr_of(exprs[i], x, short(x), short(exprs[i + 2]))
    } else {
        Expr::Leaf(Leaf::Bot)
    }
}

// The statement of kind k, with the numbers x, y, z and n; where they are a kind's or an event's, x is a and y is b.
#[tactic(auto, unfolding(tables::specs::Decode::head_of))]
fn head_of(k: u16, x: u16, y: u16, z: u16, n: u16, a: u8, b: u8) -> Head
    ensures { result ≡ head_of k x y z n a b }
{
    match k {
        1 => Head::Assign(x, y),
        2 => Head::New(x, Kind(b), z, n),
        3 => Head::Delete,
        4 => Head::Send(x, b, z),
        5 => Head::Raise(a, y),
        6 => Head::Leave,
        7 => Head::Return,
        8 => Head::Assert(x),
        9 => Head::Seq(x, y),
        10 => Head::If(x, y, z),
        11 => Head::While(x, y),
        _ => Head::Skip,
    }
}

// Statement s, without its init list.
pub fn stmt_at(stmts: &[u16; 5 * (Program::STATEMENTS + 1)], s: usize) -> Head
    ensures { result ≡ head_at stmts.now s }
{
    if tables::there(tables::stmt_count(stmts), s) {
        let i = s * 5;
        let x = stmts[i + 1];
        let y = stmts[i + 2];
        head_of(
            stmts[i],
            x,
            y,
            stmts[i + 3],
            stmts[i + 4],
            tables::byte(x),
            tables::byte(y),
        )
    } else {
        Head::Skip
    }
}
