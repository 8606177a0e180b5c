// The remaining statement of a room: a row of parts, 33 places from b on in all rooms' parts, its head the last of its n parts, and zeros behind them.
// stays: no plainer: these functions are lent the arrays that they touch, so that no contract need say that the others stay
// stays: may not change: Row and Becomes, which speak of a place and a count in all rooms' parts
#![tactic(auto)]

ghost use Rattle.std.specs.Prelude.{◌≤◌};
ghost use Rattle.parts.specs.Parts.{Row, Ready, Becomes, Said, Any, alone, finished, settled, tidied};

use tables::{Head, Program};

// A lone skip with nothing pending is kept as the empty row.
pub fn lone(
    stmts: &[u16; 5 * (Program::STATEMENTS + 1)],
    parts: &mut [u16; Program::ROOMS * Program::ROW],
    b: usize,
    n: usize,
    pending: bool,
) -> usize
    requires { Row b n parts.old }
    ensures { Becomes b n parts.old (Said stmts.now) (alone pending) result parts.new }
{
    if n == 1 && !pending && terms::stmt_at(stmts, usize::from(parts[b])) == Head::Skip {
        parts[b] = 0;
        return 0;
    }
    n
}

// The head is finished: it becomes a skip, and a lone one with nothing pending is no part.
pub fn finish(
    parts: &mut [u16; Program::ROOMS * Program::ROW],
    b: usize,
    n: usize,
    pending: bool,
) -> usize
    requires { Row b n parts.old × (1 ≤ n) }
    ensures { Becomes b n parts.old Any (finished pending) result parts.new }
{
    let last = n - 1;
    parts[b + last] = 0;
    if n == 1 && !pending { 0 } else { n }
}

// A seq at the head is split at once.
pub fn settle(
    stmts: &[u16; 5 * (Program::STATEMENTS + 1)],
    parts: &mut [u16; Program::ROOMS * Program::ROW],
    b: usize,
    n: usize,
) -> usize
    requires { Ready stmts.now b n parts.old }
    ensures { Becomes b n parts.old (Said stmts.now) settled result parts.new }
{
    let mut last = n - 1;
    let mut s = usize::from(parts[b + last]);
    // stays: no plainer: each turn looks at the part that the last one put
    while let Head::Seq(first, second) = terms::stmt_at(stmts, s) {
        parts[b + last] = second;
        parts[b + last + 1] = first;
        last += 1;
        s = usize::from(first);
    }
    last + 1
}

// Both rules of form.
pub fn tidy(
    stmts: &[u16; 5 * (Program::STATEMENTS + 1)],
    parts: &mut [u16; Program::ROOMS * Program::ROW],
    b: usize,
    n: usize,
    pending: bool,
) -> usize
    requires { Ready stmts.now b n parts.old }
    ensures { Becomes b n parts.old (Said stmts.now) (tidied pending) result parts.new }
{
    let m = settle(stmts, parts, b, n);
    lone(stmts, parts, b, m, pending)
}
