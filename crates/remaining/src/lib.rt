// A room's row of parts, by its count in all rooms' counts: what the rules do to its head. The functions of crates/parts work on the 33 places of the room;
// these read and store the count, too.
// stays: no plainer: these functions are lent the arrays that they touch, so that no contract need say that the others stay
#![tactic(auto)]

ghost use Rattle.std.specs.Prelude.{[], ◌∷◌, ◌-◌, get_or, drop};
ghost use Rattle.parts.specs.Parts.{Said, Any, tidied};
ghost use Rattle.engine.specs.Holding.{RowBecomes};
ghost use Rattle.remaining.specs.Remaining.{Standing, Headed, Placing, Dropping};

use tables::Program;

// The head is finished: a skip stands in its place.
pub fn finish_head(
    counts: &mut [usize; Program::ROOMS],
    parts: &mut [u16; Program::ROOMS * Program::ROW],
    k: usize,
    pending: bool,
)
    requires { Headed k counts.old parts.old }
    ensures { RowBecomes k counts.old parts.old Any (λ p r. tidied pending p (0 ∷ drop 1 r)) counts.new parts.new }
{
    counts[k] = parts::finish(parts, k * Program::ROW, counts[k], pending);
}

// Statement a stands in the head's place.
pub fn replace_head(
    stmts: &[u16; 5 * (Program::STATEMENTS + 1)],
    counts: &mut [usize; Program::ROOMS],
    parts: &mut [u16; Program::ROOMS * Program::ROW],
    k: usize,
    a: u16,
    pending: bool,
)
    requires { Headed k counts.old parts.old × Placing stmts.now k counts.old parts.old a (get_or counts.old k 0 - 1) }
    ensures { RowBecomes k counts.old parts.old (Said stmts.now) (λ p r. tidied pending p (a ∷ drop 1 r)) counts.new parts.new }
{
    let n = counts[k];
    let b = k * Program::ROW;
    parts[b + (n - 1)] = a;
    counts[k] = parts::tidy(stmts, parts, b, n, pending);
}

// Statement a stands before the row.
pub fn push_part(
    stmts: &[u16; 5 * (Program::STATEMENTS + 1)],
    counts: &mut [usize; Program::ROOMS],
    parts: &mut [u16; Program::ROOMS * Program::ROW],
    k: usize,
    a: u16,
    pending: bool,
)
    requires { Placing stmts.now k counts.old parts.old a (get_or counts.old k 0) }
    ensures { RowBecomes k counts.old parts.old (Said stmts.now) (λ p r. tidied pending p (a ∷ r)) counts.new parts.new }
{
    let n = counts[k];
    let b = k * Program::ROW;
    parts[b + n] = a;
    counts[k] = parts::tidy(stmts, parts, b, n + 1, pending);
}

// The head goes.
pub fn drop_head(
    stmts: &[u16; 5 * (Program::STATEMENTS + 1)],
    counts: &mut [usize; Program::ROOMS],
    parts: &mut [u16; Program::ROOMS * Program::ROW],
    k: usize,
    pending: bool,
)
    requires { Dropping stmts.now k counts.old parts.old }
    ensures { RowBecomes k counts.old parts.old (Said stmts.now) (λ p r. tidied pending p (drop 1 r)) counts.new parts.new }
{
    let b = k * Program::ROW;
    let last = counts[k] - 1;
    parts[b + last] = 0;
    if last == 0 {
        counts[k] = 0;
        return;
    }
    counts[k] = parts::tidy(stmts, parts, b, last, pending);
}

// No part is left.
pub fn clear_row(
    counts: &mut [usize; Program::ROOMS],
    parts: &mut [u16; Program::ROOMS * Program::ROW],
    k: usize,
)
    requires { Standing k counts.old parts.old }
    ensures { RowBecomes k counts.old parts.old Any (λ p r. []) counts.new parts.new }
{
    let n = counts[k];
    let b = k * Program::ROW;
    parts[b..b + n].fill(0);
    counts[k] = 0;
}

// Statement a is all that is left.
pub fn only(
    stmts: &[u16; 5 * (Program::STATEMENTS + 1)],
    counts: &mut [usize; Program::ROOMS],
    parts: &mut [u16; Program::ROOMS * Program::ROW],
    k: usize,
    a: u16,
    pending: bool,
)
    requires { Placing stmts.now k counts.old parts.old a 0 }
    ensures { RowBecomes k counts.old parts.old (Said stmts.now) (λ p r. tidied pending p (a ∷ [])) counts.new parts.new }
{
    clear_row(counts, parts, k);
    push_part(stmts, counts, parts, k, a, pending);
}
