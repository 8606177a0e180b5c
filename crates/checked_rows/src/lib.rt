// Whether a row of parts that is handed in can be an accepted machine's: each part suits the machine's kind and is low enough, the head is in form, and the
// places behind the parts are zero.
#![tactic(auto)]

ghost use Rattle.std.specs.Prelude.{◌≡◌, ◌+◌, ◌*◌, ◌≤◌, not, eqb, get_or};
ghost use Rattle.lists.specs.Tells.{Tells};
ghost use Rattle.rows.specs.Part.{part};
ghost use Rattle.programs.specs.Program.{Program as Lines};
ghost use Rattle.machines.specs.Config.{Pending};
ghost use Rattle.tables.specs.Decode.{head_at};
ghost use Rattle.parts.specs.Parts.{is_skip_head, is_seq_head};
ghost use Rattle.checked_rows.specs.CheckedRows.{RowHeld, Told, Asked, Suits, PartFits, PartsFit, HeadFits, alone};

use configs::Flat;
use marks::Table;
use tables::{Head, Program, stmt_count};
use terms::stmt_at;
use zeros::all_are;

// One part with nothing pending is alone.
fn is_alone(count: usize, pending: bool) -> bool
    ensures { result ≡ alone count pending }
{
    !pending && count == 1
}

// Statement s is a seq.
fn is_seq(stmts: &[u16; 5 * (Program::STATEMENTS + 1)], s: usize) -> bool
    ensures { result ≡ is_seq_head (head_at stmts.now s) }
{
    matches!(stmt_at(stmts, s), Head::Seq(_, _))
}

// Statement s is a skip.
fn is_skip(stmts: &[u16; 5 * (Program::STATEMENTS + 1)], s: usize) -> bool
    ensures { result ≡ is_skip_head (head_at stmts.now s) }
{
    matches!(stmt_at(stmts, s), Head::Skip)
}

// A head: no seq, and no skip where it is alone.
fn head_fits(stmts: &[u16; 5 * (Program::STATEMENTS + 1)], lone: bool, s: usize) -> bool
    ensures { Tells result (HeadFits stmts.now lone s) }
{
    !is_seq(stmts, s) && (!lone || !is_skip(stmts, s))
}

// A part suits the kind, of n statements: it is 0, or one of them that serves the kind.
fn suits(served: &Table, n: usize, kind: usize, s: usize) -> bool
    requires { (n ≤ 1024) × (kind ≤ 16) }
    ensures { Tells result (Suits served.now n kind s) }
{
    s == 0 || s <= n && served[kind * (Program::STATEMENTS + 1) + s] != 0
}

// And it is low enough for what is behind it.
fn part_fits(
    heights: &[u16; Program::STATEMENTS + 1],
    served: &Table,
    n: usize,
    kind: usize,
    behind: usize,
    s: usize,
) -> bool
    requires { (n ≤ 1024) × (kind ≤ 16) × (behind ≤ 33) }
    ensures { Tells result (PartFits heights.now served.now n kind behind s) }
{
    suits(served, n, kind, s) && usize::from(heights[s]) <= Program::ROW - behind
}

// The `count` parts from place b on, with w pending.
// stays: no plainer: a room's parts are given by their first place and their number, as PartsFit says it
fn parts_fit(
    heights: &[u16; Program::STATEMENTS + 1],
    served: &Table,
    parts: &[u16; Program::ROOMS * Program::ROW],
    n: usize,
    b: usize,
    count: usize,
    kind: usize,
    w: usize,
) -> bool
    requires { (n ≤ 1024) × (kind ≤ 16) × (w ≤ 1) × (count ≤ 33) × (b + count ≤ 1056) }
    ensures { Tells result (PartsFit heights.now served.now parts.now n b count kind w) }
{
    parts[b..b + count].iter().enumerate().all(|(j, &s)| part_fits(
        heights,
        served,
        n,
        kind,
        j + w,
        usize::from(s),
    ))
}

// THE ROW of room i.
pub fn row_ok(
    stmts: &[u16; 5 * (Program::STATEMENTS + 1)],
    heights: &[u16; Program::STATEMENTS + 1],
    served: &Table,
    flat: &Flat,
    i: usize,
) -> bool
    requires { Asked flat.now.parts i (get_or flat.now.kinds i 0) }
    ensures { (p : Lines) (q : Pending) → Told stmts.now heights.now served.now (not (eqb (get_or flat.now.held i 0) 0)) p q → Tells result (RowHeld p (get_or flat.now.kinds i 0) q (get_or flat.now.counts i 0) (part (i * 33) 33 flat.now.parts)) }
{
    let count = flat.counts[i];
    let pending = flat.held[i] != 0;
    let b = i * Program::ROW;
    count <= Program::ROW
        && all_are(&flat.parts[b + count..b + Program::ROW], 0)
        && parts_fit(
            heights,
            served,
            &flat.parts,
            stmt_count(stmts),
            b,
            count,
            usize::from(flat.kinds[i]),
            usize::from(pending),
        )
        && (count == 0
            || head_fits(
                stmts,
                is_alone(count, pending),
                usize::from(flat.parts[b + count - 1]),
            ))
}
