// Tables that are worked out of a program's statements: the height of each, and for each kind the statements that serve it.
#![tactic(auto)]

ghost use Rattle.std.specs.Prelude.{◌≡◌, List, ℕ, ◌+◌, ◌-◌, ◌*◌, ◌≤◌, ◌<◌, get_or, replicate};
ghost use Rattle.std.specs.Borrow.{Bor};
ghost use Rattle.programs.specs.Program.{Program as Lines};
ghost use Rattle.programs.specs.Trees.{operands};
ghost use Rattle.tables.specs.Decode.{actions_of, states_of};
ghost use Rattle.marks.specs.Marks.{Heights, Served, Stated, Peoples};
ghost use Rattle.marks.specs.Inner.{listed, head_parts};
ghost use Rattle.marks.specs.Climbs.{Climbs};
ghost use Rattle.marks.specs.Tall.{Low, Over};
ghost use Rattle.marks.specs.Flow.{mark_low, mark_all, flowed};
ghost use Rattle.marks.specs.Kinds.{marked, marked_bodies, marked_ends};

use programs::Expr;
use tables::{Head, Program};

// The numbers that a statement or an expression holds: parts, or operands.
#[derive(Clone, Copy)]
pub enum Inner {
    Nothing,
    One(u16),
    Two(u16, u16),
}

// How many marks a table has: a row for each kind, from 0, with a mark for each number.
pub const MARKS: usize = (Program::KINDS + 1) * (Program::STATEMENTS + 1);

// A row of marks for each kind, from 0: a mark for each number, 1 or 0.
// stays: may not change: Marking says of a place that it is 0 or 1, and mark_low, mark_all, flowed and rooted say where a row of the whole table starts
pub type Table = [u8; MARKS];

// The parts of a statement.
pub fn parts_of(h: Head) -> Inner
    ensures { listed result ≡ head_parts h }
{
    match h {
        Head::Seq(a, b) | Head::If(_, a, b) => Inner::Two(a, b),
        Head::While(_, a) => Inner::One(a),
        _ => Inner::Nothing,
    }
}

// The operands of an expression.
pub fn operands_of(x: Expr) -> Inner
    ensures { listed result ≡ operands x }
{
    match x {
        Expr::Leaf(_) => Inner::Nothing,
        Expr::Unary(_, a) => Inner::One(a),
        Expr::Binary(_, a, b) => Inner::Two(a, b),
    }
}

// What stands in xs for number a; `other` where nothing does.
pub fn item_or<T: Copy>(xs: &[T], a: u16, other: T) -> T
    ensures { result ≡ get_or xs.now a other }
{
    xs.get(usize::from(a)).copied().unwrap_or(other)
}

// The height of number n, which holds i, from the heights of the lower numbers.
pub fn height_over(heights: &[u16; Program::STATEMENTS + 1], n: usize, i: Inner) -> u16
    requires { (1 ≤ n) × ((n ≤ 1024) × Low heights.now n) }
    ensures { Over heights.now n (listed i) result }
{
    let lower = &heights[..n];
    match i {
        Inner::Nothing => 1,
        Inner::One(a) => item_or(lower, a, 1) + 1,
        Inner::Two(a, b) => item_or(lower, a, 1).max(item_or(lower, b, 1)) + 1,
    }
}

// A table that is worked out upward: for each number from 1 to n what `work` gives where the lower ones have theirs; `other` for 0 and behind n. Costs one
// turn for each number.
pub fn climb<T: Copy, F: Fn(&[T; Program::STATEMENTS + 1], usize) -> T>(
    n: usize,
    other: T,
    work: F,
) -> [T; Program::STATEMENTS + 1]
    requires few { n ≤ 1024 }
    requires calls { (m : ℕ) (k : Bor (List T)) → 1 ≤ m → m ≤ n → Climbs (F.post work) (replicate 1025 other) (m - 1) k.now → F.pre work k m }
    ensures { Climbs (F.post work) (replicate 1025 other) n result }
{
    let mut items = [other; Program::STATEMENTS + 1];
    for s in 1..=n {
        items[s] = work(&items, s);
    }
    items
}

// THE HEIGHT OF EACH STATEMENT. Costs one turn for each statement.
pub fn heights(stmts: &[u16; 5 * (Program::STATEMENTS + 1)]) -> [u16; Program::STATEMENTS + 1]
    ensures { (p : Lines) → Stated stmts.now p → Heights p result }
{
    climb(
        tables::stmt_count(stmts),
        1,
        |heights, s|
            requires { (1 ≤ s) × ((s ≤ 1024) × Low heights.now s) }
        { height_over(heights, s, parts_of(terms::stmt_at(stmts, s))) },
    )
}

// Marks number a of the row that starts at b, where it is lower than n.
pub fn mark_low(marks: &mut Table, b: usize, n: usize, a: u16)
    requires { b + n ≤ 17425 }
    ensures { marks.new ≡ mark_low b n a marks.old }
{
    let i = usize::from(a);
    if i < n {
        marks[b + i] = 1;
    }
}

// Marks what number n holds.
pub fn mark_inner(marks: &mut Table, b: usize, n: usize, i: Inner)
    requires { b + n ≤ 17425 }
    ensures { marks.new ≡ mark_all b n (listed i) marks.old }
{
    match i {
        Inner::Nothing => {}
        Inner::One(a) => mark_low(marks, b, n, a),
        Inner::Two(a, c) => {
            mark_low(marks, b, n, a);
            mark_low(marks, b, n, c);
        }
    }
}

// Marks number r in kind k's row; a number past n, and what is no kind, is passed over.
fn mark(marks: &mut Table, n: usize, k: u8, r: u16)
    requires { n ≤ 1024 }
    ensures { marks.new ≡ marked n k r marks.old }
{
    let i = usize::from(k);
    let j = usize::from(r);
    if tables::there(Program::KINDS, i) && j <= n {
        marks[i * (Program::STATEMENTS + 1) + j] = 1;
    }
}

// Marks the body of each action in its kind's row.
fn mark_bodies(program: &Program, n: usize, marks: &mut Table)
    requires { n ≤ 1024 }
    ensures { marks.new ≡ marked_bodies n (actions_of program.now.action_of program.now.action_body) marks.old }
{
    for a in (1..=tables::action_count(&program.action_of)).rev() {
        mark(marks, n, program.action_of[a], program.action_body[a]);
    }
}

// Marks the entry and the exit of each state in its kind's row.
fn mark_ends(program: &Program, n: usize, marks: &mut Table)
    requires { n ≤ 1024 }
    ensures { (flags : List ℕ) → marks.new ≡ marked_ends n (states_of program.now.state_of program.now.state_entry program.now.state_exit flags) marks.old }
{
    for q in (1..=tables::state_count(&program.state_of)).rev() {
        let k = program.state_of[q];
        mark(marks, n, k, program.state_entry[q]);
        mark(marks, n, k, program.state_exit[q]);
    }
}

// All turns in the row that starts at b, from number n down: where a number is marked, so is what it holds.
pub fn flow<F: Fn(usize) -> Inner>(n: usize, b: usize, inner: F, marks: &mut Table)
    requires row { b + n < 17425 }
    requires calls { F.IsAlwaysCallable inner }
    ensures { (kids : ℕ → List ℕ) → ((m : ℕ) (i : Inner) → F.post inner m i → listed i ≡ kids m) → marks.new ≡ flowed kids b n marks.old }
{
    for s in (1..=n).rev() {
        if marks[b + s] != 0 {
            mark_inner(marks, b, s, inner(s));
        }
    }
}

// WHICH STATEMENT SERVES WHICH KIND. Costs a turn for each action and each state, and then 16 turns for each statement; a statement is read once for
// each kind that it serves.
pub fn served(program: &Program) -> Table
    ensures { (p : Lines) → Peoples program.now p → Served p result }
{
    let stmts = &program.stmts;
    let n = tables::stmt_count(stmts);
    let mut marks = [0; MARKS];
    mark_bodies(program, n, &mut marks);
    mark_ends(program, n, &mut marks);
    for k in 1..=Program::KINDS {
        let b = k * (Program::STATEMENTS + 1);
        flow(n, b, |s| parts_of(terms::stmt_at(stmts, s)), &mut marks);
    }
    marks
}
