// A statement's line taken into the loader's arrays of statements and of their pairs. A function is given the text, the number of the line's form and the places of
// its values, and is lent the arrays and how many pairs there are. It answers whether the line is in range: where it is, the arrays have the line, where not, they are
// as they were.
// stays: may not change: line_at, which tells a line by the number of its form, `row` here, and the places of its values
// stays: no heap, fixed memory: the pool of pairs, and how many it has
#![tactic(auto)]

ghost use Rattle.std.specs.Prelude.{◌≡◌, [], ◌∷◌, ◌++◌, ℕ, ◌-◌, ◌≤◌, length};
ghost use Rattle.programs.specs.Sizes.{STMTS};
ghost use Rattle.programs.specs.Program.{Stmt};
ghost use Rattle.texts.specs.Forms.{stmt_line};
ghost use Rattle.texts.specs.Reading.{next};
ghost use Rattle.tabled.specs.Tabled.{stmt_row, stmt_table};
ghost use Rattle.spoken.specs.Spoken.{line_at};
ghost use Rattle.spoken.specs.Took.{Took};
ghost use Rattle.putting.specs.Asked.{StmtRoom};
ghost use Rattle.taking_stmts.specs.Lines.{plain_row, new_at};
ghost use Rattle.taking_stmts.specs.Held.{StmtTables, StmtHeld, PoolRoom, NewRoom};

use listed::put_pairs;
use operands::operand;
use putting::put_stmt;
use spoken::{is_next, number_at};
use tables::Program;

// The kind of the statements in each form, as their rows have it.
// stays: the C interface: the tables have a number for the kind of a statement
const KINDS: [u16; 12] = [1, 0, 3, 6, 7, 2, 4, 5, 8, 9, 10, 11];

// How many operands they have; a `new` is put by `put_new`.
const OPERANDS: [u16; 12] = [2, 0, 0, 0, 0, 0, 3, 2, 1, 2, 3, 2];

// The row of a statement that is no `new`.
fn put_plain(
    s: &[u8],
    row: usize,
    places: [usize; 5],
    stmts: &mut [u16; 5 * (Program::STATEMENTS + 1)],
)
    requires stmt_room { StmtRoom stmts.old }
    requires le_row { (24 ≤ row) × (row ≤ 35) }
    ensures { (h : StmtRoom stmts.old) (t : Stmt) → ((i : ℕ) → stmt_row i t ≡ plain_row s.now places (row - 24))
        → stmts.new ≡ stmt_table (h.rows ++ t ∷ []) }
{
    let [_, a, b, c, _] = places;
    let k = row - 24;
    let m = OPERANDS[k];
    let x = operand(s, a, 1 <= m);
    let y = operand(s, b, 2 <= m);
    let z = operand(s, c, 3 <= m);
    put_stmt(stmts, KINDS[k], x, y, z, 0);
}

// A `new`: its pairs behind those that are there, and its row.
fn put_new(
    s: &[u8],
    places: [usize; 5],
    stmts: &mut [u16; 5 * (Program::STATEMENTS + 1)],
    inits: &mut [u16; 2 * Program::PAIRS],
    pairs: &mut usize,
)
    requires { NewRoom s.now places stmts.old inits.old pairs.old }
    ensures { (h : NewRoom s.now places stmts.old inits.old pairs.old)
        → StmtTables (h.rows ++ new_at s.now places ∷ []) stmts.new inits.new pairs.new }
{
    let [_, a, b, list, _] = places;
    let n = *pairs;
    let m = put_pairs(readers::field(s, list), inits, n);
    let x = operand(s, a, true);
    let y = operand(s, b, true);
    put_stmt(stmts, 2, x, y, n as u16, m as u16);
    *pairs = n + m;
}

// A statement.
pub fn take_stmt(
    s: &[u8],
    row: usize,
    places: [usize; 5],
    stmts: &mut [u16; 5 * (Program::STATEMENTS + 1)],
    inits: &mut [u16; 2 * Program::PAIRS],
    pairs: &mut usize,
) -> bool
    requires stmt_held { StmtHeld stmts.old inits.old pairs.old }
    requires le_row { (24 ≤ row) × (row ≤ 35) }
    requires pool_room { row ≡ 29 → PoolRoom s.now places pairs.old }
    ensures { (h : StmtHeld stmts.old inits.old pairs.old) (i : ℕ) (t : Stmt) → line_at s.now places row ≡ stmt_line i t
        → Took result (next STMTS (length h.rows) i) (StmtTables (h.rows ++ t ∷ []) stmts.new inits.new pairs.new)
        ((stmts.new ≡ stmts.old) × (inits.new ≡ inits.old) × (pairs.new ≡ pairs.old)) }
{
    let n = usize::from(stmts[0]);
    if !is_next(Program::STATEMENTS, n, number_at(s, places[0])) {
        return false;
    }
    if row == 29 {
        put_new(s, places, stmts, inits, pairs);
        return true;
    }
    put_plain(s, row, places, stmts);
    true
}
