// One line's row put into the tables of a program, behind the rows that are there. A function is lent the arrays that it touches; what is asked of them, and
// what the tables are, stands in specs/Asked.antt and crates/tabled; what the stores make of an array in specs/Stored.antt, and of the table of some lines in
// specs/More.antt. The flags of a state and the pairs of a `new` are put elsewhere: specs/Flags.antt and specs/Pool.antt say what they make of their tables.
// stays: the C interface: the tables lie so, with a number for a type and for a kind of row, and how many rows there are in the first place
// stays: no heap, fixed memory: put_move and put_choice are told the n rows that are there, since these two tables have no place for it
#![tactic(auto)]

ghost use Rattle.std.specs.Prelude.{◌≡◌, ◌+◌, ◌*◌, ◌<◌, set};
ghost use Rattle.programs.specs.Sizes.{SPENT};
ghost use Rattle.tabled.specs.Tabled.{byte_of};
ghost use Rattle.putting.specs.Asked.{EventRoom, VariableRoom, ExprRoom, StmtRoom, ActionRoom, StateRoom, MoveRoom, ChoiceRoom};
ghost use Rattle.putting.specs.Stored.{more, one_stored, three_stored, five_stored};

use tables::Program;

// A number in a word of 8 bits: one that is too large is the largest.
// stays: no plainer: tables::byte cuts 16 bits, this one 32, and each is one line
pub fn byte_of(n: u32) -> u8
    ensures { result ≡ byte_of n }
{
    u8::try_from(n).unwrap_or(u8::MAX)
}

// stays: no plainer: the functions that put one more row differ in the word, the columns and the companions of their table, and one for all would be handed each of them
// One more event, whose payload has the type at t.
#[tactic(auto, using(crate::specs::More::event_room))]
pub fn put_event(types: &mut [u8; Program::EVENTS + 1], t: u8)
    requires { EventRoom types.old }
    ensures { types.new ≡ one_stored types.old t }
{
    let e = types[0] + 1;
    types[usize::from(e)] = t;
    types[0] = e;
}

// One more variable, of kind k and the type at t.
pub fn put_variable(
    kinds: &mut [u16; Program::ALL_VARIABLES + 1],
    types: &mut [u8; Program::ALL_VARIABLES + 1],
    k: u16,
    t: u8,
)
    requires { VariableRoom kinds.old types.old }
    ensures kinds_after { kinds.new ≡ one_stored kinds.old k }
    ensures types_after { types.new ≡ set types.old (more kinds.old) t }
{
    let x = kinds[0] + 1;
    kinds[usize::from(x)] = k;
    types[usize::from(x)] = t;
    kinds[0] = x;
}

// One more expression, whose row is k, x, y.
#[tactic(auto, using(crate::specs::More::expr_room))]
pub fn put_expr(exprs: &mut [u32; 3 * (Program::EXPRESSIONS + 1)], k: u32, x: u32, y: u32)
    requires { ExprRoom exprs.old }
    ensures { exprs.new ≡ three_stored exprs.old k x y }
{
    let e = exprs[0] + 1;
    let row = 3 * (e as usize);
    exprs[row] = k;
    exprs[row + 1] = x;
    exprs[row + 2] = y;
    exprs[0] = e;
}

// One more statement, whose row is k, x, y, z, n; a `new` has for z how many pairs there are before its own.
#[tactic(auto, using(crate::specs::More::stmt_room))]
pub fn put_stmt(
    stmts: &mut [u16; 5 * (Program::STATEMENTS + 1)],
    k: u16,
    x: u16,
    y: u16,
    z: u16,
    n: u16,
)
    requires { StmtRoom stmts.old }
    ensures { stmts.new ≡ five_stored stmts.old k x y z n }
{
    let s = stmts[0] + 1;
    let row = 5 * usize::from(s);
    stmts[row] = k;
    stmts[row + 1] = x;
    stmts[row + 2] = y;
    stmts[row + 3] = z;
    stmts[row + 4] = n;
    stmts[0] = s;
}

// One more action, of kind k, with statement b.
pub fn put_action(
    kinds: &mut [u8; Program::ACTIONS + 1],
    bodies: &mut [u16; Program::ACTIONS + 1],
    k: u8,
    b: u16,
)
    requires { ActionRoom kinds.old bodies.old }
    ensures kinds_after { kinds.new ≡ one_stored kinds.old k }
    ensures bodies_after { bodies.new ≡ set bodies.old (more kinds.old) b }
{
    let a = kinds[0] + 1;
    kinds[usize::from(a)] = k;
    bodies[usize::from(a)] = b;
    kinds[0] = a;
}

// One more state, of kind k, with its statements at entry and at exit.
pub fn put_state(
    kinds: &mut [u8; Program::STATES + 1],
    entries: &mut [u16; Program::STATES + 1],
    exits: &mut [u16; Program::STATES + 1],
    k: u8,
    entry: u16,
    exit: u16,
)
    requires { StateRoom kinds.old entries.old exits.old }
    ensures kinds_after { kinds.new ≡ one_stored kinds.old k }
    ensures entries_after { entries.new ≡ set entries.old (more kinds.old) entry }
    ensures exits_after { exits.new ≡ set exits.old (more kinds.old) exit }
{
    let n = kinds[0] + 1;
    kinds[usize::from(n)] = k;
    entries[usize::from(n)] = entry;
    exits[usize::from(n)] = exit;
    kinds[0] = n;
}

// One more move behind the n that there are, whose row is from, on, to.
pub fn put_move(moves: &mut [u8; 3 * Program::MOVES], n: usize, from: u8, on: u8, to: u8)
    requires { MoveRoom moves.old n }
    ensures { moves.new ≡ set (set (set moves.old (3 * n) from) (3 * n + 1) on) (3 * n + 2) to }
{
    let row = 3 * n;
    moves[row] = from;
    moves[row + 1] = on;
    moves[row + 2] = to;
}

// One more choice behind the n that there are.
pub fn put_choice(choices: &mut [u32; Program::CHOICES], n: usize, machine: u32, bits: u8)
    requires choice_room { ChoiceRoom choices.old n }
    requires machine_bound { machine < SPENT }
    ensures { choices.new ≡ set choices.old n (machine * 256 + bits) }
{
    choices[n] = machine * 256 + u32::from(bits);
}
