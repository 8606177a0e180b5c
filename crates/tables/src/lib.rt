// A program as the code holds it: one array of numbers for each table. Place 0 of a table holds its count, and number n of the table stands in row n,
// from 1. Whatever its numbers are, a table is read as specs/Decode.antt says, and an accessor answers of the table so read. It is lent the arrays that it
// reads, and no others.
#![tactic(auto)]

ghost use Rattle.std.specs.Prelude.{◌≡◌, List, ℕ, ◌+◌, ◌-◌, ◌*◌, ◌<◌, min, cond, eqb, length, get_or};
ghost use Rattle.lists.specs.Lists.{at, any, there};
ghost use Rattle.values.specs.declared.Ty.TheVariants.{Void as void};
ghost use Rattle.programs.specs.Sizes.{KINDS, EVENTS, VARIABLES, EXPRS, STMTS, ACTIONS, STATES};
ghost use Rattle.tables.specs.Decode.{MOVES, move_in, count, ty_of, events_of, variables_of, actions_of, states_of, no_variable, no_action, no_state};

use values::Ty;

// A machine kind's number: the wrapping keeps it apart from a live machine's.
#[repr(C)]
#[derive(Clone, Copy, Debug, PartialEq, Eq)]
pub struct Kind(pub u8);

// What each number means stands in specs/Decode.antt. Where several arrays are one table, the count is in place 0 of the one that names the kinds.
// stays: the C interface: it is lent as it lies, with its counts in its arrays and its 0 for none
#[repr(C)]
#[derive(Clone, Copy)]
pub struct Program {
    pub event_types: [u8; Program::EVENTS + 1],
    // how many machine kinds there are
    pub kinds: u8,
    pub variable_of: [u16; Program::ALL_VARIABLES + 1],
    pub variable_type: [u8; Program::ALL_VARIABLES + 1],
    // rows of three: kind, x, y
    pub exprs: [u32; 3 * (Program::EXPRESSIONS + 1)],
    // rows of five: kind, x, y, z, n
    pub stmts: [u16; 5 * (Program::STATEMENTS + 1)],
    // pairs of a variable and an expression; a `new` has the place z of its first pair, from 0, and the number n of its pairs
    pub inits: [u16; 2 * Program::PAIRS],
    pub action_of: [u8; Program::ACTIONS + 1],
    pub action_body: [u16; Program::ACTIONS + 1],
    pub state_of: [u8; Program::STATES + 1],
    pub state_entry: [u16; Program::STATES + 1],
    pub state_exit: [u16; Program::STATES + 1],
    // a flag for each state n and event e, at n * (EVENTS + 1) + e
    pub defers: [u8; (Program::STATES + 1) * (Program::EVENTS + 1)],
    // rows of three: from, on, to; first the steps, then the calls, then the acts
    pub moves: [u8; 3 * Program::MOVES],
    pub steps: usize,
    pub calls: usize,
    pub acts: usize,
    pub start: Kind,
}

// The sizes, written once.
impl Program {
    // bytes of a text
    pub const TEXT: usize = 60000;

    pub const EVENTS: usize = 64;

    pub const KINDS: usize = 16;

    pub const VARIABLES: usize = 16;

    pub const ALL_VARIABLES: usize = Program::KINDS * Program::VARIABLES;

    // where a machine's this, msg and arg stand, behind its variables
    pub const THIS: usize = Program::VARIABLES;

    pub const MSG: usize = Program::VARIABLES + 1;

    pub const ARG: usize = Program::VARIABLES + 2;

    pub const EXPRESSIONS: usize = 1024;

    pub const STATEMENTS: usize = 1024;

    // a text has fewer pairs than a quarter of its bytes
    pub const PAIRS: usize = 15000;

    pub const ACTIONS: usize = 64;

    pub const STATES: usize = 64;

    pub const MOVES: usize = 4096;

    pub const CHOICES: usize = 4096;

    pub const ROOMS: usize = 32;

    pub const STACK: usize = 8;

    pub const QUEUE: usize = 16;

    pub const ROW: usize = 33;

    pub const HEIGHT: usize = 32;

    pub const STARS: usize = 8;
    // the next live number is at most this
    pub const LIVE_NUMBERS: usize = 65536;
}

// A row of the moves: from a state, on an event, to a state or an action.
#[derive(Clone, Copy, Debug, PartialEq, Eq)]
pub struct Move {
    pub from: u8,
    pub on: u8,
    pub to: u8,
}

// A statement without its init list.
#[derive(Clone, Copy, Debug, PartialEq, Eq)]
pub enum Head {
    Skip,
    // variable, expression
    Assign(u16, u16),
    // variable, kind, place of the first pair, number of pairs
    New(u16, Kind, u16, u16),
    Delete,
    // target, event, payload
    Send(u16, u8, u16),
    // event, payload
    Raise(u8, u16),
    Leave,
    Return,
    // expression
    Assert(u16),
    // first, second
    Seq(u16, u16),
    // condition, then, else
    If(u16, u16, u16),
    // condition, body
    While(u16, u16),
}

// A number that does not fit a byte reads as the largest that does.
// stays: no plainer: std has no cut to a narrower type, and the name says which is meant
pub fn byte(x: u16) -> u8
    ensures { result ≡ min x 255 }
{
    u8::try_from(x).unwrap_or(u8::MAX)
}

// Whether number n is there in a table of the size given.
pub fn there(size: usize, n: usize) -> bool
    ensures { result ≡ there size n }
{
    (1..=size).contains(&n)
}

// How many rows there are of n from row a on, from 0: no more than a table of the size given has.
pub fn rows_from(size: usize, a: usize, n: usize) -> usize
    ensures { result ≡ min n (size - a) }
{
    n.min(size.saturating_sub(a))
}

// The row behind a moves and b more: no further than the table's end.
pub fn row_after(a: usize, b: usize) -> usize
    ensures { result ≡ min (a + b) MOVES }
{
    a.saturating_add(b).min(Program::MOVES)
}

// The move in row r, from 0; behind the last row it is of zeros.
pub fn move_at(moves: &[u8; 3 * Program::MOVES], r: usize) -> Move
    ensures from { result.from ≡ (move_in moves.now r).from }
    ensures on { result.on ≡ (move_in moves.now r).on }
    ensures to { result.to ≡ (move_in moves.now r).to }
{
    if r < Program::MOVES {
        Move {
            from: moves[r * 3],
            on: moves[r * 3 + 1],
            to: moves[r * 3 + 2],
        }
    } else {
        Move {
            from: 0,
            on: 0,
            to: 0,
        }
    }
}

// How many events there are.
// stays: no plainer: a count names its table and its size, as its callers' clauses do, and is one line; so the five below
pub fn event_count(types: &[u8; Program::EVENTS + 1]) -> usize
    ensures { result ≡ count EVENTS types.now }
{
    usize::from(types[0]).min(Program::EVENTS)
}

// How many variables there are.
pub fn variable_count(kinds: &[u16; Program::ALL_VARIABLES + 1]) -> usize
    ensures { result ≡ count (KINDS * VARIABLES) kinds.now }
{
    usize::from(kinds[0]).min(Program::ALL_VARIABLES)
}

// How many expressions there are.
pub fn expr_count(exprs: &[u32; 3 * (Program::EXPRESSIONS + 1)]) -> usize
    ensures { result ≡ count EXPRS exprs.now }
{
    (exprs[0] as usize).min(Program::EXPRESSIONS)
}

// How many statements there are.
pub fn stmt_count(stmts: &[u16; 5 * (Program::STATEMENTS + 1)]) -> usize
    ensures { result ≡ count STMTS stmts.now }
{
    usize::from(stmts[0]).min(Program::STATEMENTS)
}

// How many actions there are.
pub fn action_count(kinds: &[u8; Program::ACTIONS + 1]) -> usize
    ensures { result ≡ count ACTIONS kinds.now }
{
    usize::from(kinds[0]).min(Program::ACTIONS)
}

// How many states there are.
pub fn state_count(kinds: &[u8; Program::STATES + 1]) -> usize
    ensures { result ≡ count STATES kinds.now }
{
    usize::from(kinds[0]).min(Program::STATES)
}

// The type that a word names.
// stays: no plainer: a From would have to stand with the type, in crates/values, away from the tables that number the types
#[tactic(auto, unfolding(crate::specs::Decode::ty_of))]
fn ty_of(k: u8) -> Ty
    ensures { result ≡ ty_of k }
{
    match k {
        1 => Ty::Bool,
        2 => Ty::Int,
        3 => Ty::Event,
        4 => Ty::Id,
        _ => Ty::Void,
    }
}

// Row n of a column, where a table of the size given has it, or else none.
fn row_or<T: Copy>(size: usize, column: &[T], n: usize, none: T) -> T
    requires { size < length column.now }
    ensures { result ≡ cond (there size n) (get_or column.now n none) none }
{
    if there(size, n) { column[n] } else { none }
}

// The type of event e's payload.
pub fn event_type(types: &[u8; Program::EVENTS + 1], e: usize) -> Ty
    ensures { result ≡ at void (events_of types.now) e }
{
    ty_of(row_or(event_count(types), types, e, 0))
}

// The kind that variable x belongs to.
pub fn variable_kind(kinds: &[u16; Program::ALL_VARIABLES + 1], x: usize) -> Kind
    ensures { (types : List ℕ) → result.0 ≡ (at no_variable (variables_of kinds.now types) x).of }
{
    Kind(byte(row_or(variable_count(kinds), kinds, x, 0)))
}

// The type of variable x.
pub fn variable_type<'a>(
    kinds: &'a [u16; Program::ALL_VARIABLES + 1],
    types: &'a [u8; Program::ALL_VARIABLES + 1],
    x: usize,
) -> Ty
    ensures { result ≡ (at no_variable (variables_of kinds.now types.now) x).type }
{
    ty_of(row_or(variable_count(kinds), types, x, 0))
}

// The kind that action a belongs to.
pub fn action_kind(kinds: &[u8; Program::ACTIONS + 1], a: usize) -> Kind
    ensures { (bodies : List ℕ) → result.0 ≡ (at no_action (actions_of kinds.now bodies) a).of }
{
    Kind(row_or(action_count(kinds), kinds, a, 0))
}

// The statement of action a.
pub fn body_of<'a>(
    kinds: &'a [u8; Program::ACTIONS + 1],
    bodies: &'a [u16; Program::ACTIONS + 1],
    a: usize,
) -> u16
    ensures { result ≡ (at no_action (actions_of kinds.now bodies.now) a).body }
{
    row_or(action_count(kinds), bodies, a, 0)
}

// The kind that state n belongs to.
pub fn state_kind(kinds: &[u8; Program::STATES + 1], n: usize) -> Kind
    ensures { (entries exits flags : List ℕ) → result.0 ≡ (at no_state (states_of kinds.now entries exits flags) n).of }
{
    Kind(row_or(state_count(kinds), kinds, n, 0))
}

// The entry statement of state n.
pub fn entry_of<'a>(
    kinds: &'a [u8; Program::STATES + 1],
    entries: &'a [u16; Program::STATES + 1],
    n: usize,
) -> u16
    ensures { (exits flags : List ℕ) → result ≡ (at no_state (states_of kinds.now entries.now exits flags) n).entry }
{
    row_or(state_count(kinds), entries, n, 0)
}

// The exit statement of state n.
pub fn exit_of<'a>(
    kinds: &'a [u8; Program::STATES + 1],
    exits: &'a [u16; Program::STATES + 1],
    n: usize,
) -> u16
    ensures { (entries flags : List ℕ) → result ≡ (at no_state (states_of kinds.now entries exits.now flags) n).exit }
{
    row_or(state_count(kinds), exits, n, 0)
}

// State n defers event e.
pub fn defers<'a>(
    kinds: &'a [u8; Program::STATES + 1],
    flags: &'a [u8; (Program::STATES + 1) * (Program::EVENTS + 1)],
    n: usize,
    e: usize,
) -> bool
    ensures { (entries exits : List ℕ) → result ≡ any (eqb e) (at no_state (states_of kinds.now entries exits flags.now) n).defer }
{
    there(state_count(kinds), n)
        && there(Program::EVENTS, e)
        && flags[n * (Program::EVENTS + 1) + e] != 0
}
