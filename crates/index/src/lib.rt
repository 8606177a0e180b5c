// What a program's lines say, worked out once so that a step looks it up: the transitions and actions of each state and event, and the place of each
// variable among its kind's. What the tables hold stands in specs/Index.antt.
#![tactic(auto)]

ghost use Rattle.std.specs.Prelude.{◌≡◌, List, ℕ, ◌+◌, ◌-◌, ◌≤◌, ◌<◌};
ghost use Rattle.tables.specs.Decode.{MOVES, moves_of, variables_of, program_of};
ghost use Rattle.index.specs.Index.{Said, Placed, Says as SaysOf, said_at, line_at};
ghost use Rattle.index.specs.Saying.{stored, stored_all};

use tables::{Program, byte, move_at, row_after, rows_from, variable_count};

// The table of what is said: for each state and event three numbers, the step, the call and the action.
pub type Says = [u8; 3 * (Program::STATES + 1) * (Program::EVENTS + 1)];

// The lines of a state for an event: the state that is stepped to, the state that is called, the action.
// stays: 0 for none may not change: Said, by which each number of `says` reads
#[derive(Clone, Copy, Debug, PartialEq, Eq)]
pub struct Line {
    pub step: u8,
    pub call: u8,
    pub act: u8,
}

// WHAT A STEP LOOKS UP of a program.
#[derive(Drop)]
pub struct Index {
    // for each state and event the step, the call and the action
    pub says: Says,
    // the place of each variable among its kind's
    pub places: [u8; Program::ALL_VARIABLES + 1],
}

impl Index {
    // What the lines of this program say.
    pub fn of(program: &Program) -> Index
        ensures says { SaysOf (program_of program.now) result.says }
        ensures places { (types : List ℕ) → Placed (variables_of program.now.variable_of types) result.places }
    {
        Index {
            says: say(&program.moves, program.steps, program.calls, program.acts),
            places: place_all(&program.variable_of),
        }
    }
}

// A kind's number is one of so many.
const KIND_NUMBERS: usize = 256;

// Where `says` has the step of state n on event e; the call and the action stand behind it.
fn place(n: usize, e: usize) -> usize
    requires { (n ≤ 64) × (e ≤ 64) }
    ensures { result ≡ said_at n e }
{
    (n * (Program::EVENTS + 1) + e) * 3
}

// WHAT IS SAID of state n and event e; of a state or an event that `says` has no place for, nothing.
pub fn look_up(says: &Says, n: usize, e: usize) -> Line
    ensures { result ≡ line_at says.now n e }
{
    if Program::STATES < n || Program::EVENTS < e {
        return Line {
            step: 0,
            call: 0,
            act: 0,
        };
    }
    let at = place(n, e);
    Line {
        step: says[at],
        call: says[at + 1],
        act: says[at + 2],
    }
}

// Stores in column j where a state goes on an event; one that `says` has no place for is passed over.
fn store_move(from: u8, on: u8, to: u8, j: usize, says: &mut Says)
    requires { j < 3 }
    ensures { says.new ≡ stored j (record { from = from; on = on; to = to }) says.old }
{
    let n = usize::from(from);
    let e = usize::from(on);
    if n <= Program::STATES && e <= Program::EVENTS {
        says[place(n, e) + j] = to;
    }
}

// Stores in column j the n moves from row a on. From the last to the first: the first of a state and event is the one that stays.
fn store_moves(moves: &[u8; 3 * Program::MOVES], a: usize, n: usize, j: usize, says: &mut Says)
    requires { j < 3 }
    ensures { says.new ≡ stored_all j (moves_of moves.now a n) says.old }
{
    let m = rows_from(Program::MOVES, a, n);
    // stays: no plainer: a turn reads the three numbers of its row by their places
    for i in (0..m).rev() {
        let m = move_at(moves, a + i);
        store_move(m.from, m.on, m.to, j, says);
    }
}

// WHAT THE MOVES SAY: for each state and event the step, the call and the action.
pub fn say(moves: &[u8; 3 * Program::MOVES], steps: usize, calls: usize, acts: usize) -> Says
    ensures { Said (moves_of moves.now 0 steps) (moves_of moves.now steps calls) (moves_of moves.now (steps + calls) acts) result }
{
    let mut says: Says = [0; 3 * (Program::STATES + 1) * (Program::EVENTS + 1)];
    let a = row_after(steps, calls);
    store_moves(moves, 0, steps, 0, &mut says);
    store_moves(moves, steps, calls, 1, &mut says);
    store_moves(moves, a, acts, 2, &mut says);
    says
}

// THE PLACE OF EACH VARIABLE among its kind's: how many of its kind come before it.
pub fn place_all(kinds: &[u16; Program::ALL_VARIABLES + 1]) -> [u8; Program::ALL_VARIABLES + 1]
    ensures { (types : List ℕ) → Placed (variables_of kinds.now types) result }
{
    let n = variable_count(kinds);
    let mut counts: [u16; KIND_NUMBERS] = [0; KIND_NUMBERS];
    let mut places: [u8; Program::ALL_VARIABLES + 1] = [0; Program::ALL_VARIABLES + 1];
    for x in 1..=n {
        let k = usize::from(byte(kinds[x]));
        let c = counts[k];
        places[x] = c as u8;
        counts[k] = c + 1;
    }
    places
}
