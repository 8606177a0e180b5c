// ANSWER 6: no two transitions, and no two actions, for one state and event. The moves are gone through once, and each state and event that has one is
// marked in a table of flags; specs/Singling.antt has the laws.
#![tactic(auto)]

ghost use Rattle.std.specs.Prelude.{◌≡◌, cond, List, ◌++◌, ℕ, ◌≤◌};
ghost use Rattle.programs.specs.Program.{Program as Lines, Move};
ghost use Rattle.soundness.specs.Asked.{refers, single};
ghost use Rattle.soundness.specs.Sound.{lines, first_fault, meets};
ghost use Rattle.tables.specs.Decode.{moves_of};
ghost use Rattle.faults.specs.Faults.{row_fault, moves_fault};
ghost use Rattle.faults.specs.Read.{Holds, Moves};
ghost use Rattle.faults.specs.Lines.{line_of, number_of};
ghost use Rattle.singling.specs.Marking.{Marked, Marking};
ghost use Rattle.singling.specs.Singling.{double, LowMoves};

use faults::{count_rows, fault, joined, onward};
use tables::{Program, move_at, row_after, rows_from};

// A flag for each state and event.
// stays: may not change: Marked of specs/Marking, in which a flag is a number, 0 where it is not set
const FLAGS: usize = (Program::STATES + 1) * (Program::EVENTS + 1);

// Marks a move's state and event: whether they were marked before. A move of a state or event that has no flag is passed over.
fn mark(from: u8, on: u8, seen: &mut [u8; FLAGS]) -> bool
    ensures { (l : List Move) (to : ℕ) → Marked l seen.old → Marking l (record { from = from; on = on; to = to }) (cond result 1 0) seen.new }
{
    let n = usize::from(from);
    let e = usize::from(on);
    if Program::STATES < n || Program::EVENTS < e {
        return false;
    }
    let at = n * (Program::EVENTS + 1) + e;
    let was = seen[at];
    seen[at] = 1;
    was != 0
}

// The first of the n moves from row a on that is for a state and event marked before it, from 1. Marks them all. Linear in them.
// stays: no plainer: a loop over rows, as the four of crates/lowering: it sets marks, which a closure's contract could only give as steps
// stays: no plainer: a and n are as the program has them; a slice would have to be cut by the caller, thrice, at the table's end too
fn first_double(program: &Program, a: usize, n: usize, seen: &mut [u8; FLAGS]) -> Option<usize>
    ensures row { (l : List Move) → Marked l seen.old → (result ≡ line_of (row_fault (double l (moves_of program.now.moves a n)) (moves_of program.now.moves a n))) × Marked (l ++ moves_of program.now.moves a n) seen.new }
    ensures bound { number_of result ≤ 4096 }
{
    let mut first = None;
    for i in 0..rows_from(Program::MOVES, a, n) {
        let m = move_at(&program.moves, a + i);
        let again = mark(m.from, m.on, seen);
        first = joined(first, i, fault(!again));
    }
    first
}

// The first faulty one of the moves. Linear in them.
fn moves_single(program: &Program) -> Option<usize>
    ensures line { (p : Lines) → Moves p program.now → LowMoves p → result ≡ line_of (moves_fault p (single p)) }
    ensures bound { number_of result ≤ 65536 }
{
    let behind = row_after(program.steps, program.calls);
    let steps = rows_from(Program::MOVES, 0, program.steps);
    let calls = rows_from(Program::MOVES, program.steps, program.calls);
    let mut seen: [u8; FLAGS] = [0; FLAGS];
    let mut done: [u8; FLAGS] = [0; FLAGS];
    let s = first_double(program, 0, program.steps, &mut seen);
    let k = first_double(program, program.steps, program.calls, &mut seen);
    let d = first_double(program, behind, program.acts, &mut done);
    joined(s, steps, joined(k, calls, d))
}

// ANSWER 6: the first line with a transition, or an action, for a state and event that have one. Linear in the moves.
pub fn single(program: &Program) -> Option<usize>
    ensures { (p : Lines) (types inits bodies entries exits flags : List ℕ) → Holds p (record program.now { variable_type = types; inits = inits; action_body = bodies; state_entry = entries; state_exit = exits; defers = flags }) → Moves p program.now → (meets p (refers p)).Holds → result ≡ line_of (first_fault 1 (lines p (single p))) }
{
    let c = count_rows(program);
    let m = moves_single(program);
    let rows = c.events + c.kinds + c.variables + c.exprs + c.stmts;
    onward(rows + c.actions + c.states, m)
}
