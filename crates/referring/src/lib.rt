// ANSWER 4: everything that a line names is there, and a transition's and an act's of the state's kind. The passes over actions, states and moves, and the
// pass over all lines, which answers the first faulty one.
// stays: no plainer: a search for each table, since each asks of a row what such a row names; what they share is `first_bad`
#![tactic(auto)]

ghost use Rattle.std.specs.Prelude.{◌≡◌, List, ℕ, ◌<◌, ◌≤◌};
ghost use Rattle.lists.specs.Check.{each};
ghost use Rattle.programs.specs.Program.{Program as Lines, state_at};
ghost use Rattle.soundness.specs.Asked.{event_there, move_refers, act_refers, refers};
ghost use Rattle.soundness.specs.Sound.{lines, first_fault};
ghost use Rattle.tables.specs.Decode.{count, move_in};
ghost use Rattle.faults.specs.Faults.{row_fault, moves_fault};
ghost use Rattle.faults.specs.Read.{Counted, Holds, Moves};
ghost use Rattle.faults.specs.Lines.{line_of, number_of};

use faults::{Counts, count_rows, fault, first_bad, joined, onward};
use naming::{exprs_refer, stmts_refer, variables_refer};
use tables::{
    Program, action_count, action_kind, body_of, entry_of, exit_of, move_at, row_after, rows_from,
    state_count, state_kind, there,
};

// The first faulty row of the actions: each is of a kind that is there, and its statement is there. Linear in the actions.
fn actions_refer(program: &Program, c: Counts) -> Option<usize>
    ensures row { (p : Lines) → Counted p c → Holds p program.now → result ≡ line_of (row_fault (refers p).action p.actions) }
    ensures bound { number_of result ≤ 64 }
{
    first_bad(action_count(&program.action_of), |i| {
        let k = action_kind(&program.action_of, i);
        let b = body_of(&program.action_of, &program.action_body, i);
        there(c.kinds, usize::from(k.0)) && usize::from(b) <= c.stmts
    })
}

// The events that state n defers are there. Linear in the events that are not there.
fn defers_refer(program: &Program, c: Counts, n: usize) -> bool
    requires { (1 ≤ n) × (n ≤ count 64 program.now.state_of) }
    ensures { (p : Lines) → Counted p c → Holds p program.now → result ≡ (each (event_there p) (state_at p n).defer).test }
{
    (c.events..Program::EVENTS).all(|e| program.defers[n * (Program::EVENTS + 1) + (e + 1)] == 0)
}

// What state n names is there. Linear in the events.
fn state_refers(program: &Program, c: Counts, n: usize) -> bool
    requires { (1 ≤ n) × (n ≤ count 64 program.now.state_of) }
    ensures { (p : Lines) → Counted p c → Holds p program.now → result ≡ ((refers p).state n (state_at p n)).test }
{
    let k = state_kind(&program.state_of, n);
    let x = entry_of(&program.state_of, &program.state_entry, n);
    let y = exit_of(&program.state_of, &program.state_exit, n);
    there(c.kinds, usize::from(k.0))
        && defers_refer(program, c, n)
        && usize::from(x) <= c.stmts
        && usize::from(y) <= c.stmts
}

// The first faulty row of the states. Linear in the states and the events of each.
fn states_refer(program: &Program, c: Counts) -> Option<usize>
    ensures row { (p : Lines) → Counted p c → Holds p program.now → result ≡ line_of (row_fault (refers p).state p.states) }
    ensures bound { number_of result ≤ 64 }
{
    first_bad(
        state_count(&program.state_of),
        |n| state_refers(program, c, n),
    )
}

// What the transition in row r names is there, and it leads to a state of the same kind.
fn move_refers(program: &Program, c: Counts, r: usize) -> bool
    requires { r < 4096 }
    ensures { (p : Lines) → Counted p c → Holds p program.now → result ≡ (move_refers p (move_in program.now.moves r)).test }
{
    let m = move_at(&program.moves, r);
    let from = usize::from(m.from);
    let to = usize::from(m.to);
    there(c.states, from)
        && there(c.events, usize::from(m.on))
        && there(c.states, to)
        && state_kind(&program.state_of, to) == state_kind(&program.state_of, from)
}

// What the act line in row r names is there, and its action is of the state's kind.
// stays: no plainer: beside `move_refers`, since one function of both would have to be lent a table, its count and what reads a kind in it
fn act_refers(program: &Program, c: Counts, r: usize) -> bool
    requires { r < 4096 }
    ensures { (p : Lines) → Counted p c → Holds p program.now → result ≡ (act_refers p (move_in program.now.moves r)).test }
{
    let m = move_at(&program.moves, r);
    let from = usize::from(m.from);
    let to = usize::from(m.to);
    there(c.states, from)
        && there(c.events, usize::from(m.on))
        && there(c.actions, to)
        && action_kind(&program.action_of, to) == state_kind(&program.state_of, from)
}

// The first faulty one of the moves and the line `start`. Linear in the moves.
fn moves_fault(program: &Program, c: Counts) -> Option<usize>
    ensures line { (p : Lines) → Counted p c → Holds p program.now → Moves p program.now → p.start ≡ program.now.start.0 → result ≡ line_of (moves_fault p (refers p)) }
    ensures bound { number_of result ≤ 24577 }
{
    let behind = row_after(program.steps, program.calls);
    let steps = rows_from(Program::MOVES, 0, program.steps);
    let calls = rows_from(Program::MOVES, program.steps, program.calls);
    let acts = rows_from(Program::MOVES, behind, program.acts);
    let s = first_bad(steps, |i| move_refers(program, c, i - 1));
    let k = first_bad(calls, |i| move_refers(program, c, program.steps + (i - 1)));
    let t = first_bad(acts, |i| act_refers(program, c, behind + (i - 1)));
    let last = fault(there(c.kinds, usize::from(program.start.0)));
    joined(s, steps, joined(k, calls, joined(t, acts, last)))
}

// ANSWER 4: the first line that names something absent or of another kind's. Linear in the lines, their pairs, and the events of each state.
pub fn refers(program: &Program) -> Option<usize>
    ensures { (p : Lines) → Holds p program.now → Moves p program.now → p.start ≡ program.now.start.0 → result ≡ line_of (first_fault 1 (lines p (refers p))) }
{
    let c = count_rows(program);
    let m = moves_fault(program, c);
    let q = states_refer(program, c);
    let a = actions_refer(program, c);
    let s = stmts_refer(program, c);
    let e = exprs_refer(program, c.variables);
    let v = variables_refer(program);
    let rest = joined(a, c.actions, joined(q, c.states, m));
    let all = joined(v, c.variables, joined(e, c.exprs, joined(s, c.stmts, rest)));
    onward(c.events + c.kinds, all)
}
