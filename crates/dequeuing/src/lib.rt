// DEQUEUE: the first pair of a room's queue that is not held back is taken. The search and the test come before the first store, so that a refusal changes
// nothing.
// stays: no plainer: these functions are lent the arrays that they touch, so that no contract need say that the others stay
#![tactic(auto)]

ghost use Rattle.std.specs.Prelude.{List, ℕ, ◌<◌, ◌≤◌, length, get_or, ◌≡◌, IfSome, unwrap_or};
ghost use Rattle.programs.specs.Program.{Program as Lines};
ghost use Rattle.machines.specs.Maps.{held_back};
ghost use Rattle.codes.specs.Pairs.{pair_event};
ghost use Rattle.maps.specs.Maps.{Tables, map_at};
ghost use Rattle.remaining.specs.Remaining.{Placing};
ghost use Rattle.dequeuing.specs.Dequeuing.{DequeueAsked, DequeueLeaves, Taken};
ghost use Rattle.dequeuing.specs.Search.{SearchAsked, First, event_at};

use answers::Answer;
use codes::{EVENT, event_of};
use engine::Outcome;
use index::Says;
use maps::{exit_or_skip, held_back};
use queues::remove_on;
use remaining::only;
use rules::Rule;
use stacks::{top_map, top_state};
use tables::Program;
use values::Value;

// The first pair of room k's queue whose event the frame does not hold back, from 0: its state is n, and its map stands in the 64 places from b on.
fn first_free(
    program: &Program,
    says: &Says,
    maps: &[u8; Program::ROOMS * Program::STACK * Program::EVENTS],
    waiting: &[usize; Program::ROOMS],
    pairs: &[u64; Program::ROOMS * Program::QUEUE],
    k: usize,
    b: usize,
    n: usize,
) -> Option<usize>
    requires { SearchAsked k b n waiting.now pairs.now }
    ensures inside { IfSome result (λ j. j < get_or waiting.now k 0) }
    ensures first { (p : Lines) (entries exits : List ℕ) → Tables p says.now program.now.state_of entries exits program.now.defers → ((j : ℕ) → j < get_or waiting.now k 0 → event_at k pairs.now j ≤ length p.events) → First (λ j. held_back p n (map_at p b maps.now) (event_at k pairs.now j)) (get_or waiting.now k 0) (unwrap_or result (get_or waiting.now k 0)) }
{
    let row = k * Program::QUEUE;
    (0..waiting[k]).find(|&j| !held_back(program, says, maps, b, n, event_of(pairs[row + j])))
}

// What is stored for the pair with number x, but for the queue: msg, arg, the row with the one statement s, and the pending raise.
fn take(
    stmts: &[u16; 5 * (Program::STATEMENTS + 1)],
    values: &mut [u64; Program::ROOMS * (Program::VARIABLES + 3)],
    counts: &mut [usize; Program::ROOMS],
    parts: &mut [u16; Program::ROOMS * Program::ROW],
    held: &mut [u64; Program::ROOMS],
    k: usize,
    x: u64,
    s: u16,
)
    requires { Placing stmts.now k counts.old parts.old s 0 × (pair_event x ≤ 64) }
    ensures { Taken stmts.now k x s values.old counts.old parts.old held.old values.new counts.new parts.new held.new }
{
    let at = k * (Program::VARIABLES + 3);
    values[at + Program::MSG] = codes::code(Value::Event(event_of(x) as u8));
    values[at + Program::ARG] = x % EVENT;
    only(stmts, counts, parts, k, s, true);
    held[k] = x;
}

// The machine in room k takes its pair; 19 where every one is held back.
pub fn dequeue_on(
    program: &Program,
    says: &Says,
    depths: &[usize; Program::ROOMS],
    states: &[u8; Program::ROOMS * Program::STACK],
    maps: &[u8; Program::ROOMS * Program::STACK * Program::EVENTS],
    values: &mut [u64; Program::ROOMS * (Program::VARIABLES + 3)],
    counts: &mut [usize; Program::ROOMS],
    parts: &mut [u16; Program::ROOMS * Program::ROW],
    held: &mut [u64; Program::ROOMS],
    waiting: &mut [usize; Program::ROOMS],
    pairs: &mut [u64; Program::ROOMS * Program::QUEUE],
    k: usize,
) -> Outcome
    requires { DequeueAsked says.now program.now.stmts program.now.state_of program.now.state_exit program.now.defers k depths.now states.now maps.now values.old counts.old parts.old held.old waiting.old pairs.old }
    ensures { DequeueLeaves says.now program.now.stmts program.now.state_of program.now.state_exit program.now.defers k depths.now states.now maps.now values.old counts.old parts.old held.old waiting.old pairs.old result values.new counts.new parts.new held.new waiting.new pairs.new }
{
    let n = top_state(depths, states, k);
    let b = top_map(depths, k);
    let j = first_free(program, says, maps, waiting, pairs, k, b, n).ok_or(Answer::UnableToStep)?;
    let x = pairs[k * Program::QUEUE + j];
    let s = exit_or_skip(program, says, maps, b, n, event_of(x));
    take(&program.stmts, values, counts, parts, held, k, x, s);
    remove_on(pairs, waiting, k, j);
    Ok(Rule::DEQUEUE)
}
