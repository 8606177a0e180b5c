// RAISE: the payload is evaluated and tested before the first store, so that a refusal changes nothing. Then msg and arg are stored, the state's exit or skip
// remains, and the raise is pending.
// stays: no plainer: it is lent the arrays that it touches, so that no contract need say that the others stay
#![tactic(auto)]

ghost use Rattle.storing.specs.Storing.{StoredLeft};
ghost use Rattle.raising.specs.Raising.{RaiseAsked};

use answers::Answer;
use engine::Outcome;
use evaluation::number;
use index::Index;
use maps::exit_or_skip;
use rules::Rule;
use tables::{Program, event_type};
use values::{Value, suits};

// Event e with the value of expression x as its payload, where it suits; n is the state on top, and its map stands in the 64 places from b on.
pub fn raise_on(
    program: &Program,
    index: &Index,
    maps: &[u8; Program::ROOMS * Program::STACK * Program::EVENTS],
    values: &mut [u64; (Program::VARIABLES + 3) * Program::ROOMS],
    counts: &mut [usize; Program::ROOMS],
    parts: &mut [u16; Program::ROOMS * Program::ROW],
    held: &mut [u64; Program::ROOMS],
    k: usize,
    b: usize,
    n: usize,
    e: u8,
    x: u16,
    w: u64,
) -> Outcome
    requires { RaiseAsked program.now.stmts program.now.exprs index.now.places index.now.says program.now.event_types program.now.state_of program.now.state_exit maps.now values.old k b n e x w counts.old parts.old held.old }
    ensures { (a : RaiseAsked program.now.stmts program.now.exprs index.now.places index.now.says program.now.event_types program.now.state_of program.now.state_exit maps.now values.old k b n e x w counts.old parts.old held.old) → StoredLeft a.test.row w result values.new counts.new parts.new held.new }
{
    let v = number(&program.exprs, &index.places, values, k, x, w);
    let t = event_type(&program.event_types, usize::from(e));
    if !suits(t, codes::value_of(v)) {
        return Err(Answer::WrongType);
    }
    let s = exit_or_skip(program, &index.says, maps, b, n, usize::from(e));
    let at = k * (Program::VARIABLES + 3);
    values[at + Program::MSG] = codes::code(Value::Event(e));
    values[at + Program::ARG] = v;
    held[k] = codes::pair_number(e, v);
    remaining::only(&program.stmts, counts, parts, k, s, true);
    Ok(Rule::RAISE)
}
