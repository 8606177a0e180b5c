// A machine with an empty row and something pending: the rule that is its next, and what it leaves.
// stays: no plainer: the function is lent the arrays that it touches, so that its contract need not say that the others stay
#![tactic(auto)]

ghost use Rattle.pended.specs.Pended.{PendAsked, PendLeaves};

use codes::event_of;
use engine::Outcome;
use index::Says;
use pending::{action_on, call_on, pop1_on, pop2_on, step_on};
use stacks::{top_map, top_state};
use tables::{Program, event_count};
use turns::{Turn, turn_of};

// A pending return pops the frame on top; a pending raise is a step, a call, an action, or pops it.
pub fn pend_on(
    program: &Program,
    says: &Says,
    depths: &mut [usize; Program::ROOMS],
    states: &mut [u8; Program::ROOMS * Program::STACK],
    maps: &mut [u8; Program::ROOMS * Program::STACK * Program::EVENTS],
    counts: &mut [usize; Program::ROOMS],
    parts: &mut [u16; Program::ROOMS * Program::ROW],
    held: &mut [u64; Program::ROOMS],
    k: usize,
) -> Outcome
    requires { PendAsked says.now program.now.stmts program.now.state_of program.now.state_entry program.now.defers program.now.action_of program.now.action_body program.now.event_types k depths.old states.old maps.old counts.old parts.old held.old }
    ensures { PendLeaves says.now program.now.stmts program.now.state_of program.now.state_entry program.now.defers program.now.action_of program.now.action_body program.now.event_types k depths.old states.old maps.old counts.old parts.old held.old result depths.new states.new maps.new counts.new parts.new held.new }
{
    // stays: the C interface: what is pending lies in a Room as 0, as 1 for a return, or as a pair's number
    let x = held[k];
    if x == 1 {
        return pop2_on(depths, states, maps, held, k);
    }
    let n = top_state(depths, states, k);
    let b = top_map(depths, k);
    match turn_of(says, maps, b, n, event_of(x)) {
        Turn::Step(s) => step_on(program, depths, states, counts, parts, held, k, s),
        Turn::Call(s) => {
            let events = event_count(&program.event_types);
            call_on(
                program, says, depths, states, maps, counts, parts, held, k, s, events,
            )
        }
        Turn::Act(a) => action_on(program, counts, parts, held, k, a),
        Turn::Pop => pop1_on(depths, states, maps, k),
    }
}
