// The rules of an empty row, where something is pending: STEP, CALL, ACTION and POP1 for a raise, POP2 for a return. Each works on room k in the flat arrays;
// CALL's test of a full stack comes before its first store.
// stays: no plainer: these functions are lent the arrays that they touch, so that no contract need say that the others stay
#![tactic(auto)]

ghost use Rattle.std.specs.Prelude.{◌≡◌, false, [], ◌∷◌, set};
ghost use Rattle.parts.specs.Parts.{Said, tidied};
ghost use Rattle.engine.specs.Holding.{RowBecomes};
ghost use Rattle.remaining.specs.Remaining.{Placing};
ghost use Rattle.pending.specs.Pending.{StepAsked, CallAsked, ActionAsked, RaiseAsked, ReturnAsked, StepLeaves, CallLeaves, ActionLeaves, RaiseLeaves, ReturnLeaves};

use answers::Answer;
use engine::Outcome;
use index::Says;
use remaining::only;
use rules::Rule;
use stacks::{call_frame, pop_frame, step_frame};
use tables::{Program, body_of, entry_of};

// Statement a is all that is left, and nothing is pending.
fn begin(
    stmts: &[u16; 5 * (Program::STATEMENTS + 1)],
    counts: &mut [usize; Program::ROOMS],
    parts: &mut [u16; Program::ROOMS * Program::ROW],
    held: &mut [u64; Program::ROOMS],
    k: usize,
    a: u16,
)
    requires { Placing stmts.now k counts.old parts.old a 0 }
    ensures { RowBecomes k counts.old parts.old (Said stmts.now) (λ p r. tidied false p (a ∷ [])) counts.new parts.new × (held.new ≡ set held.old k 0) }
{
    only(stmts, counts, parts, k, a, false);
    held[k] = 0;
}

// STEP: the frame on top is in state n, at its entry statement.
pub fn step_on(
    program: &Program,
    depths: &[usize; Program::ROOMS],
    states: &mut [u8; Program::ROOMS * Program::STACK],
    counts: &mut [usize; Program::ROOMS],
    parts: &mut [u16; Program::ROOMS * Program::ROW],
    held: &mut [u64; Program::ROOMS],
    k: usize,
    n: u8,
) -> Outcome
    requires { StepAsked program.now.stmts program.now.state_of program.now.state_entry k depths.now states.old counts.old parts.old held.old }
    ensures { StepLeaves program.now.stmts program.now.state_of program.now.state_entry k n depths.now states.old counts.old parts.old held.old result states.new counts.new parts.new held.new }
{
    let e = entry_of(&program.state_of, &program.state_entry, usize::from(n));
    step_frame(depths, states, k, n);
    begin(&program.stmts, counts, parts, held, k, e);
    Ok(Rule::STEP)
}

// CALL: a frame in state n is on top, at its entry statement; 17 where the stack is full.
pub fn call_on(
    program: &Program,
    says: &Says,
    depths: &mut [usize; Program::ROOMS],
    states: &mut [u8; Program::ROOMS * Program::STACK],
    maps: &mut [u8; Program::ROOMS * Program::STACK * Program::EVENTS],
    counts: &mut [usize; Program::ROOMS],
    parts: &mut [u16; Program::ROOMS * Program::ROW],
    held: &mut [u64; Program::ROOMS],
    k: usize,
    n: u8,
    events: usize,
) -> Outcome
    requires { CallAsked says.now program.now.stmts program.now.state_of program.now.state_entry program.now.defers k events depths.old states.old maps.old counts.old parts.old held.old }
    ensures { CallLeaves says.now program.now.stmts program.now.state_of program.now.state_entry program.now.defers k n events depths.old states.old maps.old counts.old parts.old held.old result depths.new states.new maps.new counts.new parts.new held.new }
{
    let d = depths[k];
    if Program::STACK <= d {
        return Err(Answer::StackFull);
    }
    let e = entry_of(&program.state_of, &program.state_entry, usize::from(n));
    call_frame(program, says, depths, states, maps, k, n, events);
    begin(&program.stmts, counts, parts, held, k, e);
    Ok(Rule::CALL)
}

// ACTION: action a's statement.
pub fn action_on(
    program: &Program,
    counts: &mut [usize; Program::ROOMS],
    parts: &mut [u16; Program::ROOMS * Program::ROW],
    held: &mut [u64; Program::ROOMS],
    k: usize,
    a: u8,
) -> Outcome
    requires { ActionAsked program.now.stmts program.now.action_of program.now.action_body k counts.old parts.old held.old }
    ensures { ActionLeaves program.now.stmts program.now.action_of program.now.action_body k a counts.old parts.old held.old result counts.new parts.new held.new }
{
    let b = body_of(&program.action_of, &program.action_body, usize::from(a));
    begin(&program.stmts, counts, parts, held, k, b);
    Ok(Rule::ACTION)
}

// POP1: the frame on top is popped, and the raise stays pending.
pub fn pop1_on(
    depths: &mut [usize; Program::ROOMS],
    states: &mut [u8; Program::ROOMS * Program::STACK],
    maps: &mut [u8; Program::ROOMS * Program::STACK * Program::EVENTS],
    k: usize,
) -> Outcome
    requires { RaiseAsked k depths.old states.old maps.old }
    ensures { RaiseLeaves k depths.old states.old maps.old result depths.new states.new maps.new }
{
    pop_frame(depths, states, maps, k);
    Ok(Rule::POP1)
}

// POP2: the frame on top is popped, and nothing is pending.
pub fn pop2_on(
    depths: &mut [usize; Program::ROOMS],
    states: &mut [u8; Program::ROOMS * Program::STACK],
    maps: &mut [u8; Program::ROOMS * Program::STACK * Program::EVENTS],
    held: &mut [u64; Program::ROOMS],
    k: usize,
) -> Outcome
    requires { ReturnAsked k depths.old states.old maps.old held.old }
    ensures { ReturnLeaves k depths.old states.old maps.old held.old result depths.new states.new maps.new held.new }
{
    pop_frame(depths, states, maps, k);
    held[k] = 0;
    Ok(Rule::POP2)
}
