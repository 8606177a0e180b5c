// THE ENGINE'S STEP: which machine, and which of its rules. All tests of a rule come before its first store, so that a refusal leaves the arrays as they were.
#![tactic(auto)]

ghost use Rattle.engine.specs.Engine.{Performed};
ghost use Rattle.heads.specs.Asked.{StepAskedOf};
ghost use Rattle.dispatch.specs.Dispatch.{step_outcome};

use answers::Answer;
use configs::Flat;
use engine::Outcome;
use index::Index;
use tables::Program;

// The step of machine i under the bits w. It costs what its rule touches, and the search for the machine's room.
pub fn step_on(program: &Program, index: &Index, flat: &mut Flat, i: u32, w: u64) -> Outcome
    requires { StepAskedOf program.now index.now flat.old w }
    ensures { (a : StepAskedOf program.now index.now flat.old w) → Performed flat.old (step_outcome a i) result flat.new }
{
    if i == 0 {
        return Err(Answer::UnableToStep);
    }
    let k = rooms::find_room(&flat.ids, i).ok_or(Answer::UnableToStep)?;
    if flat.depths[k] == 0 {
        return Err(Answer::StackEmpty);
    }
    if flat.counts[k] != 0 {
        return heads::head_on(program, index, flat, k, w);
    }
    if flat.held[k] != 0 {
        return pended::pend_on(
            program,
            &index.says,
            &mut flat.depths,
            &mut flat.states,
            &mut flat.maps,
            &mut flat.counts,
            &mut flat.parts,
            &mut flat.held,
            k,
        );
    }
    dequeuing::dequeue_on(
        program,
        &index.says,
        &flat.depths,
        &flat.states,
        &flat.maps,
        &mut flat.values,
        &mut flat.counts,
        &mut flat.parts,
        &mut flat.held,
        &mut flat.waiting,
        &mut flat.pairs,
        k,
    )
}
