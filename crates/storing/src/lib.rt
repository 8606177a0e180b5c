// The rules of a head statement that store more than the row: ASSIGN a variable, RETURN what is pending. All tests come before the first
// store, so that a refusal changes nothing. What each is asked and leaves stands in specs/Storing.antt.
// stays: no plainer: these functions are lent the arrays that they touch, so that no contract need say that the others stay
#![tactic(auto)]

ghost use Rattle.std.specs.Prelude.{ℕ};
ghost use Rattle.statements.specs.Heading.{PendingLeft};
ghost use Rattle.storing.specs.Storing.{AssignAsked, ReturnAsked, StoredLeft};

use answers::Answer;
use engine::Outcome;
use evaluation::number;
use rules::Rule;
use tables::{Program, exit_of, variable_type};
use values::suits;

// ASSIGN: the value of expression e into variable x, where it suits.
pub fn assign_on(
    program: &Program,
    places: &[u8; Program::ALL_VARIABLES + 1],
    values: &mut [u64; (Program::VARIABLES + 3) * Program::ROOMS],
    counts: &mut [usize; Program::ROOMS],
    parts: &mut [u16; Program::ROOMS * Program::ROW],
    held: &[u64; Program::ROOMS],
    k: usize,
    x: u16,
    e: u16,
    w: u64,
) -> Outcome
    requires { AssignAsked program.now.exprs places.now program.now.variable_of program.now.variable_type values.old k x e w counts.old parts.old held.now }
    ensures { (a : AssignAsked program.now.exprs places.now program.now.variable_of program.now.variable_type values.old k x e w counts.old parts.old held.now) → StoredLeft a.test.row w result values.new counts.new parts.new held.now }
{
    let v = number(&program.exprs, places, values, k, e, w);
    let t = variable_type(&program.variable_of, &program.variable_type, usize::from(x));
    if !suits(t, codes::value_of(v)) {
        return Err(Answer::WrongType);
    }
    let j = usize::from(places[usize::from(x)]);
    values[k * (Program::VARIABLES + 3) + j] = v;
    let pending = held[k] != 0;
    remaining::finish_head(counts, parts, k, pending);
    Ok(Rule::ASSIGN)
}

// RETURN: the exit of the state n on top remains, and the return is pending.
pub fn return_on(
    program: &Program,
    counts: &mut [usize; Program::ROOMS],
    parts: &mut [u16; Program::ROOMS * Program::ROW],
    held: &mut [u64; Program::ROOMS],
    k: usize,
    n: usize,
) -> Outcome
    requires { ReturnAsked program.now.stmts program.now.state_of program.now.state_exit k n counts.old parts.old held.old }
    ensures { (a : ReturnAsked program.now.stmts program.now.state_of program.now.state_exit k n counts.old parts.old held.old) (w : ℕ) → PendingLeft a.part.row w result counts.new parts.new held.new }
{
    let s = exit_of(&program.state_of, &program.state_exit, n);
    remaining::only(&program.stmts, counts, parts, k, s, true);
    held[k] = 1;
    Ok(Rule::RETURN)
}
