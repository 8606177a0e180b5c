// The rules of a head statement that touch only the machine itself: skip (SEQ), leave, return, assert, if and while. All tests come before the first store, so
// that a refusal changes nothing. What each is asked and leaves stands in specs/Heading.antt and specs/Conditions.antt.
// stays: no plainer: these functions are lent the arrays that they touch, so that no contract need say that the others stay
#![tactic(auto)]

ghost use Rattle.std.specs.Prelude.{◌≡◌, ℕ, ◌*◌, ◌%◌, ◌<◌};
ghost use Rattle.programs.specs.Program.{skip, leave, assert, if, while};
ghost use Rattle.codes.specs.Codes.{value_of};
ghost use Rattle.evaluation.specs.Evaluated.{REST, evaluated, Readable};
ghost use Rattle.statements.specs.Heading.{RowAsked, PartAsked, RowLeft, PendingLeft};
ghost use Rattle.statements.specs.Conditions.{TestAsked, BranchAsked, truth_of};

use answers::Answer;
use engine::Outcome;
use rules::Rule;
use tables::Program;
use values::Value;

// The condition e in the machine of room k, under the bits w; none where it is no bool.
fn condition(
    exprs: &[u32; 3 * (Program::EXPRESSIONS + 1)],
    places: &[u8; Program::ALL_VARIABLES + 1],
    values: &[u64; (Program::VARIABLES + 3) * Program::ROOMS],
    k: usize,
    e: u16,
    w: u64,
) -> Option<bool>
    requires { Readable places.now values.now (k * 19) × (w < 256) }
    ensures { result ≡ truth_of (value_of (evaluated exprs.now places.now values.now (k * 19) e w % REST)) }
{
    match codes::value_of(evaluation::number(exprs, places, values, k, e, w)) {
        Value::Bool(b) => Some(b),
        _ => None,
    }
}

// SEQ: a skip at the head goes.
pub fn skip_on(
    stmts: &[u16; 5 * (Program::STATEMENTS + 1)],
    counts: &mut [usize; Program::ROOMS],
    parts: &mut [u16; Program::ROOMS * Program::ROW],
    held: &[u64; Program::ROOMS],
    k: usize,
) -> Outcome
    requires { PartAsked stmts.now k skip counts.old parts.old held.now }
    ensures { (a : PartAsked stmts.now k skip counts.old parts.old held.now) (w : ℕ) → RowLeft a.row w result counts.new parts.new }
{
    let pending = held[k] != 0;
    remaining::drop_head(stmts, counts, parts, k, pending);
    Ok(Rule::SEQ)
}

// LEAVE: nothing remains, and nothing is pending.
pub fn leave_on(
    counts: &mut [usize; Program::ROOMS],
    parts: &mut [u16; Program::ROOMS * Program::ROW],
    held: &mut [u64; Program::ROOMS],
    k: usize,
) -> Outcome
    requires { RowAsked k leave counts.old parts.old held.old }
    ensures { (a : RowAsked k leave counts.old parts.old held.old) (w : ℕ) → PendingLeft a w result counts.new parts.new held.new }
{
    remaining::clear_row(counts, parts, k);
    held[k] = 0;
    Ok(Rule::LEAVE)
}

// ASSERT: a condition that is true is passed.
pub fn assert_on(
    exprs: &[u32; 3 * (Program::EXPRESSIONS + 1)],
    places: &[u8; Program::ALL_VARIABLES + 1],
    values: &[u64; (Program::VARIABLES + 3) * Program::ROOMS],
    counts: &mut [usize; Program::ROOMS],
    parts: &mut [u16; Program::ROOMS * Program::ROW],
    held: &[u64; Program::ROOMS],
    k: usize,
    e: u16,
    w: u64,
) -> Outcome
    requires { TestAsked exprs.now places.now values.now k (assert e) e w counts.old parts.old held.now }
    ensures { (a : TestAsked exprs.now places.now values.now k (assert e) e w counts.old parts.old held.now) → RowLeft a.row w result counts.new parts.new }
{
    let c = condition(exprs, places, values, k, e, w).ok_or(Answer::NotABool)?;
    if !c {
        return Err(Answer::AssertionFalse);
    }
    let pending = held[k] != 0;
    remaining::finish_head(counts, parts, k, pending);
    Ok(Rule::ASSERT)
}

// IF: statement a where the condition is true, or else b.
pub fn if_on(
    program: &Program,
    places: &[u8; Program::ALL_VARIABLES + 1],
    values: &[u64; (Program::VARIABLES + 3) * Program::ROOMS],
    counts: &mut [usize; Program::ROOMS],
    parts: &mut [u16; Program::ROOMS * Program::ROW],
    held: &[u64; Program::ROOMS],
    k: usize,
    e: u16,
    a: u16,
    b: u16,
    w: u64,
) -> Outcome
    requires { BranchAsked program.now.stmts program.now.exprs places.now values.now k (if e a b) e w counts.old parts.old held.now }
    ensures { (q : BranchAsked program.now.stmts program.now.exprs places.now values.now k (if e a b) e w counts.old parts.old held.now) → RowLeft q.test.row w result counts.new parts.new }
{
    let c = condition(&program.exprs, places, values, k, e, w).ok_or(Answer::NotABool)?;
    let pending = held[k] != 0;
    if !c {
        remaining::replace_head(&program.stmts, counts, parts, k, b, pending);
        return Ok(Rule::IF);
    }
    remaining::replace_head(&program.stmts, counts, parts, k, a, pending);
    Ok(Rule::IF)
}

// WHILE: statement a before the head where the condition is true, or else it is passed.
pub fn while_on(
    program: &Program,
    places: &[u8; Program::ALL_VARIABLES + 1],
    values: &[u64; (Program::VARIABLES + 3) * Program::ROOMS],
    counts: &mut [usize; Program::ROOMS],
    parts: &mut [u16; Program::ROOMS * Program::ROW],
    held: &[u64; Program::ROOMS],
    k: usize,
    e: u16,
    a: u16,
    w: u64,
) -> Outcome
    requires { BranchAsked program.now.stmts program.now.exprs places.now values.now k (while e a) e w counts.old parts.old held.now }
    ensures { (q : BranchAsked program.now.stmts program.now.exprs places.now values.now k (while e a) e w counts.old parts.old held.now) → RowLeft q.test.row w result counts.new parts.new }
{
    let c = condition(&program.exprs, places, values, k, e, w).ok_or(Answer::NotABool)?;
    let pending = held[k] != 0;
    if !c {
        remaining::finish_head(counts, parts, k, pending);
        return Ok(Rule::WHILE);
    }
    remaining::push_part(&program.stmts, counts, parts, k, a, pending);
    Ok(Rule::WHILE)
}
