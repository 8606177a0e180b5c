// ANSWERS 4 TO 9 over a program's tables: the passes in their order; the first that finds a fault refuses, with its answer and the line.
#![tactic(auto)]

ghost use Rattle.std.specs.Prelude.{◌≡◌, ◌≤◌};
ghost use Rattle.tables.specs.Decode.{program_of};
ghost use Rattle.texts.specs.Verdict.{verdict};
ghost use Rattle.judging.specs.Judging.{refused, result_of};

use answers::{Answer, Refusal};
use faults::count_rows;
use tables::Program;

// Refuses with this answer where a pass found a faulty line.
fn refuse(answer: Answer, line: Option<usize>) -> Result<(), Refusal>
    ensures { result ≡ refused answer line }
{
    line.map_or(Ok(()), |line| Err(Refusal { answer, line }))
}

// THE PASSES 4 TO 9: refuses with the answer of the first that finds a fault, and its line. Linear in the lines and their pairs; for foreign variables and
// answer 9 that for each kind.
pub fn judge(program: &Program) -> Result<(), Refusal>
    requires { program.now.kinds ≤ 16 }
    ensures { result ≡ result_of (verdict (program_of program.now)) }
{
    // 4: linear in the lines and their pairs, with up to 64 turns for each state
    refuse(Answer::NotThere, referring::refers(program))?;
    // 5: linear in the expressions, the statements, their pairs, the actions and the states; a mark for each number of 16 bits is cleared, twice
    let rows = count_rows(program);
    refuse(Answer::NotLower, lowering::lower(rows, program))?;
    // 4 again, foreign variables: linear in the actions and the states, and for each of 16 kinds in the expressions, the statements and their pairs
    let served = marks::served(program);
    refuse(Answer::NotThere, ownness::own(program, &served))?;
    // 6: linear in the moves; a mark for each state and event is cleared, twice
    refuse(Answer::Doubled, singling::single(program))?;
    // 7: linear in the statements and the states
    refuse(Answer::ExitLeaves, quietness::quiet(program))?;
    // 8: linear in the expressions, the statements and their pairs
    let heights = marks::heights(&program.stmts);
    refuse(Answer::TooHigh, lowness::low(program, &heights))?;
    // 9: linear in the kinds times the states
    if sizing::stateful(program) {
        Ok(())
    } else {
        Err(Refusal {
            answer: Answer::NoState,
            line: 0,
        })
    }
}
