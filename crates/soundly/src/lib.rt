// The test of a program that is handed in (answer 20): its lists and sizes, and then the passes 4 to 9 over its lines.
#![tactic(auto)]

ghost use Rattle.std.specs.Prelude.{◌≡◌};
ghost use Rattle.soundness.specs.Sound.{sound};
ghost use Rattle.tables.specs.Decode.{program_of};

use tables::Program;

// THE PROGRAM IS SOUND. Linear in the lines, and in the statements and expressions for each kind.
pub fn sound(program: &Program) -> bool
    ensures { result ≡ sound (program_of program.now) }
{
    // 2, as far as 20 names it: linear in the variables, the statements and their pairs; 3: linear in the kinds times the variables; 4 to 9
    sizing::orderly(program)
        && sizing::sized(program.kinds, &program.variable_of, &program.exprs)
        && {
            // stays: may not change: the edit without_a_state, which asks what is judged for another answer
            let judged = judging::judge(program);
            judged.is_ok()
        }
}
