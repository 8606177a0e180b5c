// The test of a configuration that lies in the engine's arrays, by the program itself: the heights of its statements and the kinds that they serve are worked
// out, and the arrays are tested with them (answer 20).
#![tactic(auto)]

ghost use Rattle.lists.specs.Tells.{Tells};
ghost use Rattle.tables.specs.Decode.{program_of};
ghost use Rattle.accepting.specs.Asked.{IsOne};
ghost use Rattle.admitting.specs.Admitting.{Laid};

use configs::Flat;
use tables::Program;

// The arrays hold a configuration of the sound program.
pub fn admitted(program: &Program, flat: &Flat) -> bool
    requires { Laid program.now flat.now }
    ensures { Tells result (IsOne (program_of program.now) flat.now) }
{
    let heights = marks::heights(&program.stmts);
    let served = marks::served(program);
    accepting::accepted_on(program, &heights, &served, flat)
}
