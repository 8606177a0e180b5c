// The step over a configuration that is lent: the program is read where it lies, the configuration is changed where it lies.
#![tactic(auto)]

ghost use Rattle.std.specs.Prelude.{◌≡◌};
ghost use Rattle.handed.specs.Handed.{step_of};

use configs::Config;
use engine::Outcome;
use tables::Program;
use values::Live;

// The outcome is answered, and the configuration becomes the step's. A choice that is refused leaves it as `step_of` says.
pub fn step_in(program: &Program, c: &mut Config, machine: Live, bits: u8) -> Outcome
    ensures { (result ≡ (step_of program.now c.old machine bits).outcome) × (c.new ≡ (step_of program.now c.old machine bits).config) }
{
    let s = stepping::step_from(program, c, machine, bits);
    *c = s.config;
    s.outcome
}
