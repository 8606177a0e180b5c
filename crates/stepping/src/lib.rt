// THE STEP BY VALUE: the program and the configuration that are handed in are tested (answer 20); then the configuration is laid into the engine's arrays, the
// one choice is run, and it is lifted out of them.
#![tactic(auto)]

ghost use Rattle.std.specs.Prelude.{◌≡◌};
ghost use Rattle.soundness.specs.Sound.{Sound};
ghost use Rattle.tables.specs.Decode.{program_of};
ghost use Rattle.admitting.specs.Admitting.{Laid};
ghost use Rattle.handed.specs.Handed.{step_of};
ghost use Rattle.stepping.specs.Stepping.{Left};

use answers::Answer;
use configs::{Config, Flat};
use engine::Outcome;
use handed::Stepped;
use tables::Program;
use values::Live;

// The step of the configuration that lies in the engine's arrays, by a sound program: 20 where it is not one. It is the run of the one choice, so that the engine's
// step has one caller, the loop of a run, and is compiled into it. A number beyond 65,535 is no live one, and the number of a choice has no room for it.
fn step_laid(program: &Program, flat: &mut Flat, machine: Live, bits: u8) -> Outcome
    requires { Laid program.now flat.old }
    ensures { Left program.now flat.old machine bits result flat.new }
{
    if !admitting::admitted(program, flat) {
        return Err(Answer::NotAccepted);
    }
    if Program::LIVE_NUMBERS <= machine.0 as usize {
        return Err(Answer::UnableToStep);
    }
    // stays: the C interface: a choice is lent as one u32
    let list: [u32; 1] = [machine.0 * 256 + u32::from(bits)];
    let mut rules: [u8; Program::CHOICES] = [0; Program::CHOICES];
    let end = accepted_runs::run_accepted(program, flat, &list, &mut rules);
    if end.steps == 1 {
        Ok(labels::rule_of(rules[0]))
    } else {
        Err(end.answer)
    }
}

// The step of a sound program.
fn step_sound(program: &Program, c: &Config, machine: Live, bits: u8) -> Stepped
    requires { Sound (program_of program.now) }
    ensures { result ≡ step_of program.now c.now machine bits }
{
    let mut flat = Flat::new();
    laying::lay(c, &mut flat);
    let outcome = step_laid(program, &mut flat, machine, bits);
    let config = lifting::lift(&flat);
    Stepped { config, outcome }
}

// The step of anything that is lent: 20, then what the definitions say.
pub fn step_from(program: &Program, c: &Config, machine: Live, bits: u8) -> Stepped
    ensures { result ≡ step_of program.now c.now machine bits }
{
    if !soundly::sound(program) {
        return Stepped {
            config: *c,
            outcome: Err(Answer::NotAccepted),
        };
    }
    step_sound(program, c, machine, bits)
}

// The step of anything that is handed in.
pub fn step(program: Program, c: Config, machine: Live, bits: u8) -> Stepped
    ensures { result ≡ step_of program c machine bits }
{
    step_from(&program, &c, machine, bits)
}
