// THE RUN BY VALUE: the program and the configuration that are handed in are tested (answer 20), then the length of the lent list (answer 3); then the
// configuration is laid into the engine's arrays, the choices are run one by one, and it is lifted out of them.
#![tactic(auto)]

ghost use Rattle.std.specs.Prelude.{◌≡◌};
ghost use Rattle.soundness.specs.Sound.{Sound};
ghost use Rattle.tables.specs.Decode.{program_of};
ghost use Rattle.handed_runs.specs.HandedRuns.{run_of, rules_of, fronted};
ghost use Rattle.running.specs.Running.{RunLaid, Left, stopped_with, RanAs};

use answers::Answer;
use configs::{Config, Flat};
use handed_runs::{Ending, Ran};
use tables::Program;

// A run that is stopped before its first choice.
fn stopped(answer: Answer) -> Ending
    ensures { result ≡ stopped_with answer }
{
    Ending {
        answer,
        place: 0,
        steps: 0,
    }
}

// The run from the configuration that lies in the engine's arrays, by a sound program: 20 where it is not one, then 3.
fn run_laid(
    program: &Program,
    flat: &mut Flat,
    choices: &[u32],
    rules: &mut [u8; Program::CHOICES],
) -> Ending
    requires { RunLaid program.now flat.old rules.old }
    ensures { Left program.now flat.old choices.now rules.old result flat.new rules.new }
{
    if !admitting::admitted(program, flat) {
        return stopped(Answer::NotAccepted);
    }
    if Program::CHOICES < choices.len() {
        return stopped(Answer::OutOfRange);
    }
    accepted_runs::run_accepted(program, flat, choices, rules)
}

// The run of a sound program.
fn run_sound(
    program: &Program,
    c: &Config,
    choices: &[u32],
    rules: &mut [u8; Program::CHOICES],
) -> Ran
    requires { Sound (program_of program.now) }
    ensures { RanAs program.now c.now choices.now rules.old result rules.new }
{
    let mut flat = Flat::new();
    laying::lay(c, &mut flat);
    let end = run_laid(program, &mut flat, choices, rules);
    let config = lifting::lift(&flat);
    Ran { config, end }
}

// The run of anything that is lent: 20, then 3, both before the first choice and with place 0; then choice by choice, until one is refused. The number of each step's
// rule is written into `rules`, from its front; what stands behind them stays as it was. Beside the one test and the laying out it costs what its steps cost: nothing
// is copied for a choice.
pub fn run_from(
    program: &Program,
    c: &Config,
    choices: &[u32],
    rules: &mut [u8; Program::CHOICES],
) -> Ran
    ensures { (result ≡ run_of program.now c.now choices.now) × (rules.new ≡ fronted (rules_of program.now c.now choices.now) rules.old) }
{
    if !soundly::sound(program) {
        return Ran {
            config: *c,
            end: stopped(Answer::NotAccepted),
        };
    }
    run_sound(program, c, choices, rules)
}

// The run of anything that is handed in.
pub fn run(program: Program, c: Config, choices: &[u32], rules: &mut [u8; Program::CHOICES]) -> Ran
    ensures { (result ≡ run_of program c choices.now) × (rules.new ≡ fronted (rules_of program c choices.now) rules.old) }
{
    run_from(&program, &c, choices, rules)
}
