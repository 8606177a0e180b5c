// A RUN of the engine: choice by choice over the arrays that hold a configuration, until one is refused.
#![tactic(auto)]

ghost use Rattle.std.specs.Prelude.{◌≤◌, ◌≡◌, length};
ghost use Rattle.looping.specs.Looping.{RunAskedOf, RunLeft, ended_with};

use answers::Answer;
use configs::Flat;
use engine::Outcome;
use handed_runs::Ending;
use index::Index;
use tables::Program;

// How a run ended that stopped with an answer, or with 0, after so many steps.
fn ending(answer: Answer, steps: usize) -> Ending
    requires { steps ≤ 4096 }
    ensures { result ≡ ended_with answer steps }
{
    Ending {
        answer,
        place: if answer == Answer::Done { 0 } else { steps + 1 },
        steps,
    }
}

// The run of the choices. The number of each step's rule is written into `rules`, from its front; what stands behind them stays as it was. It costs what its steps
// cost: nothing is copied for a choice.
pub fn run_on(
    program: &Program,
    index: &Index,
    flat: &mut Flat,
    choices: &[u32],
    rules: &mut [u8; Program::CHOICES],
) -> Ending
    requires { RunAskedOf program.now index.now flat.old choices.now rules.old }
    ensures { (a : RunAskedOf program.now index.now flat.old choices.now rules.old) → RunLeft a.p a.c choices.now (length choices.now) rules.old result flat.new rules.new }
{
    for (k, &x) in choices.iter().enumerate() {
        let machine = choices::machine_of(x);
        let bits = u64::from(choices::bits_of(x));
        match dispatch::step_on(program, index, flat, machine.0, bits) {
            Ok(rule) => rules[k] = labels::rule_number(rule),
            Err(answer) => return ending(answer, k),
        }
    }
    ending(Answer::Done, choices.len())
}
