// THE REGROUPER: 20, 3, 21 and 22 in that order, and nothing is written; else the regrouped list is written from the front of the lent buffer. The configuration is
// handed in by value and stays the caller's: the choices before the last are run on a copy of it, for their rules.
#![tactic(auto)]

ghost use Rattle.std.specs.Prelude.{◌≡◌, length};
ghost use Rattle.answers.specs.declared.Answer.{Answer};
ghost use Rattle.soundness.specs.Sound.{Sound};
ghost use Rattle.tables.specs.Decode.{program_of};
ghost use Rattle.configs.specs.Flat.{held};
ghost use Rattle.admitting.specs.Admitting.{Laid};
ghost use Rattle.handed_runs.specs.HandedRuns.{fronted, regroup_of, numbers_of};
ghost use Rattle.grouping.specs.Grouping.{GroupedAs, refusal_of};

use answers::Answer;
use configs::{Config, Flat};
use tables::Program;

// The regrouping from the configuration that lies in the engine's arrays, by a sound program. The choices before the last are run there.
fn regroup_laid(
    program: &Program,
    flat: &mut Flat,
    choices: &[u32],
    out: &mut [u32],
) -> Result<(), Answer>
    requires { Laid program.now flat.old }
    ensures { GroupedAs program.now (held flat.old) choices.now out.old result out.new }
{
    if !admitting::admitted(program, flat) {
        return Err(Answer::NotAccepted);
    }
    let n = choices.len();
    if Program::CHOICES < n {
        return Err(Answer::OutOfRange);
    }
    if out.len() < n {
        return Err(Answer::BufferTooShort);
    }
    if n == 0 {
        return Ok(());
    }
    let mut rules: [u8; Program::CHOICES] = [0; Program::CHOICES];
    let end = accepted_runs::run_accepted(program, flat, &choices[..n - 1], &mut rules);
    if end.steps != n - 1 {
        return Err(Answer::TookNoStep);
    }
    placing::place(choices, &rules, out);
    Ok(())
}

// The regrouping by a sound program.
fn regroup_sound(
    program: &Program,
    c: &Config,
    choices: &[u32],
    out: &mut [u32],
) -> Result<(), Answer>
    requires { Sound (program_of program.now) }
    ensures { GroupedAs program.now c.now choices.now out.old result out.new }
{
    let mut flat = Flat::new();
    laying::lay(c, &mut flat);
    regroup_laid(program, &mut flat, choices, out)
}

// The regrouping of anything. It costs the run of the choices and, for placing them, at most choices times live machines.
pub fn regroup(program: Program, c: Config, choices: &[u32], out: &mut [u32]) -> Result<(), Answer>
    ensures { (result ≡ refusal_of (regroup_of program c choices.now (length out.old)).answer) × (out.new ≡ fronted (numbers_of (regroup_of program c choices.now (length out.old))) out.old) }
{
    if !soundly::sound(&program) {
        return Err(Answer::NotAccepted);
    }
    regroup_sound(&program, &c, choices, out)
}
