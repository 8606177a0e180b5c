// The run over a configuration that is lent: the program is read where it lies, the configuration is changed where it lies.
#![tactic(auto)]

ghost use Rattle.std.specs.Prelude.{◌≡◌};
ghost use Rattle.handed_runs.specs.HandedRuns.{run_of, rules_of, fronted};

use configs::Config;
use handed_runs::Ending;
use tables::Program;

// How the run ended is answered, the configuration becomes the run's last, and the numbers of its rules are written from the front of the row that is lent. A run
// that is stopped before its first choice leaves both as they were.
pub fn run_in(
    program: &Program,
    c: &mut Config,
    choices: &[u32],
    rules: &mut [u8; Program::CHOICES],
) -> Ending
    ensures { (result ≡ (run_of program.now c.old choices.now).end) × ((c.new ≡ (run_of program.now c.old choices.now).config) × (rules.new ≡ fronted (rules_of program.now c.old choices.now) rules.old)) }
{
    let r = running::run_from(program, c, choices, rules);
    *c = r.config;
    r.end
}
