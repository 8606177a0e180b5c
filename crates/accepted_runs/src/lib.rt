// A run of a sound program, given whole, from an accepted configuration that lies in the engine's arrays. The public run and the regrouper call it.
#![tactic(auto)]

ghost use Rattle.std.specs.Prelude.{length};
ghost use Rattle.tables.specs.Decode.{program_of};
ghost use Rattle.configs.specs.Flat.{flat_config};
ghost use Rattle.looping.specs.Looping.{RunLeft};
ghost use Rattle.accepted_runs.specs.AcceptedRuns.{AcceptedAsked};

use configs::Flat;
use handed_runs::Ending;
use index::Index;
use tables::Program;

// The run of the choices. What a step looks up is worked out of the program once; then it costs what its steps cost.
pub fn run_accepted(
    program: &Program,
    flat: &mut Flat,
    choices: &[u32],
    rules: &mut [u8; Program::CHOICES],
) -> Ending
    requires { AcceptedAsked program.now flat.old choices.now (length choices.now) rules.old }
    ensures { RunLeft (program_of program.now) (flat_config (program_of program.now) flat.old) choices.now (length choices.now) rules.old result flat.new rules.new }
{
    let index = Index::of(program);
    looping::run_on(program, &index, flat, choices, rules)
}
