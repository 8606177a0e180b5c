// The static library: an export for each function of crates/exports, under its name and with its clauses. A slice is a pointer and a length.
#![tactic(auto)]

ghost use Rattle.std.specs.Prelude.{◌≡◌, length};
ghost use Rattle.answers.specs.Number.{number};
ghost use Rattle.codes.specs.Codes.{value_of};
ghost use Rattle.tabled.specs.Tabled.{load_of};
ghost use Rattle.handed.specs.Handed.{fit, step_of};
ghost use Rattle.handed_runs.specs.HandedRuns.{run_of, rules_of, regroup_of, numbers_of, fronted};
ghost use Rattle.starting.specs.Started.{start_of};
ghost use Rattle.showing.specs.Shown.{live_of, shown_of};
ghost use Rattle.exports.specs.Exported.{load_numbers, start_numbers, step_numbers, end_numbers};
ghost use Rattle.exports.specs.Read.{fit_number, living_numbers, machine_numbers, value_numbers, pair_numbers};

use configs::Config;
use exports::{
    EndNumbers, LiveNumbers, LoadNumbers, MachineNumbers, PairNumbers, StartNumbers, StepNumbers,
    ValueNumbers,
};
use tables::Program;
use values::Live;

// THE LOADER.
#[unsafe(no_mangle)]
pub extern "C" fn namakviz_load(text: &[u8]) -> LoadNumbers
    ensures { result ≡ load_numbers (load_of text.now) }
{
    exports::namakviz_load(text)
}

// THE START.
#[unsafe(no_mangle)]
pub extern "C" fn namakviz_start(program: Program) -> StartNumbers
    ensures { result ≡ start_numbers (start_of program) }
{
    exports::namakviz_start(program)
}

// THE STEP, in the configuration that is lent.
#[unsafe(no_mangle)]
pub extern "C" fn namakviz_step(
    program: &Program,
    c: &mut Config,
    machine: Live,
    bits: u8,
) -> StepNumbers
    ensures { (result ≡ step_numbers (step_of program.now c.old machine bits).outcome) × (c.new ≡ (step_of program.now c.old machine bits).config) }
{
    exports::namakviz_step(program, c, machine, bits)
}

// THE RUN, in the configuration that is lent; the numbers of its rules are written from the front of the row.
#[unsafe(no_mangle)]
pub extern "C" fn namakviz_run(
    program: &Program,
    c: &mut Config,
    choices: &[u32],
    rules: &mut [u8; Program::CHOICES],
) -> EndNumbers
    ensures { (result ≡ end_numbers (run_of program.now c.old choices.now).end) × ((c.new ≡ (run_of program.now c.old choices.now).config) × (rules.new ≡ fronted (rules_of program.now c.old choices.now) rules.old)) }
{
    exports::namakviz_run(program, c, choices, rules)
}

// THE REGROUPER: its answer; at 0 the list is written from the front of `out`, else nothing is written.
#[unsafe(no_mangle)]
pub extern "C" fn namakviz_regroup(
    program: Program,
    c: Config,
    choices: &[u32],
    out: &mut [u32],
) -> u8
    ensures { (result ≡ number (regroup_of program c choices.now (length out.old)).answer) × (out.new ≡ fronted (numbers_of (regroup_of program c choices.now (length out.old))) out.old) }
{
    exports::namakviz_regroup(program, c, choices, out)
}

// THE TEST of what is handed in: 0, or 20.
#[unsafe(no_mangle)]
pub extern "C" fn namakviz_fit(program: Program, c: Config) -> u8
    ensures { result ≡ fit_number (fit program c) }
{
    exports::namakviz_fit(program, c)
}

// THE MACHINES THAT LIVE.
#[unsafe(no_mangle)]
pub extern "C" fn namakviz_live(program: Program, c: Config) -> LiveNumbers
    ensures { result ≡ living_numbers (live_of program c) }
{
    exports::namakviz_live(program, c)
}

// ONE MACHINE.
#[unsafe(no_mangle)]
pub extern "C" fn namakviz_machine(program: Program, c: Config, machine: Live) -> MachineNumbers
    ensures { result ≡ machine_numbers (shown_of program c machine) }
{
    exports::namakviz_machine(program, c, machine)
}

// THE VALUE that a number is: any number is one.
#[unsafe(no_mangle)]
pub extern "C" fn namakviz_value(x: u64) -> ValueNumbers
    ensures { result ≡ value_numbers (value_of x) }
{
    exports::namakviz_value(x)
}

// THE PAIR that a number is: any number is one.
#[unsafe(no_mangle)]
pub extern "C" fn namakviz_pair(x: u64) -> PairNumbers
    ensures { result ≡ pair_numbers x }
{
    exports::namakviz_pair(x)
}
