// THE RUN PROGRAM as a function of the bytes read: the text is loaded and its choices are run from the start configuration; what is written stands in
// crates/outputs.
#![tactic(auto)]

ghost use Rattle.std.specs.Prelude.{◌≡◌, List, ℕ, Ok, length};
ghost use Rattle.texts.specs.Answered.{answered};
ghost use Rattle.handed_out.specs.Starts.{started, starts_as};
ghost use Rattle.outputs.specs.Programs.{run_program};
ghost use Rattle.handed_runs.specs.HandedRuns.{fronted};

use configs::Config;
use gathering::Lines;
use tables::Program;
use telling::OUTPUT;

// What it writes of a text that is loaded and started. Not inlined, so that what a run needs of the stack is not there while a text is loaded.
#[inline(never)]
fn run_started(lines: &Lines, config: &Config, out: &mut [u8; OUTPUT]) -> usize
    requires { (text : List ℕ) × (Ok (started lines.now config.now) ≡ starts_as (answered text)) }
    ensures { (text : List ℕ) → Ok (started lines.now config.now) ≡ starts_as (answered text) → (result ≡ length (run_program text)) × (out.new ≡ fronted (run_program text) out.old) }
{
    let choices = &lines.choices[..lines.count];
    let mut rules: [u8; Program::CHOICES] = [0; Program::CHOICES];
    let ran = running::run_from(&lines.program, config, choices, &mut rules);
    let end = ran.end;
    let taken = &rules[..end.steps];
    let place = telling::tell_steps(out, 0, choices, taken);
    let live = living::live_machines(ran.config);
    output_lines::write_ending(out, place, end.answer, end.steps, live)
}

// What the run program writes of any bytes, from the front of the buffer on; and how many bytes that is.
pub fn run_text(text: &[u8], out: &mut [u8; OUTPUT]) -> usize
    ensures { (result ≡ length (run_program text.now)) × (out.new ≡ fronted (run_program text.now) out.old) }
{
    let mut lines = Lines::new();
    match handed_out::start_in(text, &mut lines) {
        Ok(config) => run_started(&lines, &config, out),
        Err(refusal) => output_lines::write_refusal(out, 0, refusal.answer, refusal.line),
    }
}
