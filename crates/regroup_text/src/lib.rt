// THE REGROUP PROGRAM as a function of the bytes read: the text is loaded and its choices are regrouped from the start configuration; what is written stands in
// crates/outputs.
#![tactic(auto)]

ghost use Rattle.std.specs.Prelude.{◌≡◌, List, ℕ, Ok, length};
ghost use Rattle.texts.specs.Answered.{answered};
ghost use Rattle.handed_out.specs.Starts.{started, starts_as};
ghost use Rattle.outputs.specs.Programs.{regroup_program};
ghost use Rattle.handed_runs.specs.HandedRuns.{fronted};

use answers::Answer;
use configs::Config;
use gathering::Lines;
use tables::Program;
use telling::OUTPUT;

// What it writes of a text that is loaded and started. Not inlined, so that what a regrouping needs of the stack is not there while a text is loaded.
#[inline(never)]
fn regroup_started(lines: &Lines, config: &Config, out: &mut [u8; OUTPUT]) -> usize
    requires { (text : List ℕ) × (Ok (started lines.now config.now) ≡ starts_as (answered text)) }
    ensures { (text : List ℕ) → Ok (started lines.now config.now) ≡ starts_as (answered text) → (result ≡ length (regroup_program text)) × (out.new ≡ fronted (regroup_program text) out.old) }
{
    let choices = &lines.choices[..lines.count];
    let mut list: [u32; Program::CHOICES] = [0; Program::CHOICES];
    if let Err(answer) = grouping::regroup(lines.program, *config, choices, &mut list) {
        return output_lines::write_answer(out, 0, answer);
    }
    let regrouped = &list[..lines.count];
    let place = telling::tell_choices(out, 0, regrouped);
    output_lines::write_answer(out, place, Answer::Done)
}

// What the regroup program writes of any bytes, from the front of the buffer on; and how many bytes that is.
pub fn regroup_text(text: &[u8], out: &mut [u8; OUTPUT]) -> usize
    ensures { (result ≡ length (regroup_program text.now)) × (out.new ≡ fronted (regroup_program text.now) out.old) }
{
    let mut lines = Lines::new();
    match handed_out::start_in(text, &mut lines) {
        Ok(config) => regroup_started(&lines, &config, out),
        Err(refusal) => output_lines::write_refusal(out, 0, refusal.answer, refusal.line),
    }
}
