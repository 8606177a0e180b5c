// The lines of a run's steps and of a list of choices, one for each, written into a lent buffer from a place on; each function answers the place behind them.
// stays: no plainer: places in a lent buffer, as crates/writing has them
#![tactic(auto)]

ghost use Rattle.writing.specs.Wrote.{Room, Wrote};
ghost use Rattle.telling.specs.Rows.{step_rows, choice_rows};

use tables::Program;

// The longest output: a step line of 34 bytes for each choice, `n=4096 machine=65535 rule=DEQUEUE`, and an end line of 26, `end=19 steps=4095 live=32`.
pub const OUTPUT: usize = 34 * Program::CHOICES + 26;

// The lines of the choices that took these rules, one for each rule.
pub fn tell_steps(out: &mut [u8], at: usize, choices: &[u32], rules: &[u8]) -> usize
    requires { Room (step_rows 1 choices.now rules.now) at out.old }
    ensures { Wrote (step_rows 1 choices.now rules.now) at out.old result out.new }
{
    let mut place = at;
    for (k, (&choice, &rule)) in choices.iter().zip(rules).enumerate() {
        place = output_lines::write_step(out, place, k + 1, choice, rule);
    }
    place
}

// The lines of a list of choices.
pub fn tell_choices(out: &mut [u8], at: usize, list: &[u32]) -> usize
    requires { Room (choice_rows list.now) at out.old }
    ensures { Wrote (choice_rows list.now) at out.old result out.new }
{
    let mut place = at;
    for &choice in list {
        place = output_lines::write_choice(out, place, choice);
    }
    place
}
