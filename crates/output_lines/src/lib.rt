// The lines that the two programs write, each into a lent buffer from a place on; each function answers the place behind what it wrote.
// stays: no plainer: places in a lent buffer, as crates/writing has them
#![tactic(auto)]

ghost use Rattle.std.specs.Prelude.{◌≡◌};
ghost use Rattle.texts.specs.Bytes.{bytes};
ghost use Rattle.choices.specs.Choices.{choice_of};
ghost use Rattle.outputs.specs.Lines.{rule_name};
ghost use Rattle.outputs.specs.Programs.{refusal, choice_line};
ghost use Rattle.writing.specs.Wrote.{Room, Wrote};
ghost use Rattle.output_lines.specs.Names.{name_of};
ghost use Rattle.output_lines.specs.OutputLines.{step_line, ending, answer_line};

use answers::Answer;
use rules::Rule;

// The name of a rule.
// stays: no plainer: a Display would give the same arms to a Formatter, and here bytes go into a lent buffer
fn name(rule: Rule) -> &'static [u8]
    ensures { result.now ≡ bytes (rule_name rule) }
{
    match rule {
        Rule::ASSIGN => b"ASSIGN",
        Rule::NEW => b"NEW",
        Rule::DELETE => b"DELETE",
        Rule::ASSERT => b"ASSERT",
        Rule::SEQ => b"SEQ",
        Rule::IF => b"IF",
        Rule::WHILE => b"WHILE",
        Rule::SEND => b"SEND",
        Rule::RAISE => b"RAISE",
        Rule::LEAVE => b"LEAVE",
        Rule::RETURN => b"RETURN",
        Rule::DEQUEUE => b"DEQUEUE",
        Rule::STEP => b"STEP",
        Rule::ACTION => b"ACTION",
        Rule::CALL => b"CALL",
        Rule::POP1 => b"POP1",
        Rule::POP2 => b"POP2",
    }
}

// The name of the rule with this number; any other number stands for the last rule.
pub fn write_rule(out: &mut [u8], at: usize, rule: u8) -> usize
    requires { Room (name_of rule) at out.old }
    ensures { Wrote (name_of rule) at out.old result out.new }
{
    writing::write_word(out, at, name(labels::rule_of(rule)))
}

// `n=1 machine=1 rule=ASSIGN`
pub fn write_step(out: &mut [u8], at: usize, n: usize, choice: u32, rule: u8) -> usize
    requires { Room (step_line n choice rule) at out.old }
    ensures { Wrote (step_line n choice rule) at out.old result out.new }
{
    let machine = choices::machine_of(choice).0 as usize;
    let second = writing::write_field(out, at, b"n=", n);
    let third = writing::write_field(out, second, b" machine=", machine);
    let name = writing::write_word(out, third, b" rule=");
    let last = write_rule(out, name, rule);
    writing::write_byte(out, last, b'\n')
}

// `end=0 steps=6 live=1`
pub fn write_ending(out: &mut [u8], at: usize, answer: Answer, steps: usize, live: usize) -> usize
    requires { Room (ending answer steps live) at out.old }
    ensures { Wrote (ending answer steps live) at out.old result out.new }
{
    let number = usize::from(numbers::number(answer));
    let second = writing::write_field(out, at, b"end=", number);
    let third = writing::write_field(out, second, b" steps=", steps);
    writing::write_last(out, third, b" live=", live)
}

// `end=4 line=7`
pub fn write_refusal(out: &mut [u8], at: usize, answer: Answer, line: usize) -> usize
    requires { Room (refusal answer line) at out.old }
    ensures { Wrote (refusal answer line) at out.old result out.new }
{
    let number = usize::from(numbers::number(answer));
    let second = writing::write_field(out, at, b"end=", number);
    writing::write_last(out, second, b" line=", line)
}

// `choice=1 bits=0`
pub fn write_choice(out: &mut [u8], at: usize, choice: u32) -> usize
    requires { Room (choice_line (choice_of choice)) at out.old }
    ensures { Wrote (choice_line (choice_of choice)) at out.old result out.new }
{
    let machine = choices::machine_of(choice).0 as usize;
    let bits = usize::from(choices::bits_of(choice));
    let second = writing::write_field(out, at, b"choice=", machine);
    writing::write_last(out, second, b" bits=", bits)
}

// `end=0`
pub fn write_answer(out: &mut [u8], at: usize, answer: Answer) -> usize
    requires { Room (answer_line answer) at out.old }
    ensures { Wrote (answer_line answer) at out.old result out.new }
{
    let number = usize::from(numbers::number(answer));
    writing::write_last(out, at, b"end=", number)
}
