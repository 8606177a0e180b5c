// What a program in Rust or C is given of the runtime, over the static library of crates/exports_c. Each function passes on what it is handed, asks nothing, and answers in numbers: those that document 01 gives the answers, and those that crates/labels gives the
// rules. The configuration is held by the caller, who lends it for a step and for a run. Other functions read it: which machines live, one machine, a value, a pair.
#![tactic(auto)]

ghost use Rattle.std.specs.Prelude.{◌≡◌, length};
ghost use Rattle.answers.specs.Number.{number};
ghost use Rattle.codes.specs.Codes.{value_of};
ghost use Rattle.texts.specs.Reading.{refused};
ghost use Rattle.tabled.specs.Tabled.{loaded_as, load_of};
ghost use Rattle.handed.specs.Handed.{fit, step_of};
ghost use Rattle.handed_runs.specs.HandedRuns.{run_of, rules_of, regroup_of, numbers_of, fronted};
ghost use Rattle.starting.specs.Started.{start_of};
ghost use Rattle.showing.specs.Shown.{live_of, shown_of};
ghost use Rattle.exports.specs.Exported.{load_numbers, start_numbers, step_numbers, end_numbers};
ghost use Rattle.exports.specs.Read.{fit_number, living_numbers, machine_numbers, value_numbers, pair_numbers};

use answers::Answer;
use configs::Config;
use engine::Outcome;
use gathering::Lines;
use handed_runs::Ending;
use tables::{Kind, Program};
use values::{Live, Value};

// stays: the C interface: what each function answers lies in one of these structs, whose fields C reads: answers, rules and kinds as numbers, counts beside their arrays

// What a text is loaded as.
#[repr(C)]
#[derive(Clone, Copy)]
pub struct LoadNumbers {
    pub program: Program,
    pub choices: [u32; Program::CHOICES],
    pub count: usize,
    pub answer: u8,
    pub line: usize,
}

// What a program starts with.
#[repr(C)]
#[derive(Clone, Copy)]
pub struct StartNumbers {
    pub config: Config,
    pub answer: u8,
}

// A step: its answer, and the number of its rule where that is 0.
#[repr(C)]
#[derive(Clone, Copy)]
pub struct StepNumbers {
    pub answer: u8,
    pub rule: u8,
}

// How a run ended.
#[repr(C)]
#[derive(Clone, Copy)]
pub struct EndNumbers {
    pub answer: u8,
    pub place: usize,
    pub steps: usize,
}

// Which machines live: how many, and their live numbers, by room.
#[repr(C)]
#[derive(Clone, Copy)]
pub struct LiveNumbers {
    pub answer: u8,
    pub count: usize,
    pub machines: [u32; Program::ROOMS],
}

// One machine: its kind, the depth of its stack and the state on top, its variables' values, the pairs that wait in its queue.
#[repr(C)]
#[derive(Clone, Copy)]
pub struct MachineNumbers {
    pub answer: u8,
    pub kind: Kind,
    pub depth: usize,
    pub state: u8,
    pub variables: usize,
    pub values: [u64; Program::VARIABLES],
    pub waiting: usize,
    pub pairs: [u64; Program::QUEUE],
}

// A value: 0 undefined, 1 a bool, 2 an int, 3 an event, 4 an id; and what it holds.
#[repr(C)]
#[derive(Clone, Copy)]
pub struct ValueNumbers {
    pub kind: u8,
    pub number: i64,
}

// A pair: its event, and the number of its value.
#[repr(C)]
#[derive(Clone, Copy)]
pub struct PairNumbers {
    pub event: u32,
    pub value: u64,
}

// An outcome in numbers.
fn step_numbers(o: Outcome) -> StepNumbers
    ensures { result ≡ step_numbers o }
{
    match o {
        Ok(rule) => StepNumbers {
            answer: 0,
            rule: labels::rule_number(rule),
        },
        Err(a) => StepNumbers {
            answer: numbers::number(a),
            rule: 0,
        },
    }
}

// An ending in numbers.
fn end_numbers(e: Ending) -> EndNumbers
    ensures { result ≡ end_numbers e }
{
    EndNumbers {
        answer: numbers::number(e.answer),
        place: e.place,
        steps: e.steps,
    }
}

// A value in numbers.
fn value_numbers(v: Value) -> ValueNumbers
    ensures { result ≡ value_numbers v }
{
    match v {
        Value::Undefined => ValueNumbers { kind: 0, number: 0 },
        Value::Bool(b) => ValueNumbers {
            kind: 1,
            number: i64::from(b),
        },
        Value::Int(z) => ValueNumbers {
            kind: 2,
            number: i64::from(z),
        },
        Value::Event(e) => ValueNumbers {
            kind: 3,
            number: i64::from(e),
        },
        Value::Id(i) => ValueNumbers {
            kind: 4,
            number: i64::from(i.0),
        },
    }
}

// What a text that is refused is loaded as: the program of no lines, and no choices.
fn nothing_loaded(answer: Answer, line: usize) -> LoadNumbers
    ensures { result ≡ load_numbers (loaded_as (refused answer line)) }
{
    LoadNumbers {
        program: gathering::no_tables(),
        choices: [0; Program::CHOICES],
        count: 0,
        answer: numbers::number(answer),
        line,
    }
}

// THE LOADER.
pub fn namakviz_load(text: &[u8]) -> LoadNumbers
    ensures { result ≡ load_numbers (load_of text.now) }
{
    let mut lines = Lines::new();
    match loading::load_in(text, &mut lines) {
        Ok(()) => LoadNumbers {
            program: lines.program,
            choices: lines.choices,
            count: lines.count,
            answer: 0,
            line: 0,
        },
        Err(refusal) => nothing_loaded(refusal.answer, refusal.line),
    }
}

// THE START.
pub fn namakviz_start(program: Program) -> StartNumbers
    ensures { result ≡ start_numbers (start_of program) }
{
    match starting::start(&program) {
        Ok(config) => StartNumbers { config, answer: 0 },
        Err(a) => StartNumbers {
            config: starting::no_machine(),
            answer: numbers::number(a),
        },
    }
}

// THE STEP, in the configuration that is lent.
pub fn namakviz_step(program: &Program, c: &mut Config, machine: Live, bits: u8) -> StepNumbers
    ensures { (result ≡ step_numbers (step_of program.now c.old machine bits).outcome) × (c.new ≡ (step_of program.now c.old machine bits).config) }
{
    step_numbers(lent::step_in(program, c, machine, bits))
}

// THE RUN, in the configuration that is lent; the numbers of its rules are written from the front of the row.
pub fn namakviz_run(
    program: &Program,
    c: &mut Config,
    choices: &[u32],
    rules: &mut [u8; Program::CHOICES],
) -> EndNumbers
    ensures { (result ≡ end_numbers (run_of program.now c.old choices.now).end) × ((c.new ≡ (run_of program.now c.old choices.now).config) × (rules.new ≡ fronted (rules_of program.now c.old choices.now) rules.old)) }
{
    end_numbers(lent_running::run_in(program, c, choices, rules))
}

// THE REGROUPER: its answer; at 0 the list is written from the front of `out`, else nothing is written.
pub fn namakviz_regroup(program: Program, c: Config, choices: &[u32], out: &mut [u32]) -> u8
    ensures { (result ≡ number (regroup_of program c choices.now (length out.old)).answer) × (out.new ≡ fronted (numbers_of (regroup_of program c choices.now (length out.old))) out.old) }
{
    match grouping::regroup(program, c, choices, out) {
        Ok(()) => 0,
        Err(a) => numbers::number(a),
    }
}

// THE TEST of what is handed in: 0, or 20.
pub fn namakviz_fit(program: Program, c: Config) -> u8
    ensures { result ≡ fit_number (fit program c) }
{
    if !fitting::fit(&program, &c) {
        return numbers::number(Answer::NotAccepted);
    }
    numbers::number(Answer::Done)
}

// THE MACHINES THAT LIVE.
pub fn namakviz_live(program: Program, c: Config) -> LiveNumbers
    ensures { result ≡ living_numbers (live_of program c) }
{
    match showing::live(program, c) {
        Ok(living) => {
            // stays: the proof did not close: the check of loans wants an array that is a field in a local first
            let machines = living.machines;
            LiveNumbers {
                answer: 0,
                count: living.count,
                machines,
            }
        }
        Err(a) => LiveNumbers {
            answer: numbers::number(a),
            count: 0,
            machines: [0; Program::ROOMS],
        },
    }
}

// ONE MACHINE.
pub fn namakviz_machine(program: Program, c: Config, machine: Live) -> MachineNumbers
    ensures { result ≡ machine_numbers (shown_of program c machine) }
{
    match showing::look(program, c, machine) {
        Ok(m) => {
            // stays: the proof did not close: as in namakviz_live
            let values = m.values;
            let pairs = m.pairs;
            MachineNumbers {
                answer: 0,
                kind: m.kind,
                depth: m.depth,
                state: m.state,
                variables: m.variables,
                values,
                waiting: m.waiting,
                pairs,
            }
        }
        Err(a) => MachineNumbers {
            answer: numbers::number(a),
            kind: Kind(0),
            depth: 0,
            state: 0,
            variables: 0,
            values: [0; Program::VARIABLES],
            waiting: 0,
            pairs: [0; Program::QUEUE],
        },
    }
}

// THE VALUE that a number is: any number is one.
pub fn namakviz_value(x: u64) -> ValueNumbers
    ensures { result ≡ value_numbers (value_of x) }
{
    value_numbers(codes::value_of(x))
}

// THE PAIR that a number is: any number is one.
pub fn namakviz_pair(x: u64) -> PairNumbers
    ensures { result ≡ pair_numbers x }
{
    PairNumbers {
        event: codes::event_of(x) as u32,
        value: codes::code(codes::value_of(x % codes::EVENT)),
    }
}
