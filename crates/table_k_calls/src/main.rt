// Table K of document 01 as calls of the code, a line for each row: a value; or a step's rule with the event that `msg` is and the first events that wait; or
// an answer; or, for K12, the regrouped list, each choice with its machine and its place in the list before.
#![tactic(auto)]

use answers::Answer;
use codes::EVENT;
use configs::{Config, Room};
use engine::Outcome;
use numbers::number;
use rules::Rule;
use std::{array, io};
use tables::{Kind, Program};
use values::{Binary, Live, Unary, Value};

// The number of the int 0.
const INT_ZERO: u64 = 10737418240;

// Writes a number of up to three digits.
fn write_number(rt: &impl Print, n: u64) -> io::Result<()> {
    let m = n % 1000;
    print!(rt; "{m}")
}

// Writes a row's name.
fn write_row(rt: &impl Print, k: u64) -> io::Result<()> {
    rt.print("K")?;
    write_number(rt, k)?;
    rt.print(" ")
}

// A row whose call gives a value.
fn value_row(rt: &impl Print, k: u64, v: Value) -> io::Result<()> {
    write_row(rt, k)?;
    match v {
        Value::Undefined => { rt.print("undefined\n") }
        Value::Bool(_) => { rt.print("bool\n") }
        Value::Int(z) => {
            if z == i32::MAX {
                rt.print("2147483647\n")
            } else {
                rt.print("int\n")
            }
        }
        Value::Event(_) => { rt.print("event\n") }
        Value::Id(_) => { rt.print("id\n") }
    }
}

// The rules that the table names.
fn write_rule(rt: &impl Print, rule: Rule) -> io::Result<()> {
    match rule {
        Rule::DEQUEUE => { rt.print("DEQUEUE") }
        Rule::POP1 => { rt.print("POP1") }
        Rule::SEND => { rt.print("SEND") }
        _ => { rt.print("another rule") }
    }
}

// A row whose call is a step of machine 1.
fn step_row(rt: &impl Print, k: u64, program: Program, c: Config) -> io::Result<()> {
    write_row(rt, k)?;
    let stepped = stepping::step(program, c, Live(1), 0);
    match stepped.outcome {
        Ok(rule) => {
            write_rule(rt, rule)?;
            let m = stepped.config.rooms[0];
            rt.print(" msg=")?;
            write_number(rt, m.values[Program::MSG] % 4294967296)?;
            rt.print(" waiting=")?;
            write_number(rt, m.waiting as u64)?;
            rt.print(" first=")?;
            write_number(rt, m.pairs[0] / EVENT)?;
            rt.print(" last=")?;
            write_number(rt, m.pairs[15] % EVENT % 4294967296 % 2147483648)?;
        }
        Err(a) => {
            rt.print("answer ")?;
            write_number(rt, u64::from(number(a)))?;
        }
    }
    rt.print("\n")
}

// Machine 1 in state 1, waiting, its queue empty.
fn waiting_machine() -> Room {
    let mut m = Room::free();
    m.this = Live(1);
    m.kind = Kind(1);
    m.depth = 1;
    m.states[0] = 1;
    m.values[Program::THIS] = codes::code(Value::Id(Live(1)));
    m
}

// The configuration with machine m in its first room.
fn config(m: Room) -> Config {
    let mut rooms = [Room::free(); Program::ROOMS];
    rooms[0] = m;
    Config { next: 2, rooms }
}

// Two events of type int, one kind with one state that says nothing.
fn program() -> Program {
    let mut event_types = [0; Program::EVENTS + 1];
    event_types[0] = 2;
    event_types[1] = 2;
    event_types[2] = 2;
    let mut state_of = [0; Program::STATES + 1];
    state_of[0] = 1;
    state_of[1] = 1;
    Program {
        event_types,
        kinds: 1,
        variable_of: [0; Program::ALL_VARIABLES + 1],
        variable_type: [0; Program::ALL_VARIABLES + 1],
        exprs: [0; 3 * (Program::EXPRESSIONS + 1)],
        stmts: [0; 5 * (Program::STATEMENTS + 1)],
        inits: [0; 2 * Program::PAIRS],
        action_of: [0; Program::ACTIONS + 1],
        action_body: [0; Program::ACTIONS + 1],
        state_of,
        state_entry: [0; Program::STATES + 1],
        state_exit: [0; Program::STATES + 1],
        defers: [0; (Program::STATES + 1) * (Program::EVENTS + 1)],
        moves: [0; 3 * Program::MOVES],
        steps: 0,
        calls: 0,
        acts: 0,
        start: Kind(1),
    }
}

// The state defers event 2.
fn deferring() -> Program {
    let mut p = program();
    p.defers[Program::EVENTS + 3] = 1;
    p
}

// The same with a step on 2.
fn stepping_on_2() -> Program {
    let mut p = deferring();
    p.moves[0] = 1;
    p.moves[1] = 2;
    p.moves[2] = 1;
    p.steps = 1;
    p
}

// The entry statement sends event 1 with the int n to the machine itself.
fn sending(n: u32) -> Program {
    let mut p = program();
    p.exprs[0] = 2;
    p.exprs[3] = 4;
    p.exprs[6] = 1;
    p.exprs[7] = n % 1000 + 2147483648;
    p.stmts[0] = 1;
    p.stmts[5] = 4;
    p.stmts[6] = 1;
    p.stmts[7] = 1;
    p.stmts[8] = 2;
    p.state_entry[1] = 1;
    p
}

// The queue 2,1.
fn two_waiting() -> Config {
    let mut m = waiting_machine();
    m.waiting = 2;
    m.pairs[0] = 2 * EVENT;
    m.pairs[1] = EVENT;
    config(m)
}

// The map defers 2, and 2 waits; `held` is pending.
fn map_deferring(held: u64) -> Config {
    let mut m = waiting_machine();
    m.maps[1] = 255;
    m.waiting = 1;
    m.pairs[0] = 2 * EVENT;
    m.held = held;
    config(m)
}

// A queue of 16: event 1 with the ints 0 to 15; the row is statement 1.
fn full_queue() -> Config {
    let mut m = waiting_machine();
    m.count = 1;
    m.parts[0] = 1;
    m.waiting = 16;
    m.pairs = array::from_fn(|n| EVENT + INT_ZERO + n as u64);
    config(m)
}

// Machine `number` with its row: skips, the send of statement 1, and a skip behind it.
fn working_machine(number: u32, count: usize) -> Room {
    let mut m = waiting_machine();
    m.this = Live(number);
    m.values[Program::THIS] = codes::code(Value::Id(Live(number)));
    m.count = count;
    m.parts[1] = 1;
    m
}

// Machine 1, which takes two private steps, a meeting and a private step; machine 2, which takes one, a meeting and one.
fn two_working() -> Config {
    let mut c = config(working_machine(1, 4));
    c.rooms[1] = working_machine(2, 3);
    c.next = 3;
    c
}

// Writes a choice's machine and bits.
fn write_choice(rt: &impl Print, x: u32) -> io::Result<()> {
    rt.print(" ")?;
    write_number(rt, u64::from(choices::machine_of(x).0))?;
    rt.print(":")?;
    write_number(rt, u64::from(choices::bits_of(x)))
}

// A row whose call gives a regrouped list.
fn regroup_row(rt: &impl Print, k: u64, program: Program, c: Config) -> io::Result<()> {
    write_row(rt, k)?;
    let list: [u32; 7] = [257, 514, 259, 516, 261, 518, 263];
    let mut out: [u32; 7] = [0; 7];
    let answer = match grouping::regroup(program, c, &list, &mut out) {
        Ok(()) => Answer::Done,
        Err(answer) => answer,
    };
    rt.print("answer ")?;
    write_number(rt, u64::from(number(answer)))?;
    for choice in out {
        write_choice(rt, choice)?;
    }
    rt.print("\n")
}

// The table, row by row.
fn table(rt: &impl Print) -> io::Result<()> {
    value_row(
        rt,
        1,
        values::apply2(Binary::Add, Value::Int(i32::MAX), Value::Int(1)),
    )?;
    value_row(
        rt,
        2,
        values::apply2(Binary::Add, Value::Int(i32::MAX), Value::Int(0)),
    )?;
    value_row(rt, 3, values::apply1(Unary::Neg, Value::Int(i32::MIN)))?;
    value_row(
        rt,
        4,
        values::apply2(Binary::And, Value::Bool(false), Value::Undefined),
    )?;
    value_row(rt, 5, values::apply1(Unary::Not, Value::Undefined))?;
    step_row(rt, 6, deferring(), two_waiting())?;
    step_row(rt, 7, stepping_on_2(), two_waiting())?;
    step_row(rt, 8, program(), map_deferring(0))?;
    step_row(rt, 9, program(), map_deferring(2 * EVENT))?;
    step_row(rt, 10, sending(3), full_queue())?;
    step_row(rt, 11, sending(99), full_queue())?;
    regroup_row(rt, 12, sending(3), two_working())
}

fn main(rt: HostRuntime) -> io::Result<()> {
    table(&rt)
}
