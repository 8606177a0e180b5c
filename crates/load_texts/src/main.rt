// Loads each text that an argument names, and writes a line for each: its answer and the faulty line. The texts of data/ are generated, and stdout is what the
// second program answers to them (second/loads.py).
#![tactic(auto)]

use std::rt::{Env, Files};
use std::{env, fs, io};
use tables::Program;

// The text that an argument names: its line. A file that cannot be opened or read is an error.
fn load_one(rt: &(impl Files + Print), path: &str) -> io::Result<()> {
    let mut buf = [0u8; Program::TEXT + 1];
    let mut file = fs::open(rt, path)?;
    let n = input::read_full(&mut file, &mut buf)?;
    let (answer, line) = match loading::load(&buf[..n]) {
        Ok(_) => (0, 0),
        Err(refusal) => (numbers::number(refusal.answer), refusal.line),
    };
    println!(rt; "answer={answer} line={line}")
}

// The texts of up to 1,000 arguments.
fn load_all(rt: &(impl Env + Files + Print + AllocGlobal)) -> io::Result<()> {
    for path in env::args(rt)?.skip(1).take(1000) {
        load_one(rt, path.as_str())?;
    }
    Ok(())
}

fn main(rt: HostRuntime) -> io::Result<()> {
    load_all(&rt)
}
