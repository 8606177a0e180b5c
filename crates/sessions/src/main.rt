// Every text of sessions/ through the two functions that the programs call: an argument is the name of a text, NAME.txt is run and regrouped, and what is
// written is compared with NAME.run and NAME.regroup, byte for byte. A line for each file that differs or cannot be read whole, and a last line that counts.
#![tactic(auto)]

mod files;

use files::read_file;
use std::io::Write;
use std::rt::{Env, Files};
use std::{env, io};
use tables::Program;
use telling::OUTPUT;

// An argument that is longer than this names no text.
const NAME: usize = 4096;

// Whether a text's run and its regrouping are as recorded.
#[derive(Clone, Copy)]
struct Found {
    run: bool,
    regrouping: bool,
}

// A line about a file.
fn tell(rt: &impl Print, what: &[u8], name: &[u8], ending: &[u8]) -> io::Result<()> {
    let mut out = io::writer(rt);
    out.write_all(what)?;
    out.write_all(name)?;
    out.write_all(ending)?;
    out.write_all(b"\n")
}

// Whether an output is what the file holds; a line where it is not.
fn as_recorded(
    rt: &(impl Files + Print),
    name: &[u8],
    ending: &[u8],
    output: &[u8],
) -> io::Result<bool> {
    let mut recorded = [0u8; OUTPUT];
    let Some(size) = read_file(rt, name, ending, &mut recorded) else {
        tell(rt, b"cannot be read: ", name, ending)?;
        return Ok(false);
    };
    let is_same = &recorded[..size] == output;
    if !is_same {
        tell(rt, b"differs: ", name, ending)?;
    }
    Ok(is_same)
}

// The run of a text. Neither this nor the regrouping is inlined, so that the stack holds what one of them needs and not both.
#[inline(never)]
fn run_as_recorded(rt: &(impl Files + Print), name: &[u8], text: &[u8]) -> io::Result<bool> {
    let mut out = [0u8; OUTPUT];
    let size = run_text::run_text(text, &mut out);
    as_recorded(rt, name, b".run", &out[..size])
}

// The regrouping of a text.
#[inline(never)]
fn regrouping_as_recorded(rt: &(impl Files + Print), name: &[u8], text: &[u8]) -> io::Result<bool> {
    let mut out = [0u8; OUTPUT];
    let size = regroup_text::regroup_text(text, &mut out);
    as_recorded(rt, name, b".regroup", &out[..size])
}

// The text of this name, run and regrouped.
fn compare(rt: &(impl Files + Print), name: &[u8]) -> io::Result<Found> {
    let mut text = [0u8; Program::TEXT + 1];
    let Some(size) = read_file(rt, name, b".txt", &mut text) else {
        tell(rt, b"cannot be read: ", name, b".txt")?;
        return Ok(Found {
            run: false,
            regrouping: false,
        });
    };
    let run = run_as_recorded(rt, name, &text[..size])?;
    let regrouping = regrouping_as_recorded(rt, name, &text[..size])?;
    Ok(Found { run, regrouping })
}

// The text that an argument names. An argument that is too long is the empty name.
fn compare_argument(rt: &(impl Files + Print), argument: &str) -> io::Result<Found> {
    let name = argument.as_bytes();
    if NAME < name.len() {
        return compare(rt, b"");
    }
    compare(rt, name)
}

// The last line.
fn tell_counts(rt: &impl Print, texts: u64, runs: u64, regroupings: u64) -> io::Result<()> {
    println!(rt; "{texts} texts: {runs} runs and {regroupings} regroupings as recorded")
}

// The texts that the arguments name, and the last line.
fn compare_all(rt: &(impl Env + Files + Print + AllocGlobal)) -> io::Result<()> {
    let mut texts: u64 = 0;
    let mut runs: u64 = 0;
    let mut regroupings: u64 = 0;
    for argument in env::args(rt)?.skip(1) {
        let found = compare_argument(rt, argument.as_str())?;
        texts = texts.saturating_add(1);
        runs = runs.saturating_add(u64::from(found.run));
        regroupings = regroupings.saturating_add(u64::from(found.regrouping));
    }
    tell_counts(rt, texts, runs, regroupings)
}

fn main(rt: HostRuntime) -> io::Result<()> {
    compare_all(&rt)
}
