// The regroup program: the text on standard input is loaded and its choices are regrouped, and the lines go to standard output. One byte more than a text may
// have is read, so that a longer one is seen; what stands behind that byte changes nothing and is not read.
#![tactic(auto)]

use std::io;
use std::io::Write;
use tables::Program;
use telling::OUTPUT;

fn main(rt: HostRuntime) -> io::Result<()> {
    let mut text = [0u8; Program::TEXT + 1];
    let read = input::read_full(&mut rt.stdin(), &mut text)?;
    let mut out = [0u8; OUTPUT];
    let size = regroup_text::regroup_text(&text[..read], &mut out);
    rt.stdout().write_all(&out[..size])
}
