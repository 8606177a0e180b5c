// THE START: what a program begins with, one machine of the start's kind in the first room. What it is stands in specs/Started.antt.
#![tactic(auto)]

ghost use Rattle.std.specs.Prelude.{◌≡◌};
ghost use Rattle.soundness.specs.Sound.{Sound};
ghost use Rattle.rules.specs.Step.{start_config};
ghost use Rattle.tables.specs.Decode.{program_of};
ghost use Rattle.configs.specs.Encode.{written};
ghost use Rattle.starting.specs.Started.{no_machine, start_of, beginning_of};

use answers::Answer;
use configs::{Config, Flat, Room};
use tables::Program;
use values::{Live, Value};

// The configuration of no machine.
pub fn no_machine() -> Config
    ensures { result ≡ written no_machine }
{
    Config {
        next: 1,
        rooms: [Room::free(); Program::ROOMS],
    }
}

// The start configuration of a sound program: machine 1 is laid into the first room of the engine's arrays, as any new machine is, and lifted out of them.
fn start_sound(program: &Program) -> Config
    requires { Sound (program_of program.now) }
    ensures { result ≡ written (start_config (program_of program.now)) }
{
    let kind = program.start.0;
    let state = beginnings::initial_state(&program.state_of, kind);
    let entry = tables::entry_of(&program.state_of, &program.state_entry, state);
    let mut own: [u64; Program::VARIABLES + 3] = [0; Program::VARIABLES + 3];
    own[Program::THIS] = codes::code(Value::Id(Live(1)));
    let mut flat = Flat::new();
    creating::lay_new(
        &program.stmts,
        &mut flat.ids,
        &mut flat.kinds,
        &mut flat.depths,
        &mut flat.states,
        &mut flat.values,
        &mut flat.counts,
        &mut flat.parts,
        0,
        1,
        kind,
        state as u8,
        own,
        entry,
    );
    flat.next = 2;
    lifting::lift(&flat)
}

// THE START of anything: 20 where the program is not sound, else its start configuration.
pub fn start(program: &Program) -> Result<Config, Answer>
    ensures { result ≡ beginning_of (start_of program.now) }
{
    if !soundly::sound(program) {
        return Err(Answer::NotAccepted);
    }
    Ok(start_sound(program))
}
