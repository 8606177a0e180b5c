// WHAT IS SHOWN OF A CONFIGURATION that is handed in: which machines live in it, and one of them. What that is stands in specs/Shown.antt. All is tested (answer 20).
#![tactic(auto)]

ghost use Rattle.std.specs.Prelude.{◌≡◌, List, ℕ, ◌≤◌, map, Err};
ghost use Rattle.answers.specs.declared.Answer.{Answer};
ghost use Rattle.answers.specs.Number.{number};
ghost use Rattle.lists.specs.Lists.{on_opt};
ghost use Rattle.programs.specs.Program.{Program as Definition};
ghost use Rattle.machines.specs.Rooms.{find};
ghost use Rattle.answers.specs.declared.Answer.TheVariants.{Done, UnableToStep};
ghost use Rattle.tables.specs.Decode.{program_of};
ghost use Rattle.configs.specs.Decode.{down_to, frame_at, machine_of, room_of, config_of};
ghost use Rattle.handed.specs.Handed.{Fit};
ghost use Rattle.showing.specs.Shown.{live_numbers, living, live_of, told_living, top_state, shown, answering, shown_of, told_shown};
ghost use Rattle.showing.specs.Looking.{Stands};

use answers::Answer;
use configs::{Config, Room};
use tables::{Kind, Program};
use values::Live;

// Which machines live: how many, and their live numbers, by room; 0 in the places behind them.
// stays: no heap, fixed memory: an array, and how many of its places are used; so the values and pairs of Shown
#[derive(Clone, Copy)]
pub struct Living {
    pub count: usize,
    pub machines: [u32; Program::ROOMS],
}

// One machine: its kind, the depth of its stack and the state on top, its variables' values, the pairs that wait in its queue. Values and pairs as numbers, 0 in the
// places behind them.
#[derive(Clone, Copy)]
pub struct Shown {
    pub kind: Kind,
    pub depth: usize,
    pub state: u8,
    pub variables: usize,
    pub values: [u64; Program::VARIABLES],
    pub waiting: usize,
    pub pairs: [u64; Program::QUEUE],
}

// The live numbers of a configuration's rooms.
fn gather(rooms: &[Room; Program::ROOMS]) -> Living
    ensures { (p : Definition) → told_living (Ok result) ≡ living Done (live_numbers (map (room_of p) rooms.now)) }
{
    // stays: no plainer: two places move, one of them only at a room that is not free
    let mut machines: [u32; Program::ROOMS] = [0; Program::ROOMS];
    let mut count: usize = 0;
    for room in rooms {
        let this = room.this.0;
        if this != 0 {
            machines[count] = this;
            count += 1;
        }
    }
    Living { count, machines }
}

// THE MACHINES THAT LIVE.
pub fn live(program: Program, c: Config) -> Result<Living, Answer>
    ensures told { told_living result ≡ live_of program c }
    ensures refused { (a : Answer) → result ≡ Err a → number a ≡ 0 → ⊥ }
{
    if !fitting::fit(&program, &c) {
        return Err(Answer::NotAccepted);
    }
    Ok(gather(&c.rooms))
}

// The state on top of a stack, 0 of an empty one.
fn top(depth: usize, states: &[u8; Program::STACK]) -> u8
    requires { depth ≤ 8 }
    ensures { (p : Definition) (maps : List ℕ) → result ≡ top_state (down_to (frame_at p states.now maps) depth) }
{
    if depth == 0 { 0 } else { states[depth - 1] }
}

// The machine that stands in a room.
fn look_in<'a>(program: &'a Program, room: &'a Room) -> Shown
    requires { Stands (program_of program.now) room.now }
    ensures { told_shown (Ok result) ≡ shown (machine_of (program_of program.now) room.now) }
{
    let mut values: [u64; Program::VARIABLES] = [0; Program::VARIABLES];
    values.copy_from_slice(&room.values[..Program::VARIABLES]);
    Shown {
        kind: room.kind,
        depth: room.depth,
        state: top(room.depth, &room.states),
        variables: sizing::variables_of(&program.variable_of, usize::from(room.kind.0)),
        values,
        waiting: room.waiting,
        pairs: room.pairs,
    }
}

// The machine with the live number i, where the configuration is one of the program.
fn look_for<'a>(program: &'a Program, c: &'a Config, i: u32) -> Result<Shown, Answer>
    requires { Fit program.now c.now }
    ensures told { told_shown result ≡ on_opt (find i (config_of (program_of program.now) c.now).rooms) (answering UnableToStep) shown }
    ensures refused { (a : Answer) → result ≡ Err a → number a ≡ 0 → ⊥ }
{
    if i == 0 {
        return Err(Answer::UnableToStep);
    }
    match c.rooms.iter().find(|room| room.this.0 == i) {
        Some(room) => Ok(look_in(program, room)),
        None => Err(Answer::UnableToStep),
    }
}

// ONE MACHINE: 20, then 19 where it does not live.
pub fn look(program: Program, c: Config, machine: Live) -> Result<Shown, Answer>
    ensures told { told_shown result ≡ shown_of program c machine }
    ensures refused { (a : Answer) → result ≡ Err a → number a ≡ 0 → ⊥ }
{
    if fitting::fit(&program, &c) {
        look_for(&program, &c, machine.0)
    } else {
        Err(Answer::NotAccepted)
    }
}
