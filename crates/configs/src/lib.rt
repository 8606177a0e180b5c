// The configuration as the controller holds it: 32 rooms, each with a machine's frames, values, row and queue in flat arrays. How it reads as a
// configuration of the definitions stands in specs/Decode.antt, and how such a configuration is written in specs/Encode.antt.
#![tactic(auto)]

ghost use Rattle.std.specs.Prelude.{◌≡◌};
ghost use Rattle.configs.specs.Encode.{free};
ghost use Rattle.configs.specs.Flat.{zeros};

use tables::{Kind, Program};
use values::Live;

// stays: the C interface: a room is lent as it lies, with its counts, its 0 for none, and its 0, 1 or a pair for what is pending
#[repr(C)]
#[derive(Clone, Copy)]
pub struct Room {
    // 0: the room is free
    pub this: Live,
    pub kind: Kind,
    // the call stack: how many frames, their states, and 64 places of a map for each, the first frame first
    pub depth: usize,
    pub states: [u8; Program::STACK],
    pub maps: [u8; Program::STACK * Program::EVENTS],
    // 16 variables, then `this`, `msg`, `arg`, as numbers
    pub values: [u64; Program::VARIABLES + 3],
    // the row: how many parts, and the parts, the last one first
    pub count: usize,
    pub parts: [u16; Program::ROW],
    // what is pending: 0 nothing, 1 a return, else the number of a raise's pair
    pub held: u64,
    // the queue: how many pairs wait, and their numbers
    pub waiting: usize,
    pub pairs: [u64; Program::QUEUE],
}

impl Room {
    // A free room, every place of it zero.
    pub fn free() -> Room
        ensures { result ≡ free }
    {
        Room {
            this: Live(0),
            kind: Kind(0),
            depth: 0,
            states: [0; Program::STACK],
            maps: [0; Program::STACK * Program::EVENTS],
            values: [0; Program::VARIABLES + 3],
            count: 0,
            parts: [0; Program::ROW],
            held: 0,
            waiting: 0,
            pairs: [0; Program::QUEUE],
        }
    }
}

#[repr(C)]
#[derive(Clone, Copy)]
pub struct Config {
    // the next live number
    pub next: u32,
    pub rooms: [Room; Program::ROOMS],
}

// The engine's form of a configuration: an array for all 32 rooms each, row i of it room i's. What configuration it is stands in specs/Flat.antt.
// stays: may not change: room_at and flat_config, which read a room out of these arrays
#[derive(Drop)]
pub struct Flat {
    // 0: the room is free
    pub ids: [u32; Program::ROOMS],
    pub kinds: [u8; Program::ROOMS],
    pub depths: [usize; Program::ROOMS],
    pub states: [u8; Program::ROOMS * Program::STACK],
    pub maps: [u8; Program::ROOMS * Program::STACK * Program::EVENTS],
    pub values: [u64; Program::ROOMS * (Program::VARIABLES + 3)],
    pub counts: [usize; Program::ROOMS],
    pub parts: [u16; Program::ROOMS * Program::ROW],
    pub held: [u64; Program::ROOMS],
    pub waiting: [usize; Program::ROOMS],
    pub pairs: [u64; Program::ROOMS * Program::QUEUE],
    // the next live number
    pub next: u32,
}

impl Flat {
    // All rooms free, every place of them zero.
    pub fn new() -> Flat
        ensures { result ≡ zeros }
    {
        Flat {
            ids: [0; Program::ROOMS],
            kinds: [0; Program::ROOMS],
            depths: [0; Program::ROOMS],
            states: [0; Program::ROOMS * Program::STACK],
            maps: [0; Program::ROOMS * Program::STACK * Program::EVENTS],
            values: [0; Program::ROOMS * (Program::VARIABLES + 3)],
            counts: [0; Program::ROOMS],
            parts: [0; Program::ROOMS * Program::ROW],
            held: [0; Program::ROOMS],
            waiting: [0; Program::ROOMS],
            pairs: [0; Program::ROOMS * Program::QUEUE],
            next: 0,
        }
    }
}
