// A configuration lifted out of the engine's flat arrays.
#![tactic(auto)]

ghost use Rattle.std.specs.Prelude.{◌≡◌, ◌+◌, ◌*◌, ◌≤◌, ◌<◌, length};
ghost use Rattle.configs.specs.Flat.{Sized, room_at, held as held_by};
ghost use Rattle.lifting.specs.Lifting.{Lifted};

use configs::{Config, Flat, Room};
use std::array;
use tables::{Kind, Program};
use values::Live;

// Row i, of W places, of a flat array.
fn lift_row<T: Copy, const W: usize>(from: &[T], i: usize, zero: T) -> [T; W]
    requires { i * W + W ≤ length from.now }
    ensures { Lifted zero from.now i W result }
{
    let mut row = [zero; W];
    copies::copy(&mut row, 0, from, i * W, W);
    row
}

// Room i.
fn lift_room(i: usize, flat: &Flat) -> Room
    requires { (i < 32) × Sized flat.now }
    ensures { result ≡ room_at flat.now i }
{
    Room {
        this: Live(flat.ids[i]),
        kind: Kind(flat.kinds[i]),
        depth: flat.depths[i],
        states: lift_row(&flat.states, i, 0),
        maps: lift_row(&flat.maps, i, 0),
        values: lift_row(&flat.values, i, 0),
        count: flat.counts[i],
        parts: lift_row(&flat.parts, i, 0),
        held: flat.held[i],
        waiting: flat.waiting[i],
        pairs: lift_row(&flat.pairs, i, 0),
    }
}

// THE CONFIGURATION that the flat arrays are.
pub fn lift(flat: &Flat) -> Config
    requires { Sized flat.now }
    ensures { result ≡ held_by flat.now }
{
    Config {
        next: flat.next,
        rooms: array::from_fn(|k| lift_room(k, flat)),
    }
}
