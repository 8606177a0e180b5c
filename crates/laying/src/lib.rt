// A configuration laid into the engine's flat arrays.
#![tactic(auto)]

ghost use Rattle.std.specs.Prelude.{◌≡◌, ◌+◌, ◌*◌, ◌≤◌, ◌<◌, length};
ghost use Rattle.configs.specs.Flat.{Sized};
ghost use Rattle.laying.specs.Laying.{Stored, Placed, Laid, Holds};

use configs::{Config, Flat, Room};
use tables::Program;

// Row i, of W places, of a flat array.
fn lay_row<T: Copy, const W: usize>(to: &mut [T], i: usize, from: &[T; W])
    requires { i * W + W ≤ length to.old }
    ensures { Stored to.old i W from.now to.new }
{
    // stays: the C interface: a copy of a slice as a whole asks a program that links the library for memmove, which it needs nowhere else
    for e in 0..W {
        to[i * W + e] = from[e];
    }
}

// Room m into row i of the flat arrays.
pub fn lay_room(m: &Room, i: usize, flat: &mut Flat)
    requires { (i < 32) × Sized flat.old }
    ensures room { Placed flat.old i m.now flat.new }
    ensures number { flat.new.next ≡ flat.old.next }
{
    flat.ids[i] = m.this.0;
    flat.kinds[i] = m.kind.0;
    flat.depths[i] = m.depth;
    lay_row(&mut flat.states, i, &m.states);
    lay_row(&mut flat.maps, i, &m.maps);
    lay_row(&mut flat.values, i, &m.values);
    flat.counts[i] = m.count;
    lay_row(&mut flat.parts, i, &m.parts);
    flat.held[i] = m.held;
    flat.waiting[i] = m.waiting;
    lay_row(&mut flat.pairs, i, &m.pairs);
}

// All rooms.
fn lay_rooms(rooms: &[Room; Program::ROOMS], flat: &mut Flat)
    requires { Sized flat.old }
    ensures { (length rooms.now ≡ 32) × Laid rooms.now 32 flat.new }
{
    for (i, m) in rooms.iter().enumerate() {
        lay_room(m, i, flat);
    }
}

// THE CONFIGURATION c laid into the flat arrays.
pub fn lay(c: &Config, flat: &mut Flat)
    requires { Sized flat.old }
    ensures { Holds c.now flat.new }
{
    lay_rooms(&c.rooms, flat);
    flat.next = c.next;
}
