// DELETE: a machine's room becomes free, every place of it zero.
#![tactic(auto)]

ghost use Rattle.std.specs.Prelude.{◌≡◌, ◌<◌};
ghost use Rattle.configs.specs.Encode.{free};
ghost use Rattle.configs.specs.Flat.{Sized};
ghost use Rattle.laying.specs.Laying.{Placed};

use configs::Flat;
use tables::Program;

// ROOM k BECOMES FREE.
pub fn delete_on(flat: &mut Flat, k: usize)
    requires { (k < 32) × Sized flat.old }
    ensures room { Placed flat.old k free flat.new }
    ensures number { flat.new.next ≡ flat.old.next }
{
    let s = k * Program::STACK;
    let m = k * (Program::STACK * Program::EVENTS);
    let v = k * (Program::VARIABLES + 3);
    let p = k * Program::ROW;
    let q = k * Program::QUEUE;
    flat.ids[k] = 0;
    flat.kinds[k] = 0;
    flat.depths[k] = 0;
    flat.states[s..s + Program::STACK].fill(0);
    flat.maps[m..m + Program::STACK * Program::EVENTS].fill(0);
    flat.values[v..v + (Program::VARIABLES + 3)].fill(0);
    flat.counts[k] = 0;
    flat.parts[p..p + Program::ROW].fill(0);
    flat.held[k] = 0;
    flat.waiting[k] = 0;
    flat.pairs[q..q + Program::QUEUE].fill(0);
}
