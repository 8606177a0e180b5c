// Whether a free room of what is handed in is written as a free room is: all its places are zero.
#![tactic(auto)]

ghost use Rattle.std.specs.Prelude.{◌≡◌, List, ℕ, ◌<◌, get_or};
ghost use Rattle.lists.specs.Tells.{Tells};
ghost use Rattle.configs.specs.Encode.{free};
ghost use Rattle.configs.specs.Flat.{room_at};
ghost use Rattle.free_rooms.specs.FreeRooms.{Asked, NumbersZero, RowsZero};

use configs::Flat;
use tables::Program;
use zeros::all_are;

// The numbers of room i.
fn numbers_zero(flat: &Flat, i: usize) -> bool
    requires { i < 32 }
    ensures { Tells result (NumbersZero flat.now.kinds flat.now.depths flat.now.counts flat.now.held flat.now.waiting i) }
{
    flat.kinds[i] == 0
        && flat.depths[i] == 0
        && flat.counts[i] == 0
        && flat.held[i] == 0
        && flat.waiting[i] == 0
}

// The rows of room i.
fn rows_zero(flat: &Flat, i: usize) -> bool
    requires { Asked flat.now.states flat.now.maps flat.now.values flat.now.parts flat.now.pairs i }
    ensures { Tells result (RowsZero flat.now.states flat.now.maps flat.now.values flat.now.parts flat.now.pairs i) }
{
    let s = i * Program::STACK;
    let m = i * (Program::STACK * Program::EVENTS);
    let v = i * (Program::VARIABLES + 3);
    let p = i * Program::ROW;
    let q = i * Program::QUEUE;
    all_are(&flat.states[s..s + Program::STACK], 0)
        && all_are(&flat.maps[m..m + Program::STACK * Program::EVENTS], 0)
        && all_are(&flat.values[v..v + (Program::VARIABLES + 3)], 0)
        && all_are(&flat.parts[p..p + Program::ROW], 0)
        && all_are(&flat.pairs[q..q + Program::QUEUE], 0)
}

// ROOM i, whose number is 0.
pub fn free_ok(flat: &Flat, i: usize) -> bool
    requires { Asked flat.now.states flat.now.maps flat.now.values flat.now.parts flat.now.pairs i }
    ensures { (ids : List ℕ) (next : ℕ) → get_or ids i 0 ≡ 0 → Tells result (room_at (record flat.now { ids = ids; next = next }) i ≡ free) }
{
    numbers_zero(flat, i) && rows_zero(flat, i)
}
