// The test of a configuration that is handed in (answer 20), over the engine's flat arrays: each room, that live numbers are distinct, and the next one.
#![tactic(auto)]

ghost use Rattle.std.specs.Prelude.{◌≡◌, ◌<◌, get_or};
ghost use Rattle.lists.specs.Tells.{Tells};
ghost use Rattle.programs.specs.Program.{Program as Lines};
ghost use Rattle.accepting.specs.Rooms.{RoomFit};
ghost use Rattle.accepting.specs.Asked.{ToldOf, Listed, IsOne};

use checked_queues::queue_ok;
use checked_rows::row_ok;
use checked_stacks::frames_ok;
use checked_values::pending_ok;
use checked_variables::values_ok;
use configs::Flat;
use distinct::distinct_ok;
use free_rooms::free_ok;
use marks::Table;
use tables::{Program, there};

// A live machine's room: its number, its kind, its row, its stack, its values, what is pending and its queue.
fn live_ok(
    program: &Program,
    heights: &[u16; Program::STATEMENTS + 1],
    served: &Table,
    flat: &Flat,
    i: usize,
) -> bool
    requires { Listed flat.now program.now.kinds × (i < 32) × (get_or flat.now.ids i 0 ≡ 0 → ⊥) }
    ensures { (p : Lines) → ToldOf program.now heights.now served.now p → Tells result (RoomFit p flat.now i) }
{
    flat.ids[i] < flat.next
        && there(usize::from(program.kinds), usize::from(flat.kinds[i]))
        && row_ok(&program.stmts, heights, served, flat, i)
        && frames_ok(program, flat, i)
        && values_ok(program, flat, i)
        && pending_ok(&program.event_types, flat.held[i], flat.next)
        && queue_ok(&program.event_types, flat, i)
}

// Room i: free, or a live machine's.
fn room_ok(
    program: &Program,
    heights: &[u16; Program::STATEMENTS + 1],
    served: &Table,
    flat: &Flat,
    i: usize,
) -> bool
    requires { Listed flat.now program.now.kinds × (i < 32) }
    ensures { (p : Lines) → ToldOf program.now heights.now served.now p → Tells result (RoomFit p flat.now i) }
{
    if flat.ids[i] == 0 {
        free_ok(flat, i)
    } else {
        live_ok(program, heights, served, flat, i)
    }
}

// THE CONFIGURATION that the arrays hold is one.
pub fn accepted_on(
    program: &Program,
    heights: &[u16; Program::STATEMENTS + 1],
    served: &Table,
    flat: &Flat,
) -> bool
    requires { Listed flat.now program.now.kinds }
    ensures { (p : Lines) → ToldOf program.now heights.now served.now p → Tells result (IsOne p flat.now) }
{
    flat.next != 0
        && flat.next as usize <= Program::LIVE_NUMBERS
        && distinct_ok(&flat.ids)
        && (0..Program::ROOMS).all(|k| room_ok(program, heights, served, flat, k))
}
