// The test of a room's queue that is handed in: its count, its pairs, and zeros behind them. What is asked of it stands in specs/Queues.antt.
#![tactic(auto)]

ghost use Rattle.std.specs.Prelude.{◌≡◌, ◌*◌, ◌<◌, length, get_or};
ghost use Rattle.lists.specs.Tells.{Tells};
ghost use Rattle.rows.specs.Part.{part};
ghost use Rattle.programs.specs.Program.{Program as Lines};
ghost use Rattle.tables.specs.Decode.{events_of};
ghost use Rattle.checked_queues.specs.Queues.{Apart, QueueHeld, Single};

use checked_values::pair_ok;
use configs::Flat;
use tables::Program;
use zeros::all_are;

// Whether number j is a pair's number, and stands nowhere behind itself.
fn single(types: &[u8; Program::EVENTS + 1], pairs: &[u64], j: usize, next: u32) -> bool
    requires { j < length pairs.now }
    ensures { (p : Lines) → p.events ≡ events_of types.now → Tells result (Single p next pairs.now j) }
{
    pair_ok(types, pairs[j], next) && !pairs[j + 1..].contains(&pairs[j])
}

// Whether the numbers are pairs' numbers, and none stands there twice.
fn pairs_ok(types: &[u8; Program::EVENTS + 1], pairs: &[u64], next: u32) -> bool
    ensures { (p : Lines) → p.events ≡ events_of types.now → Tells result (Apart p next pairs.now) }
{
    (0..pairs.len()).all(|j| single(types, pairs, j, next))
}

// ROOM i's QUEUE.
pub fn queue_ok(types: &[u8; Program::EVENTS + 1], flat: &Flat, i: usize) -> bool
    requires { (length flat.now.pairs ≡ 512) × (i < 32) }
    ensures { (p : Lines) → p.events ≡ events_of types.now → Tells result (QueueHeld p flat.now.next (get_or flat.now.waiting i 0) (part (i * 16) 16 flat.now.pairs)) }
{
    let n = flat.waiting[i];
    let b = i * Program::QUEUE;
    n <= Program::QUEUE
        && pairs_ok(types, &flat.pairs[b..b + n], flat.next)
        && all_are(&flat.pairs[b + n..b + Program::QUEUE], 0)
}
