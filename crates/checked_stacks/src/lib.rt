// Whether a call stack that is handed in can be an accepted machine's: its states are of the machine's kind, an entry of a map is nothing, deferred or an
// action of the kind, and all other places are zero.
// stays: no plainer: a room's part of an array is given by its first place b and how much of it is used, as StatesFit, MapFits and MapsFit say it
#![tactic(auto)]

ghost use Rattle.std.specs.Prelude.{◌≡◌, ◌+◌, ◌*◌, ◌≤◌, length, get_or};
ghost use Rattle.lists.specs.Tells.{Tells};
ghost use Rattle.rows.specs.Part.{part};
ghost use Rattle.programs.specs.Program.{Program as Lines};
ghost use Rattle.programs.specs.Sizes.{EVENTS};
ghost use Rattle.tables.specs.Decode.{count};
ghost use Rattle.checked_stacks.specs.CheckedStacks.{StackHeld, Told, Asked, StateFits, EntryFits, MapFits, StatesFit, MapsFit};

use configs::Flat;
use tables::{Program, action_count, event_count, state_count, there};
use zeros::all_are;

// A state: it is there, and of the kind.
fn state_fits(state_of: &[u8; Program::STATES + 1], kind: u8, s: usize) -> bool
    ensures { Tells result (StateFits state_of.now kind s) }
{
    there(state_count(state_of), s) && state_of[s] == kind
}

// An entry of a map: nothing, deferred, or an action that is there and of the kind.
// stays: may not change: reply_code, by which an entry is 0 for nothing, 255 for deferred, else the number of an action
fn entry_fits(action_of: &[u8; Program::ACTIONS + 1], kind: u8, x: usize) -> bool
    ensures { Tells result (EntryFits action_of.now kind x) }
{
    x == 0 || x == 255 || there(action_count(action_of), x) && action_of[x] == kind
}

// The map whose 64 places begin at b.
fn map_fits(
    action_of: &[u8; Program::ACTIONS + 1],
    maps: &[u8; Program::ROOMS * Program::STACK * Program::EVENTS],
    kind: u8,
    events: usize,
    b: usize,
) -> bool
    requires { (length maps.now ≡ 16384) × (events ≤ 64) × (b + 64 ≤ 16384) }
    ensures { Tells result (MapFits action_of.now maps.now kind events b) }
{
    maps[b..b + events]
        .iter()
        .all(|&x| entry_fits(action_of, kind, usize::from(x)))
        && all_are(&maps[b + events..b + Program::EVENTS], 0)
}

// The states of the room whose 8 places begin at b.
fn states_fit(
    state_of: &[u8; Program::STATES + 1],
    states: &[u8; Program::ROOMS * Program::STACK],
    kind: u8,
    depth: usize,
    b: usize,
) -> bool
    requires { (length states.now ≡ 256) × (depth ≤ 8) × (b + 8 ≤ 256) }
    ensures { Tells result (StatesFit state_of.now states.now kind depth b) }
{
    states[b..b + depth]
        .iter()
        .all(|&s| state_fits(state_of, kind, usize::from(s)))
        && all_are(&states[b + depth..b + Program::STACK], 0)
}

// The maps of the room whose 512 places begin at b.
fn maps_fit(
    action_of: &[u8; Program::ACTIONS + 1],
    maps: &[u8; Program::ROOMS * Program::STACK * Program::EVENTS],
    kind: u8,
    events: usize,
    depth: usize,
    b: usize,
) -> bool
    requires { (length maps.now ≡ 16384) × (events ≤ 64) × (depth ≤ 8) × (b + 512 ≤ 16384) }
    ensures { Tells result (MapsFit action_of.now maps.now kind events depth b) }
{
    (0..depth).all(|d| map_fits(action_of, maps, kind, events, b + d * Program::EVENTS))
        && all_are(
            &maps[b + depth * Program::EVENTS..b + Program::STACK * Program::EVENTS],
            0,
        )
}

// THE STACK of room i.
pub fn frames_ok(program: &Program, flat: &Flat, i: usize) -> bool
    requires { Asked flat.now.states flat.now.maps i (count EVENTS program.now.event_types) }
    ensures { (p : Lines) → Told program.now.state_of program.now.action_of (count EVENTS program.now.event_types) p → Tells result (StackHeld p (get_or flat.now.kinds i 0) (get_or flat.now.depths i 0) (part (i * 8) 8 flat.now.states) (part (i * 512) 512 flat.now.maps)) }
{
    let kind = flat.kinds[i];
    let depth = flat.depths[i];
    let events = event_count(&program.event_types);
    depth <= Program::STACK
        && states_fit(
            &program.state_of,
            &flat.states,
            kind,
            depth,
            i * Program::STACK,
        )
        && maps_fit(
            &program.action_of,
            &flat.maps,
            kind,
            events,
            depth,
            i * (Program::STACK * Program::EVENTS),
        )
}
