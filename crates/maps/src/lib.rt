// What a state does about an event, by the tables that a program is read into and the maps of all frames, 64 places for each: the map whose places begin
// at b has the entry of event e at b + e - 1.
// stays: no plainer: these functions are lent the arrays that they touch, so that no contract need say that the others stay
#![tactic(auto)]

ghost use Rattle.std.specs.Prelude.{◌≡◌, List, ℕ, ◌+◌, ◌≤◌, length};
ghost use Rattle.rows.specs.Part.{put};
ghost use Rattle.programs.specs.Program.{Program as Lines};
ghost use Rattle.machines.specs.Maps.{Pop, exit_or_skip, held_back, inherits};
ghost use Rattle.configs.specs.Decode.{reply_of};
ghost use Rattle.configs.specs.Encode.{reply_code};
ghost use Rattle.maps.specs.Maps.{Moves, Tables, Asked, map_at, moves, owns, called};

use index::{Says, look_up};
use tables::{Program, defers, exit_of};

// The number of the statement skip.
const SKIP: u16 = 0;

// An entry of a map is 0 for nothing, this for an event that is deferred, and else the number of an action.
// stays: may not change: reply_code, which is how a map's entry is stored
pub const DEFERRED: u8 = 255;

// The state has a transition for the event: a step or a call.
fn goes(says: &Says, n: usize, e: usize) -> bool
    requires { (n ≤ 64) × (e ≤ 64) }
    ensures { result ≡ moves says.now n e }
{
    let line = look_up(says, n, e);
    line.step != 0 || line.call != 0
}

// It has a transition or an action.
fn own(says: &Says, n: usize, e: usize) -> bool
    requires { (n ≤ 64) × (e ≤ 64) }
    ensures { result ≡ owns says.now n e }
{
    goes(says, n, e) || look_up(says, n, e).act != 0
}

// DEQUEUE leaves the event where it is: the map or the state defers it, and the state itself has no line for it.
pub fn held_back(
    program: &Program,
    says: &Says,
    maps: &[u8; Program::ROOMS * Program::STACK * Program::EVENTS],
    b: usize,
    n: usize,
    e: usize,
) -> bool
    requires { Asked b n e }
    ensures { (p : Lines) (entries exits : List ℕ) → Tables p says.now program.now.state_of entries exits program.now.defers → e ≤ length p.events → result ≡ held_back p n (map_at p b maps.now) e }
{
    let x = maps[b + (e - 1)];
    !own(says, n, e) && (x == DEFERRED || defers(&program.state_of, &program.defers, n, e))
}

// The event pops the state: neither the state nor its map has an answer to it.
pub fn pops(
    says: &Says,
    maps: &[u8; Program::ROOMS * Program::STACK * Program::EVENTS],
    b: usize,
    n: usize,
    e: usize,
) -> bool
    requires { Asked b n e }
    ensures { (p : Lines) → Moves p says.now → e ≤ length p.events → result ≡ Pop p n (map_at p b maps.now) e }
{
    match maps[b + (e - 1)] {
        0 | DEFERRED => !own(says, n, e),
        _ => false,
    }
}

// What is put before a pending raise: the state's exit where it will be popped or left by a step, or else skip.
pub fn exit_or_skip(
    program: &Program,
    says: &Says,
    maps: &[u8; Program::ROOMS * Program::STACK * Program::EVENTS],
    b: usize,
    n: usize,
    e: usize,
) -> u16
    requires { Asked b n e }
    ensures { (p : Lines) (entries flags : List ℕ) → Tables p says.now program.now.state_of entries program.now.state_exit flags → e ≤ length p.events → result ≡ exit_or_skip p n (map_at p b maps.now) e }
{
    if look_up(says, n, e).step != 0 || pops(says, maps, b, n, e) {
        return exit_of(&program.state_of, &program.state_exit, n);
    }
    SKIP
}

// Entry e of the callee's map, where the caller's is `old`.
fn inherited(program: &Program, says: &Says, n: usize, e: usize, old: u8) -> u8
    requires { (n ≤ 64) × (e ≤ 64) }
    ensures { (p : Lines) (entries exits : List ℕ) → Tables p says.now program.now.state_of entries exits program.now.defers → result ≡ reply_code (inherits p n e (reply_of old)) }
{
    if goes(says, n, e) {
        return 0;
    }
    let a = look_up(says, n, e).act;
    if a != 0 {
        return a;
    }
    if defers(&program.state_of, &program.defers, n, e) {
        return DEFERRED;
    }
    old
}

// CALL's map: the callee's, in the 64 places behind the caller's at `from`. What lies past the last event is 0.
pub fn call_map(
    program: &Program,
    says: &Says,
    maps: &mut [u8; Program::ROOMS * Program::STACK * Program::EVENTS],
    from: usize,
    n: usize,
    events: usize,
)
    requires { (n ≤ 64) × (events ≤ 64) × (from + 128 ≤ 16384) × (length maps.old ≡ 16384) }
    ensures { (p : Lines) (entries exits : List ℕ) → Tables p says.now program.now.state_of entries exits program.now.defers → length p.events ≡ events → maps.new ≡ put (from + 64) (called p n (map_at p from maps.old)) maps.old }
{
    let to = from + Program::EVENTS;
    // stays: no plainer: each turn reads one place of the array and stores to another
    for k in 0..Program::EVENTS {
        maps[to + k] = if k < events {
            inherited(program, says, n, k + 1, maps[from + k])
        } else {
            0
        };
    }
}
