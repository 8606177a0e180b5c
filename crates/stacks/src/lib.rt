// The call stack of a room in the flat arrays: 8 states and 8 maps of 64 places a room, the first frame first. The frame on top is popped, put into another
// state, or left below a frame that is called.
// stays: no plainer: these functions are lent the arrays that they touch, so that no contract need say that the others stay
#![tactic(auto)]

ghost use Rattle.std.specs.Prelude.{◌≡◌, List, ℕ, ◌+◌, ◌-◌, ◌*◌, get_or};
ghost use Rattle.parts.specs.Parts.{Any};
ghost use Rattle.stacks.specs.Stacks.{Deep, Callable, CallAsked, StackBecomes, popped, stepped, entered};

use index::Says;
use maps::call_map;
use tables::Program;

// The place of the frame on top of room k's stack among the frames of all rooms.
fn top_place(depths: &[usize; Program::ROOMS], k: usize) -> usize
    requires { (states : List ℕ) × ((maps : List ℕ) × Deep k depths.now states maps) }
    ensures { result ≡ k * 8 + (get_or depths.now k 0 - 1) }
{
    k * Program::STACK + (depths[k] - 1)
}

// The state on top of room k's stack.
pub fn top_state(
    depths: &[usize; Program::ROOMS],
    states: &[u8; Program::ROOMS * Program::STACK],
    k: usize,
) -> usize
    requires { (maps : List ℕ) × Deep k depths.now states.now maps }
    ensures { result ≡ get_or states.now (k * 8 + (get_or depths.now k 0 - 1)) 0 }
{
    usize::from(states[top_place(depths, k)])
}

// Where the map on top of room k's stack begins.
pub fn top_map(depths: &[usize; Program::ROOMS], k: usize) -> usize
    requires { (states : List ℕ) × ((maps : List ℕ) × Deep k depths.now states maps) }
    ensures { result ≡ k * 512 + (get_or depths.now k 0 - 1) * 64 }
{
    top_place(depths, k) * Program::EVENTS
}

// The frame on top of room k's stack is popped, and its places are zero.
pub fn pop_frame(
    depths: &mut [usize; Program::ROOMS],
    states: &mut [u8; Program::ROOMS * Program::STACK],
    maps: &mut [u8; Program::ROOMS * Program::STACK * Program::EVENTS],
    k: usize,
)
    requires { Deep k depths.old states.old maps.old }
    ensures { StackBecomes k depths.old states.old maps.old Any popped depths.new states.new maps.new }
{
    states[top_place(depths, k)] = 0;
    let b = top_map(depths, k);
    maps[b..b + Program::EVENTS].fill(0);
    depths[k] -= 1;
}

// The frame on top of room k's stack is in state n.
pub fn step_frame(
    depths: &[usize; Program::ROOMS],
    states: &mut [u8; Program::ROOMS * Program::STACK],
    k: usize,
    n: u8,
)
    requires { (maps : List ℕ) × Deep k depths.now states.old maps }
    ensures { (maps : List ℕ) → Deep k depths.now states.old maps → StackBecomes k depths.now states.old maps Any (stepped n) depths.now states.new maps }
{
    states[top_place(depths, k)] = n;
}

// A frame in state n is called from the frame on top of room k's stack.
pub fn call_frame(
    program: &Program,
    says: &Says,
    depths: &mut [usize; Program::ROOMS],
    states: &mut [u8; Program::ROOMS * Program::STACK],
    maps: &mut [u8; Program::ROOMS * Program::STACK * Program::EVENTS],
    k: usize,
    n: u8,
    events: usize,
)
    requires { CallAsked says.now program.now.state_of program.now.defers k events depths.old states.old maps.old }
    ensures { StackBecomes k depths.old states.old maps.old (Callable says.now program.now.state_of program.now.defers events) (entered n) depths.new states.new maps.new }
{
    let s = top_state(depths, states, k);
    call_map(program, says, maps, top_map(depths, k), s, events);
    let d = depths[k];
    states[k * Program::STACK + d] = n;
    depths[k] = d + 1;
}
