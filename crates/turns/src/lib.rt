// What a pending raise comes to in the state on top: a step, a call, an action, or the frame is popped. It is looked up in `says`, and for want of a line of
// the state itself in the frame's map, whose 64 places begin at b.
// stays: no plainer: the function is lent the arrays that it touches, so that its contract need not say that the others stay
#![tactic(auto)]

ghost use Rattle.std.specs.Prelude.{◌≡◌, ◌≤◌, length};
ghost use Rattle.programs.specs.Program.{Program as Lines};
ghost use Rattle.maps.specs.Maps.{Moves, Asked, map_at};
ghost use Rattle.turns.specs.Turns.{turn_of};

use index::{Says, look_up};
use maps::DEFERRED;
use tables::Program;

// With the state that is stepped to or called, or the action.
#[derive(Clone, Copy, Debug, PartialEq, Eq)]
pub enum Turn {
    Step(u8),
    Call(u8),
    Act(u8),
    Pop,
}

// "For a pending raise: step, call, the state's action, the map's action, else POP1."
pub fn turn_of(
    says: &Says,
    maps: &[u8; Program::ROOMS * Program::STACK * Program::EVENTS],
    b: usize,
    n: usize,
    e: usize,
) -> Turn
    requires { Asked b n e }
    ensures { (p : Lines) → Moves p says.now → e ≤ length p.events → result ≡ turn_of p n (map_at p b maps.now) e }
{
    let line = look_up(says, n, e);
    if line.step != 0 {
        return Turn::Step(line.step);
    }
    if line.call != 0 {
        return Turn::Call(line.call);
    }
    if line.act != 0 {
        return Turn::Act(line.act);
    }
    let y = maps[b + (e - 1)];
    if y == 0 || y == DEFERRED {
        return Turn::Pop;
    }
    Turn::Act(y)
}
