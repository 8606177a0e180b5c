// The test of what is handed in, number by number: a value, a pair, and what is pending. Each answers whether the number is one
// that an accepted configuration holds; what that asks stands in specs/Numbers.antt.
#![tactic(auto)]

ghost use Rattle.std.specs.Prelude.{◌≡◌, ◌&&◌, leb, ltb, length};
ghost use Rattle.lists.specs.Lists.{there};
ghost use Rattle.lists.specs.Tells.{Tells};
ghost use Rattle.programs.specs.Program.{Program as Lines};
ghost use Rattle.acceptance.specs.Accepted.{ValueOk};
ghost use Rattle.tables.specs.Decode.{events_of};
ghost use Rattle.checked_values.specs.Numbers.{ValueNumber, TypedNumber, PairNumber, HeldNumber};

use codes::{EVENT, canonical, event_of, value_of};
use tables::{Program, event_count, event_type, there};
use values::{Ty, Value, suits};

// Whether i is a live number that was handed out: from 1, and below the next one.
fn handed_out(i: u32, next: u32) -> bool
    ensures { result ≡ (leb 1 i && ltb i next) }
{
    1 <= i && i < next
}

// Whether the value is one of an accepted configuration.
fn value_there(v: Value, events: usize, next: u32) -> bool
    ensures { (p : Lines) → length p.events ≡ events → Tells result (ValueOk p next v) }
{
    match v {
        Value::Undefined | Value::Bool(_) | Value::Int(_) => true,
        Value::Event(e) => there(events, usize::from(e)),
        Value::Id(i) => handed_out(i.0, next),
    }
}

// A VALUE'S NUMBER: written as values are, and the value one of an accepted configuration.
pub fn value_ok(x: u64, events: usize, next: u32) -> bool
    ensures { (p : Lines) → length p.events ≡ events → Tells result (ValueNumber p next x) }
{
    canonical(x) && value_there(value_of(x), events, next)
}

// The same where the type t is wanted.
pub fn typed_ok(x: u64, t: Ty, events: usize, next: u32) -> bool
    ensures { (p : Lines) → length p.events ≡ events → Tells result (TypedNumber p next t x) }
{
    value_ok(x, events, next) && suits(t, value_of(x))
}

// A PAIR'S NUMBER: its event is there, and its value suits the event.
pub fn pair_ok(types: &[u8; Program::EVENTS + 1], x: u64, next: u32) -> bool
    ensures { (p : Lines) → p.events ≡ events_of types.now → Tells result (PairNumber p next x) }
{
    let n = event_count(types);
    let e = event_of(x);
    there(n, e) && typed_ok(x % EVENT, event_type(types, e), n, next)
}

// WHAT IS PENDING: nothing, a return, or a raise of a pair.
// stays: the C interface: what is pending lies as one number in a Room, 0 for nothing, 1 for a return, else the number of a pair
pub fn pending_ok(types: &[u8; Program::EVENTS + 1], x: u64, next: u32) -> bool
    ensures { (p : Lines) → p.events ≡ events_of types.now → Tells result (HeldNumber p next x) }
{
    x <= 1 || pair_ok(types, x, next)
}
