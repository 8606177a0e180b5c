// The test of a room's values that are handed in: one for each variable of its kind, zeros behind them, and `this`, `msg` and `arg`. What is asked of them
// stands in specs/Variables.antt.
#![tactic(auto)]

ghost use Rattle.std.specs.Prelude.{◌≡◌, ◌+◌, ◌*◌, ◌≤◌, ◌<◌, length, get_or};
ghost use Rattle.lists.specs.Lists.{keep};
ghost use Rattle.lists.specs.Tells.{Tells};
ghost use Rattle.rows.specs.Part.{part};
ghost use Rattle.programs.specs.Program.{Program as Lines, is_of};
ghost use Rattle.tables.specs.Decode.{events_of, variables_of};
ghost use Rattle.checked_variables.specs.Variables.{ValuesHeld, Fits, OwnHeld};

use checked_values::{typed_ok, value_ok};
use codes::code;
use configs::Flat;
use sizing::variables_of;
use tables::{Kind, Program, event_count, variable_count, variable_kind, variable_type};
use values::{Live, Ty, Value};
use zeros::all_are;

// Whether the first of room i's values are values of the variables of its kind, in their order.
fn variables_ok(program: &Program, flat: &Flat, i: usize) -> bool
    requires { (length flat.now.values ≡ 608) × (i < 32) × (length (keep (is_of (get_or flat.now.kinds i 0)) (variables_of program.now.variable_of program.now.variable_type)) ≤ 16) }
    ensures { (p : Lines) → p.events ≡ events_of program.now.event_types → Tells result (Fits p flat.now.next (keep (is_of (get_or flat.now.kinds i 0)) (variables_of program.now.variable_of program.now.variable_type)) (part (i * 19) 19 flat.now.values)) }
{
    let kind = Kind(flat.kinds[i]);
    let events = event_count(&program.event_types);
    let n = variable_count(&program.variable_of);
    let b = i * (Program::VARIABLES + 3);
    // stays: no plainer: two places move, one of them only at a variable of the kind
    let mut j: usize = 0;
    for x in 1..=n {
        if variable_kind(&program.variable_of, x) == kind {
            let t = variable_type(&program.variable_of, &program.variable_type, x);
            if !typed_ok(flat.values[b + j], t, events, flat.next) {
                return false;
            }
            j += 1;
        }
    }
    true
}

// Whether the three places behind room i's variables are the machine's own number, an event, and a value.
fn own_ok(program: &Program, flat: &Flat, i: usize) -> bool
    requires { (length flat.now.values ≡ 608) × (i < 32) }
    ensures { (p : Lines) → p.events ≡ events_of program.now.event_types → Tells result (OwnHeld p flat.now.next (get_or flat.now.ids i 0) (part (i * 19) 19 flat.now.values)) }
{
    let events = event_count(&program.event_types);
    let b = i * (Program::VARIABLES + 3);
    flat.values[b + Program::THIS] == code(Value::Id(Live(flat.ids[i])))
        && typed_ok(flat.values[b + Program::MSG], Ty::Event, events, flat.next)
        && value_ok(flat.values[b + Program::ARG], events, flat.next)
}

// ROOM i's VALUES, of a machine of the room's kind and live number.
pub fn values_ok(program: &Program, flat: &Flat, i: usize) -> bool
    requires { (length flat.now.values ≡ 608) × (i < 32) }
    ensures { (p : Lines) → p.variables ≡ variables_of program.now.variable_of program.now.variable_type → p.events ≡ events_of program.now.event_types → Tells result (ValuesHeld p flat.now.next (get_or flat.now.kinds i 0) (get_or flat.now.ids i 0) (part (i * 19) 19 flat.now.values)) }
{
    let m = variables_of(&program.variable_of, usize::from(flat.kinds[i]));
    let b = i * (Program::VARIABLES + 3);
    m <= Program::VARIABLES
        && variables_ok(program, flat, i)
        && all_are(&flat.values[b + m..b + Program::VARIABLES], 0)
        && own_ok(program, flat, i)
}
