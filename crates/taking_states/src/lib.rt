// A state's line taken into the loader's arrays of states and of the flags of their deferred events. The function is given the text and the places of the line's
// values, and is lent the arrays. It answers whether the line is in range: where it is, the arrays have the line, where not, they are as they were.
// stays: may not change: line_at, which tells a line by the text and the places of its values: `at` here
#![tactic(auto)]

ghost use Rattle.std.specs.Prelude.{◌≡◌, true, cond, [], ◌∷◌, ◌++◌, ℕ, length, drop};
ghost use Rattle.lists.specs.Lists.{is_some, on_opt};
ghost use Rattle.programs.specs.Sizes.{STATES};
ghost use Rattle.programs.specs.Program.{State};
ghost use Rattle.texts.specs.Numbers.{decimal, numbers};
ghost use Rattle.texts.specs.Forms.{state_line};
ghost use Rattle.texts.specs.Reading.{next};
ghost use Rattle.tabled.specs.Tabled.{byte_of, defer_table};
ghost use Rattle.readers.specs.Words.{word};
ghost use Rattle.spoken.specs.Spoken.{value_at, line_at};
ghost use Rattle.spoken.specs.Took.{Took};
ghost use Rattle.taking_states.specs.Lines.{state_at};
ghost use Rattle.taking_states.specs.Held.{FlaggedTables, StateHeld, LineRoom, FlagRoom};

use listed::{deferrable, set_flags};
use operands::operand;
use putting::{byte_of, put_state};
use readers::field;
use spoken::{is_next, number_at};
use tables::Program;

// The kind of a state; 255 where an event that it defers can be none.
// stays: may not change: the definition state_kind, since the tables have 255 there
fn home(s: &[u8], at: usize, can: bool) -> u8
    ensures { result ≡ cond can (byte_of (on_opt (decimal (word (drop at s.now))) 0 (λ n. n))) 255 }
{
    if can { byte_of(number_at(s, at)) } else { 255 }
}

// The flags of state n; none where an event that it defers can be none.
fn put_flags(
    s: &[u8],
    at: usize,
    can: bool,
    flags: &mut [u8; (Program::STATES + 1) * (Program::EVENTS + 1)],
    n: usize,
)
    requires { FlagRoom (word (drop at s.now)) can flags.old n }
    ensures { (h : FlagRoom (word (drop at s.now)) can flags.old n) (t : State) → t.defer ≡ on_opt (numbers (word (drop at s.now))) [] (λ l. l)
        → flags.new ≡ defer_table (h.rows ++ t ∷ []) }
{
    if can {
        set_flags(field(s, at), flags, n * (Program::EVENTS + 1));
    }
}

// The line of a state, where it is in range.
fn put_line(
    s: &[u8],
    places: [usize; 5],
    homes: &mut [u8; Program::STATES + 1],
    entries: &mut [u16; Program::STATES + 1],
    exits: &mut [u16; Program::STATES + 1],
    flags: &mut [u8; (Program::STATES + 1) * (Program::EVENTS + 1)],
)
    requires { LineRoom s.now places homes.old entries.old exits.old flags.old }
    ensures { (h : LineRoom s.now places homes.old entries.old exits.old flags.old)
        → FlaggedTables (h.rows ++ state_at s.now places ∷ []) homes.new entries.new exits.new flags.new }
{
    let [_, of, defer, entry, exit] = places;
    let n = usize::from(homes[0]) + 1;
    let can = deferrable(field(s, defer));
    put_flags(s, defer, can, flags, n);
    put_state(
        homes,
        entries,
        exits,
        home(s, of, can),
        operand(s, entry, true),
        operand(s, exit, true),
    );
}

// A state.
pub fn take_state(
    s: &[u8],
    places: [usize; 5],
    homes: &mut [u8; Program::STATES + 1],
    entries: &mut [u16; Program::STATES + 1],
    exits: &mut [u16; Program::STATES + 1],
    flags: &mut [u8; (Program::STATES + 1) * (Program::EVENTS + 1)],
) -> bool
    requires state_held { StateHeld homes.old entries.old exits.old flags.old }
    requires places_value { is_some (numbers (value_at s.now places 2)) ≡ true }
    ensures { (h : StateHeld homes.old entries.old exits.old flags.old) (i : ℕ) (t : State)
        → line_at s.now places 37 ≡ state_line i t
        → Took result (next STATES (length h.rows) i) (FlaggedTables (h.rows ++ t ∷ []) homes.new entries.new exits.new flags.new)
        ((homes.new ≡ homes.old) × (entries.new ≡ entries.old) × (exits.new ≡ exits.old) × (flags.new ≡ flags.old)) }
{
    let n = usize::from(homes[0]);
    if !is_next(Program::STATES, n, number_at(s, places[0])) {
        return false;
    }
    put_line(s, places, homes, entries, exits, flags);
    true
}
