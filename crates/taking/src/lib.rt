// One line taken into the loader's arrays: a function for each kind of line that has no list and no `val`. It is given the text, the places of the line's
// values, and where a kind has several forms the number of the form; it is lent the arrays and numbers of its kind of line alone. It answers whether the line is
// in range: where it is, the arrays have the line, where not, they are as they were. Besides the tables of the variables the loader has how many lines of variables
// there are, how many of each kind, and the first whose kind is not there, from which on the tables are no longer written: specs/Variables.antt.
// stays: may not change: line_at, which tells a line by the number of its form, `row` here, and the places of its values
// stays: no heap, fixed memory: the moves and the choices are an array, and how many places of it are used: `n` and `count` here
#![tactic(auto)]

ghost use Rattle.std.specs.Prelude.{◌≡◌, Option, None, Some, not, ◌&&◌, ◌||◌, [], ◌∷◌, ◌++◌, ℕ, ◌+◌, ◌≤◌, min, ◌<◌, eqb, ltb, length, get_or};
ghost use Rattle.lists.specs.Lists.{there};
ghost use Rattle.values.specs.declared.Ty.{Ty};
ghost use Rattle.programs.specs.Sizes.{KINDS, EVENTS, ACTIONS, TEXT, VARIABLES};
ghost use Rattle.programs.specs.Program.{Action, Variable};
ghost use Rattle.machines.specs.Config.{Choice};
ghost use Rattle.texts.specs.Forms.{event_line, machine_line, action_line, start_line, choice_line, var_line};
ghost use Rattle.texts.specs.Reading.{next, room};
ghost use Rattle.tabled.specs.Tabled.{byte_of, event_table, move_table, choice_table};
ghost use Rattle.numerals.specs.Numerals.{CAP};
ghost use Rattle.putting.specs.Asked.{ActionTables, MoveRoom};
ghost use Rattle.spoken.specs.Spoken.{line_at};
ghost use Rattle.spoken.specs.Took.{Took};
ghost use Rattle.taking.specs.Held.{EventHeld, ActionHeld, ChoiceHeld, choosable};
ghost use Rattle.taking.specs.Lines.{move_at};
ghost use Rattle.taking.specs.Variables.{VariablesHeld, Variables, Kept};
ghost use Rattle.taking.specs.Entered.{Countable, Counted, EnterAsked, Entered};

use putting::{byte_of, put_action, put_choice, put_event, put_move, put_variable};
use spoken::{is_next, number_at};
use tables::{Kind, Program, there};
use terms::short;

// An event.
pub fn take_event(
    s: &[u8],
    row: usize,
    places: [usize; 5],
    types: &mut [u8; Program::EVENTS + 1],
) -> bool
    requires event_held { EventHeld types.old }
    requires row_bound { row ≤ 4 }
    ensures { (h : EventHeld types.old) (i : ℕ) (t : Ty) → line_at s.now places row ≡ event_line i t
        → Took result (next EVENTS (length h.rows) i) (types.new ≡ event_table (h.rows ++ t ∷ [])) (types.new ≡ types.old) }
{
    let n = usize::from(types[0]);
    if !is_next(Program::EVENTS, n, number_at(s, places[0])) {
        return false;
    }
    put_event(types, row as u8);
    true
}

// A kind of machines.
pub fn take_machine(s: &[u8], places: [usize; 5], kinds: &mut usize) -> bool
    ensures { (i : ℕ) → line_at s.now places 5 ≡ machine_line i
        → Took result (next KINDS kinds.old i) (kinds.new ≡ kinds.old + 1) (kinds.new ≡ kinds.old) }
{
    if !is_next(Program::KINDS, *kinds, number_at(s, places[0])) {
        return false;
    }
    *kinds += 1;
    true
}

// There is room for one more variable of kind k: of a kind that is not there always.
fn in_room(kinds: usize, k: u32, rooms: &[usize; Program::KINDS + 1]) -> bool
    requires { kinds ≤ KINDS }
    ensures { result ≡ not (there kinds k) || ltb (get_or rooms.now k 0) VARIABLES }
{
    !there(kinds, k as usize) || rooms[k as usize] < Program::VARIABLES
}

// One more variable of kind k, which is counted where it can be there.
fn count_one(k: u32, rooms: &mut [usize; Program::KINDS + 1])
    requires { Countable rooms.old }
    ensures { Counted k rooms.old rooms.new }
{
    let own = k as usize;
    if own <= Program::KINDS {
        rooms[own] += 1;
    }
}

// Variable i, of kind k and the type at t, is put into the tables; but the first whose kind is not there is noted, and from then on none is put.
fn enter(
    kinds: usize,
    k: u32,
    t: u8,
    i: usize,
    owners: &mut [u16; Program::ALL_VARIABLES + 1],
    holds: &mut [u8; Program::ALL_VARIABLES + 1],
    absent: &mut Option<usize>,
)
    requires { EnterAsked kinds k owners.old holds.old absent.old }
    ensures { Entered kinds k t i owners.old holds.old absent.old owners.new holds.new absent.new }
{
    if absent.is_some() {
        return;
    }
    if !there(kinds, k as usize) {
        *absent = Some(i);
        return;
    }
    put_variable(owners, holds, short(k), t);
}

// A variable.
pub fn take_variable(
    s: &[u8],
    row: usize,
    places: [usize; 5],
    kinds: usize,
    owners: &mut [u16; Program::ALL_VARIABLES + 1],
    holds: &mut [u8; Program::ALL_VARIABLES + 1],
    rooms: &mut [usize; Program::KINDS + 1],
    variables: &mut usize,
    absent: &mut Option<usize>,
) -> bool
    requires variables { Variables kinds owners.old holds.old rooms.old variables.old absent.old }
    requires le_row { (6 ≤ row) × (row ≤ 9) }
    requires kinds_bound { kinds ≤ KINDS }
    requires variables_bound { variables.old < TEXT }
    ensures { (h : Variables kinds owners.old holds.old rooms.old variables.old absent.old) (i : ℕ) (v : Variable)
        → line_at s.now places row ≡ var_line i v
        → Took result (eqb i (length h.rows + 1) && room kinds v.of h.rows)
        (VariablesHeld (h.rows ++ v ∷ []) kinds owners.new holds.new rooms.new variables.new absent.new)
        (Kept owners.old holds.old rooms.old variables.old absent.old
        owners.new holds.new rooms.new variables.new absent.new) }
{
    let n = *variables + 1;
    if number_at(s, places[0]) as usize != n {
        return false;
    }
    let k = number_at(s, places[1]);
    if !in_room(kinds, k, rooms) {
        return false;
    }
    enter(kinds, k, (row - 5) as u8, n, owners, holds, absent);
    count_one(k, rooms);
    *variables = n;
    true
}

// An action.
pub fn take_action(
    s: &[u8],
    places: [usize; 5],
    kinds: &mut [u8; Program::ACTIONS + 1],
    bodies: &mut [u16; Program::ACTIONS + 1],
) -> bool
    requires { ActionHeld kinds.old bodies.old }
    ensures { (h : ActionHeld kinds.old bodies.old) (i : ℕ) (a : Action) → line_at s.now places 36 ≡ action_line i a
        → Took result (next ACTIONS (length h.rows) i) (ActionTables (h.rows ++ a ∷ []) kinds.new bodies.new)
        ((kinds.new ≡ kinds.old) × (bodies.new ≡ bodies.old)) }
{
    let [own, of, body, ..] = places;
    let n = usize::from(kinds[0]);
    if !is_next(Program::ACTIONS, n, number_at(s, own)) {
        return false;
    }
    put_action(
        kinds,
        bodies,
        byte_of(number_at(s, of)),
        short(number_at(s, body)),
    );
    true
}

// A step, a call or an act behind the n moves that there are; `count` is how many there are of its kind. It is always in range.
pub fn take_move(
    s: &[u8],
    places: [usize; 5],
    moves: &mut [u8; 3 * Program::MOVES],
    n: usize,
    count: &mut usize,
)
    requires move_room { MoveRoom moves.old n }
    requires count_le_n { count.old ≤ n }
    ensures moves_after { (h : MoveRoom moves.old n) → moves.new ≡ move_table (h.rows ++ move_at s.now places ∷ []) }
    ensures count_after { count.new ≡ count.old + 1 }
{
    let [from, on, to, ..] = places;
    put_move(
        moves,
        n,
        byte_of(number_at(s, from)),
        byte_of(number_at(s, on)),
        byte_of(number_at(s, to)),
    );
    *count += 1;
}

// The kind that the program starts with. It is always in range.
pub fn take_start(s: &[u8], places: [usize; 5], start: &mut Option<Kind>)
    requires { start.old ≡ None }
    ensures { (k : ℕ) → line_at s.now places 41 ≡ start_line k → start.new ≡ Some (record { 0 = byte_of k }) }
{
    *start = Some(Kind(byte_of(number_at(s, places[0]))));
}

// The bits of a choice: those of a line without them are 0.
fn bits_at(s: &[u8], row: usize, places: [usize; 5]) -> u32
    requires { (42 ≤ row) × (row ≤ 43) }
    ensures { (c : Choice) → line_at s.now places row ≡ choice_line c → result ≡ min c.bits CAP }
{
    if row == 42 {
        number_at(s, places[1])
    } else {
        0
    }
}

// A choice is in range behind n others.
fn choosable(n: usize, machine: u32, bits: u32) -> bool
    ensures { result ≡ choosable n machine bits }
{
    n < Program::CHOICES && 0 < machine && (machine as usize) < Program::LIVE_NUMBERS && bits <= 255
}

// A choice.
pub fn take_choice(
    s: &[u8],
    row: usize,
    places: [usize; 5],
    choices: &mut [u32; Program::CHOICES],
    count: &mut usize,
) -> bool
    requires choice_held { ChoiceHeld choices.old count.old }
    requires le_row { (42 ≤ row) × (row ≤ 43) }
    ensures { (h : ChoiceHeld choices.old count.old) (c : Choice) → line_at s.now places row ≡ choice_line c
        → Took result (choosable (length h.rows) c.machine c.bits)
        ((choices.new ≡ choice_table (h.rows ++ c ∷ [])) × (count.new ≡ count.old + 1))
        ((choices.new ≡ choices.old) × (count.new ≡ count.old)) }
{
    let machine = number_at(s, places[0]);
    let bits = bits_at(s, row, places);
    let n = *count;
    if !choosable(n, machine, bits) {
        return false;
    }
    put_choice(choices, n, machine, bits as u8);
    *count = n + 1;
    true
}
