// NEW: a machine begins in the lowest free room, and its creator moves on. Where it is refused nothing is changed.
// stays: no plainer: these functions are lent the arrays that they touch, so that no contract need say that the others stay
#![tactic(auto)]

ghost use Rattle.std.specs.Prelude.{List, ℕ};
ghost use Rattle.machines.specs.Config.{Reply};
ghost use Rattle.creating.specs.Newborn.{LayAsked, NewLaid};
ghost use Rattle.creating.specs.Asked.{NewAsked, Created};

use answers::Answer;
use beginnings::{init_values, initial_state};
use engine::Outcome;
use rules::Rule;
use tables::Program;
use values::{Live, Value};

// Machine i, of kind m, in room `to`, which is free: in state n, with these values, at the entry statement.
pub fn lay_new(
    stmts: &[u16; 5 * (Program::STATEMENTS + 1)],
    ids: &mut [u32; Program::ROOMS],
    kinds: &mut [u8; Program::ROOMS],
    depths: &mut [usize; Program::ROOMS],
    tops: &mut [u8; Program::ROOMS * Program::STACK],
    values: &mut [u64; (Program::VARIABLES + 3) * Program::ROOMS],
    counts: &mut [usize; Program::ROOMS],
    parts: &mut [u16; Program::ROOMS * Program::ROW],
    to: usize,
    i: u32,
    m: u8,
    n: u8,
    own: [u64; Program::VARIABLES + 3],
    entry: u16,
)
    requires { LayAsked to entry stmts.now values.old counts.old parts.old }
    ensures { NewLaid to i m n own entry stmts.now ids.old kinds.old depths.old tops.old values.old counts.old parts.old ids.new kinds.new depths.new tops.new values.new counts.new parts.new }
{
    ids[to] = i;
    kinds[to] = m;
    depths[to] = 1;
    tops[to * Program::STACK] = n;
    copies::copy(
        values,
        to * (Program::VARIABLES + 3),
        &own,
        0,
        Program::VARIABLES + 3,
    );
    remaining::push_part(stmts, counts, parts, to, entry, false);
}

// THE HEAD `new x m ..` of the machine in room k, with the n pairs of `init` from place z on, under the bits w.
pub fn new_on(
    program: &Program,
    places: &[u8; Program::ALL_VARIABLES + 1],
    ids: &mut [u32; Program::ROOMS],
    kinds: &mut [u8; Program::ROOMS],
    depths: &mut [usize; Program::ROOMS],
    tops: &mut [u8; Program::ROOMS * Program::STACK],
    values: &mut [u64; (Program::VARIABLES + 3) * Program::ROOMS],
    counts: &mut [usize; Program::ROOMS],
    parts: &mut [u16; Program::ROOMS * Program::ROW],
    held: &[u64; Program::ROOMS],
    next: &mut u32,
    k: usize,
    x: u16,
    m: u8,
    z: u16,
    n: u16,
    w: u64,
) -> Outcome
    requires { NewAsked k x m z n w program.now.exprs places.now program.now.variable_of program.now.variable_type program.now.stmts program.now.inits program.now.state_of program.now.state_entry ids.old kinds.old depths.old tops.old values.old counts.old parts.old held.now next.old }
    ensures { (q : NewAsked k x m z n w program.now.exprs places.now program.now.variable_of program.now.variable_type program.now.stmts program.now.inits program.now.state_of program.now.state_entry ids.old kinds.old depths.old tops.old values.old counts.old parts.old held.now next.old) (t : ℕ) (α : List Reply) → Created q t α result ids.new kinds.new depths.new tops.new values.new counts.new parts.new next.new }
{
    let mut own = init_values(program, places, values, k, z, n, w).ok_or(Answer::WrongType)?;
    let i = *next;
    if Program::LIVE_NUMBERS <= i as usize {
        return Err(Answer::NoRoom);
    }
    let to = rooms::find_room(ids, 0).ok_or(Answer::NoRoom)?;
    let id = codes::code(Value::Id(Live(i)));
    let y = usize::from(places[usize::from(x)]);
    values[k * (Program::VARIABLES + 3) + y] = id;
    remaining::finish_head(counts, parts, k, held[k] != 0);
    own[Program::THIS] = id;
    let state = initial_state(&program.state_of, m);
    let entry = tables::entry_of(&program.state_of, &program.state_entry, state);
    lay_new(
        &program.stmts,
        ids,
        kinds,
        depths,
        tops,
        values,
        counts,
        parts,
        to,
        i,
        m,
        state as u8,
        own,
        entry,
    );
    *next = i + 1;
    Ok(Rule::NEW)
}
