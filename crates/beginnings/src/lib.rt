// What a new machine begins with: the values of its `init`, worked out by its creator, and its kind's first state.
#![tactic(auto)]

ghost use Rattle.std.specs.Prelude.{◌≡◌, replicate};
ghost use Rattle.beginnings.specs.Inits.{InitsAsked, Given};
ghost use Rattle.beginnings.specs.Initial.{initial_in};

use codes::REST;
use tables::{Program, rows_from};

// THE VALUES OF `init`: the n pairs from place z on, each value worked out in the machine in room k and put to its variable's place; none where one does not suit.
pub fn init_values(
    program: &Program,
    places: &[u8; Program::ALL_VARIABLES + 1],
    values: &[u64; (Program::VARIABLES + 3) * Program::ROOMS],
    k: usize,
    z: u16,
    n: u16,
    w: u64,
) -> Option<[u64; Program::VARIABLES + 3]>
    requires { InitsAsked k z n w program.now.exprs places.now program.now.variable_of program.now.variable_type program.now.inits values.now (replicate 19 0) }
    ensures { (q : InitsAsked k z n w program.now.exprs places.now program.now.variable_of program.now.variable_type program.now.inits values.now (replicate 19 0)) → Given q result }
{
    let at = k * (Program::VARIABLES + 3);
    let first = usize::from(z);
    let count = rows_from(Program::PAIRS, first, usize::from(n));
    let mut out: [u64; Program::VARIABLES + 3] = [0; Program::VARIABLES + 3];
    let mut rest = w;
    // stays: no plainer: a turn reads the two numbers of its pair by their places
    for j in 0..count {
        let x = usize::from(program.inits[(first + j) * 2]);
        let e = usize::from(program.inits[(first + j) * 2 + 1]);
        let u = evaluation::eval(&program.exprs, places, values, at, e, rest);
        let ty = tables::variable_type(&program.variable_of, &program.variable_type, x);
        if !values::suits(ty, codes::value_of(u % REST)) {
            return None;
        }
        let y = usize::from(places[x]);
        out[y] = u % REST;
        rest = u / REST;
    }
    Some(out)
}

// THE FIRST STATE of kind m; 0 where it has none.
// stays: no plainer: both callers go on with state 0, as INIT does for a kind without states
pub fn initial_state(kinds: &[u8; Program::STATES + 1], m: u8) -> usize
    ensures { result ≡ initial_in kinds.now m }
{
    (1..tables::state_count(kinds) + 1)
        .find(|&n| kinds[n] == m)
        .unwrap_or(0)
}
