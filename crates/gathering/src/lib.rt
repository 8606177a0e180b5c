// The lines of a text so far, as the loader holds them while it reads on. What its arrays hold when some of the lines are read: specs/Gathered.antt.
#![tactic(auto)]

ghost use Rattle.std.specs.Prelude.{◌≡◌};
ghost use Rattle.gathering.specs.Gathered.{no_tables, no_lines};

use tables::{Kind, Program};

// The tables of the program that has no lines.
pub fn no_tables() -> Program
    ensures { result ≡ no_tables }
{
    Program {
        event_types: [0; Program::EVENTS + 1],
        kinds: 0,
        variable_of: [0; Program::ALL_VARIABLES + 1],
        variable_type: [0; Program::ALL_VARIABLES + 1],
        exprs: [0; 3 * (Program::EXPRESSIONS + 1)],
        stmts: [0; 5 * (Program::STATEMENTS + 1)],
        inits: [0; 2 * Program::PAIRS],
        action_of: [0; Program::ACTIONS + 1],
        action_body: [0; Program::ACTIONS + 1],
        state_of: [0; Program::STATES + 1],
        state_entry: [0; Program::STATES + 1],
        state_exit: [0; Program::STATES + 1],
        defers: [0; (Program::STATES + 1) * (Program::EVENTS + 1)],
        moves: [0; 3 * Program::MOVES],
        steps: 0,
        calls: 0,
        acts: 0,
        start: Kind(0),
    }
}

// The lines so far: the program's tables are written as the lines come, its kinds and its start when all have come.
// stays: no heap, fixed memory: the arrays, and how many places of them are used
#[derive(Drop)]
pub struct Lines {
    pub program: Program,
    // how many machine kinds there are
    pub kinds: usize,
    // how many variables there are, and of each kind
    pub variables: usize,
    pub rooms: [usize; Program::KINDS + 1],
    // the first variable whose kind is not there
    pub absent: Option<usize>,
    // how many pairs there are
    pub pairs: usize,
    // the kind that the program starts with
    pub start: Option<Kind>,
    // the choices, and how many there are
    pub choices: [u32; Program::CHOICES],
    pub count: usize,
}

impl Lines {
    // None yet.
    pub fn new() -> Lines
        ensures { result ≡ no_lines }
    {
        Lines {
            program: no_tables(),
            kinds: 0,
            variables: 0,
            rooms: [0; Program::KINDS + 1],
            absent: None,
            pairs: 0,
            start: None,
            choices: [0; Program::CHOICES],
            count: 0,
        }
    }
}
