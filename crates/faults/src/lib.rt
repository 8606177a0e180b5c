// The first faulty line of a program, from the first faulty row of each of its tables: what the passes that decide soundness share. What is meant by a
// fault, and the laws, stand in specs/Faults.antt; the program that lent arrays read as in specs/Read.antt.
#![tactic(auto)]

ghost use Rattle.std.specs.Prelude.{◌≡◌, cond, ℕ, ◌+◌, ◌-◌, ◌*◌, ◌≤◌};
ghost use Rattle.std.specs.Option.{option_map, option_or};
ghost use Rattle.programs.specs.Sizes.{KINDS, EVENTS, VARIABLES};
ghost use Rattle.tables.specs.Decode.{count};
ghost use Rattle.faults.specs.Faults.{onward, joined};
ghost use Rattle.faults.specs.Read.{Rows, Small};
ghost use Rattle.faults.specs.Lines.{line_of, number_of, Finds};

use tables::{
    Program, action_count, event_count, expr_count, state_count, stmt_count, variable_count,
};

// How many rows the tables have.
#[derive(Clone, Copy)]
pub struct Counts {
    pub events: usize,
    pub kinds: usize,
    pub variables: usize,
    pub exprs: usize,
    pub stmts: usize,
    pub actions: usize,
    pub states: usize,
}

// How many rows a program's tables have.
pub fn count_rows(program: &Program) -> Counts
    ensures rows { Rows program.now result }
    ensures small { Small result }
{
    Counts {
        events: event_count(&program.event_types),
        kinds: usize::from(program.kinds),
        variables: variable_count(&program.variable_of),
        exprs: expr_count(&program.exprs),
        stmts: stmt_count(&program.stmts),
        actions: action_count(&program.action_of),
        states: state_count(&program.state_of),
    }
}

// How many lines stand in front of the expressions: events, kinds and variables.
pub fn front(program: &Program) -> usize
    ensures { (result ≡ count EVENTS program.now.event_types + program.now.kinds + count (KINDS * VARIABLES) program.now.variable_of) × (result ≤ 1000) }
{
    let kinds = usize::from(program.kinds);
    event_count(&program.event_types) + kinds + variable_count(&program.variable_of)
}

// The fault of one line, which is ok or not.
pub fn fault(ok: bool) -> Option<usize>
    ensures line { result ≡ line_of (cond ok 0 1) }
    ensures bound { number_of result ≤ 1 }
{
    if ok { None } else { Some(1) }
}

// The line of a fault that has n lines before it.
pub fn onward(n: usize, b: Option<usize>) -> Option<usize>
    requires { n + number_of b ≤ 4294967296 }
    ensures value { result ≡ option_map (λ k. n + k) b }
    ensures line { (k : ℕ) → b ≡ line_of k → result ≡ line_of (onward n k) }
    ensures bound { number_of result ≤ n + number_of b }
{
    b.map(|b| n + b)
}

// The first of two faults: a, or else b, which has n lines before it.
pub fn joined(a: Option<usize>, n: usize, b: Option<usize>) -> Option<usize>
    requires { n + number_of b ≤ 4294967296 }
    ensures value { result ≡ option_or a (option_map (λ k. n + k) b) }
    ensures line { (x y : ℕ) → a ≡ line_of x → b ≡ line_of y → result ≡ line_of (joined x n y) }
    ensures bound { number_of result ≤ number_of a + (n + number_of b) }
    ensures next { number_of a ≤ n → number_of result ≤ n + number_of b }
{
    a.or(onward(n, b))
}

// The first of the numbers from 1 to n that is not ok, or of the rows of a table with as many.
pub fn first_bad<F: Fn(usize) -> bool>(n: usize, ok: F) -> Option<usize>
    requires { (i : ℕ) → 1 ≤ i → i ≤ n → F.pre ok i }
    ensures { Finds (F.post ok) n result }
{
    (1..=n).find(
        |i|
            requires { F.pre ok i.now }
        { !ok(*i) },
    )
}
