// Three of the tests of a sound program. Answer 2, as far as 20 names it: no void variable, and every list ascending. Answer 3: the sizes. Answer 9: every
// kind has a state.
#![tactic(auto)]

ghost use Rattle.std.specs.Prelude.{◌≡◌, ◌<◌, List, map, ℕ, eqb, leb, length, get_or};
ghost use Rattle.lists.specs.Lists.{any, keep, up_to};
ghost use Rattle.programs.specs.Program.{Program as Lines, is_of, variables_of as variables_of_kind};
ghost use Rattle.soundness.specs.Asked.{ascending, init_of, orderly};
ghost use Rattle.soundness.specs.Sound.{meets, sized, stateful};
ghost use Rattle.tables.specs.Decode.{variables_of, pairs_of, stmt_of, stmts_of, states_of};
ghost use Rattle.faults.specs.Faults.{row_fault};
ghost use Rattle.faults.specs.Read.{Tabled};

use faults::first_bad;
use tables::{
    Head, Kind, Program, rows_from, state_count, state_kind, stmt_count, variable_count,
    variable_kind, variable_type,
};
use terms::stmt_at;
use values::Ty;

// No variable is void. Linear in the variables.
fn none_void(program: &Program) -> bool
    ensures { (p : Lines) → p.variables ≡ variables_of program.now.variable_of program.now.variable_type → result ≡ eqb (row_fault orderly.variable p.variables) 0 }
{
    first_bad(variable_count(&program.variable_of), |x| {
        variable_type(&program.variable_of, &program.variable_type, x) != Ty::Void
    })
    .is_none()
}

// The variables of the n pairs of an init list from place i on are ascending. Linear in the pairs.
// stays: no plainer: i and n are the two numbers that a `new` holds; a slice would have to be cut by each caller, at the pool's end too
fn pairs_ascend(inits: &[u16; 2 * Program::PAIRS], i: usize, n: usize) -> bool
    ensures { result ≡ ascending (map (λ xe. xe.0) (pairs_of inits.now i n)) }
{
    (1..rows_from(Program::PAIRS, i, n)).all(|j| inits[(i + (j - 1)) * 2] < inits[(i + j) * 2])
}

// The variables of a statement's init list are ascending. Linear in its pairs.
fn stmt_ascends(h: Head, inits: &[u16; 2 * Program::PAIRS]) -> bool
    ensures { result ≡ ascending (map (λ xe. xe.0) (init_of (stmt_of inits.now h))) }
{
    let Head::New(_, _, i, n) = h else {
        return true;
    };
    pairs_ascend(inits, usize::from(i), usize::from(n))
}

// Every init list is ascending. Linear in the statements and their pairs.
fn all_ascend(program: &Program) -> bool
    ensures { (p : Lines) → p.stmts ≡ stmts_of program.now.stmts program.now.inits → result ≡ eqb (row_fault orderly.stmt p.stmts) 0 }
{
    first_bad(stmt_count(&program.stmts), |s| {
        stmt_ascends(stmt_at(&program.stmts, s), &program.inits)
    })
    .is_none()
}

// ANSWER 2, as far as 20 names it: no variable is void, and every list is ascending. (What a state defers always is.) Linear in the variables, the
// statements and their pairs.
pub fn orderly(program: &Program) -> bool
    ensures { (p : Lines) (states entries exits flags : List ℕ) → p.variables ≡ variables_of program.now.variable_of program.now.variable_type → p.stmts ≡ stmts_of program.now.stmts program.now.inits → p.states ≡ states_of states entries exits flags → result ≡ (meets p orderly).test }
{
    none_void(program) && all_ascend(program)
}

// How many variables are of the kind. Linear in the variables.
pub fn variables_of(kinds: &[u16; Program::ALL_VARIABLES + 1], kind: usize) -> usize
    ensures { (types : List ℕ) → result ≡ length (keep (is_of kind) (variables_of kinds.now types)) }
{
    (1..variable_count(kinds) + 1)
        .filter(|&x| usize::from(variable_kind(kinds, x).0) == kind)
        .count()
}

// No kind has too many variables. Linear in the kinds times the variables.
fn kinds_fit(kinds: u8, owners: &[u16; Program::ALL_VARIABLES + 1]) -> bool
    ensures { (p : Lines) (types : List ℕ) → p.variables ≡ variables_of owners.now types → result ≡ up_to kinds (λ k. leb (length (variables_of_kind p k)) 16) }
{
    let n = usize::from(kinds);
    first_bad(n, |k| variables_of(owners, k) <= Program::VARIABLES).is_none()
}

// Each word is one of 32 bits: what is known of the expressions' numbers, whatever they are.
fn in_words(words: &[u32])
    ensures { (i : ℕ) → get_or words.now i 0 < 4294967296 }
{}

// ANSWER 3, as far as 20 names it: the kinds and the variables of each. (No other size can be passed in tables, and each int that a word stands for is in
// range.) Linear in the kinds times the variables.
// stays: may not change: it was promised of expressions in a slice of any length, which a Program's table is not
pub fn sized(kinds: u8, owners: &[u16; Program::ALL_VARIABLES + 1], exprs: &[u32]) -> bool
    ensures { (p : Lines) (types holds stmts inits actors bodies states entries exits flags : List ℕ) → Tabled p types kinds owners.now holds exprs.now stmts inits actors bodies states entries exits flags → result ≡ (sized p).test }
{
    in_words(exprs);
    usize::from(kinds) <= Program::KINDS && kinds_fit(kinds, owners)
}

// Kind k has a state. Linear in the states.
fn has_state(program: &Program, k: Kind) -> bool
    ensures { (entries exits flags : List ℕ) → result ≡ any (λ q. eqb q.of k.0) (states_of program.now.state_of entries exits flags) }
{
    (1..=state_count(&program.state_of)).any(|q| state_kind(&program.state_of, q) == k)
}

// ANSWER 9: every kind has a state. Linear in the kinds times the states.
pub fn stateful(program: &Program) -> bool
    ensures { (p : Lines) (entries exits flags : List ℕ) → p.machines ≡ program.now.kinds → p.states ≡ states_of program.now.state_of entries exits flags → result ≡ (stateful p).test }
{
    (1..=program.kinds).all(|k| has_state(program, Kind(k)))
}
