// Expressions worked out, in the store that the configuration's arrays hold. What comes out stands in specs/Evaluated.antt: the value's number, and
// the bits that the stars leave, in one number, so that a call of `eval` needs little of the stack.
// stays: may not change: evaluated, which reads these three arrays, the values from a place on, and has both numbers in one
#![tactic(auto)]

ghost use Rattle.std.specs.Prelude.{◌≡◌, ◌+◌, ◌*◌, ◌/◌, ◌%◌, ◌<◌, length, get_or};
ghost use Rattle.lists.specs.Lists.{All};
ghost use Rattle.values.specs.declared.Value.TheVariants.{Bool as vbool};
ghost use Rattle.values.specs.Values.{apply1, apply2};
ghost use Rattle.codes.specs.Codes.{code_of, value_of};
ghost use Rattle.programs.specs.Trees.{tip};
ghost use Rattle.evaluation.specs.Evaluated.{REST, store_in, packed, evaluated, Readable};

use codes::REST;
use programs::{Expr, Leaf};
use tables::Program;
use values::{Binary, Unary, Value};

// A value's number with the bits that are left.
fn pack(x: u64, rest: u64) -> u64
    requires { (x < REST) × (rest < 256) }
    ensures { result ≡ x + rest * REST }
{
    x + rest * REST
}

// The place of variable x among its machine's.
fn place(places: &[u8; Program::ALL_VARIABLES + 1], x: u16) -> usize
    requires { (length places.now ≡ 257) × All (λ n. n < 16) places.now }
    ensures { (result ≡ get_or places.now x 0) × (result < 16) }
{
    places.get(usize::from(x)).copied().map_or(0, usize::from)
}

// A bool's number.
fn bool_code(b: bool) -> u64
    ensures { (result ≡ code_of (vbool b)) × (result < REST) }
{
    codes::code(Value::Bool(b))
}

// What a leaf gives.
fn leaf_code(
    places: &[u8; Program::ALL_VARIABLES + 1],
    values: &[u64; (Program::VARIABLES + 3) * Program::ROOMS],
    at: usize,
    l: Leaf,
    w: u64,
) -> u64
    requires { Readable places.now values.now at × (w < 256) }
    ensures { result ≡ packed (store_in places.now values.now at) w (tip l) }
{
    match l {
        Leaf::Bot => pack(0, w),
        Leaf::Int(z) => pack(codes::code(Value::Int(z)), w),
        Leaf::Bool(b) => pack(bool_code(b), w),
        Leaf::Var(x) => pack(values[at + place(places, x)], w),
        Leaf::This => pack(values[at + Program::THIS], w),
        Leaf::Msg => pack(values[at + Program::MSG], w),
        Leaf::Arg => pack(values[at + Program::ARG], w),
        Leaf::Star => pack(bool_code(w % 2 == 1), w / 2),
    }
}

// What an operator gives of what its part gave.
fn unary_code(op: Unary, u: u64) -> u64
    requires { u / REST < 256 }
    ensures { result ≡ code_of (apply1 op (value_of (u % REST))) + u / REST * REST }
{
    pack(
        codes::code(values::apply1(op, codes::value_of(u % REST))),
        u / REST,
    )
}

// And of what its two parts gave.
fn binary_code(op: Binary, u: u64, v: u64) -> u64
    requires { v / REST < 256 }
    ensures { result ≡ code_of (apply2 op (value_of (u % REST)) (value_of (v % REST))) + v / REST * REST }
{
    pack(
        codes::code(values::apply2(op, codes::value_of(u % REST), codes::value_of(v % REST))),
        v / REST,
    )
}

// What expression e gives in the machine whose values start at place `at`, under the bits w. A part that is not lower gives undefined and takes no star.
pub fn eval(
    exprs: &[u32; 3 * (Program::EXPRESSIONS + 1)],
    places: &[u8; Program::ALL_VARIABLES + 1],
    values: &[u64; (Program::VARIABLES + 3) * Program::ROOMS],
    at: usize,
    e: usize,
    w: u64,
) -> u64
    requires { Readable places.now values.now at × (w < 256) }
    ensures { result ≡ evaluated exprs.now places.now values.now at e w }
{
    match terms::expr_at(exprs, e) {
        Expr::Leaf(l) => leaf_code(places, values, at, l, w),
        Expr::Unary(op, i) => {
            let i = usize::from(i);
            let u = if e <= i {
                w * REST
            } else {
                eval(exprs, places, values, at, i, w)
            };
            unary_code(op, u)
        }
        Expr::Binary(op, i, j) => {
            let i = usize::from(i);
            let j = usize::from(j);
            let u = if e <= i {
                w * REST
            } else {
                eval(exprs, places, values, at, i, w)
            };
            let rest = u / REST;
            let v = if e <= j {
                rest * REST
            } else {
                eval(exprs, places, values, at, j, rest)
            };
            binary_code(op, u, v)
        }
    }
}

// The number of the value of expression e in the machine of room k, under the bits w.
pub fn number(
    exprs: &[u32; 3 * (Program::EXPRESSIONS + 1)],
    places: &[u8; Program::ALL_VARIABLES + 1],
    values: &[u64; (Program::VARIABLES + 3) * Program::ROOMS],
    k: usize,
    e: u16,
    w: u64,
) -> u64
    requires { Readable places.now values.now (k * 19) × (w < 256) }
    ensures { result ≡ evaluated exprs.now places.now values.now (k * 19) e w % REST }
{
    let x = eval(
        exprs,
        places,
        values,
        k * (Program::VARIABLES + 3),
        usize::from(e),
        w,
    );
    x % REST
}
