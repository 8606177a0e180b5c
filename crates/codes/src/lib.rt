// Values as numbers, for arrays. What the numbers mean stands in specs/Codes.antt.
// stays: no plainer: a From would have to stand with the types, in crates/values, away from the arrays that these numbers are for
#![tactic(auto)]

ghost use Rattle.std.specs.Prelude.{◌≡◌, ◌+◌, ◌*◌, ◌%◌};
ghost use Rattle.codes.specs.Codes.{tagged, int_code, code_of, value_of, canonical};
ghost use Rattle.codes.specs.Pairs.{pair_event};

use values::{Live, Value, WORD_OF_ZERO, int_of};

// Above all that a value of one kind holds: where the kind begins in a value's number.
pub const KIND: u64 = 4294967296;

// Above every value's number: where the bits begin in what an expression gives,
pub const REST: u64 = 1099511627776;

// and the event in the number of a pair.
pub const EVENT: u64 = REST;

// The number of the kind k that holds n.
fn tagged(k: u8, n: u32) -> u64
    ensures { result ≡ tagged k n }
{
    u64::from(k) * KIND + u64::from(n)
}

// An int from 0 upward.
fn int_code(z: i32) -> u32
    ensures { result ≡ int_code z }
{
    (i64::from(z) + WORD_OF_ZERO) as u32
}

// The number of a value.
pub fn code(v: Value) -> u64
    ensures { result ≡ code_of v }
{
    match v {
        Value::Undefined => 0,
        Value::Bool(b) => tagged(1, u32::from(b)),
        Value::Int(z) => tagged(2, int_code(z)),
        Value::Event(e) => tagged(3, u32::from(e)),
        Value::Id(i) => tagged(4, i.0),
    }
}

// The value of a number: undefined where the number has no kind.
#[tactic(auto, unfolding(crate::specs::Codes::value_of))]
pub fn value_of(x: u64) -> Value
    ensures { result ≡ value_of x }
{
    let n = (x % KIND) as u32;
    match x / KIND {
        1 => Value::Bool(n == 1),
        2 => Value::Int(int_of(n)),
        3 => Value::Event((x % 256) as u8),
        4 => Value::Id(Live(n)),
        _ => Value::Undefined,
    }
}

// Whether the number is some value's.
pub fn canonical(x: u64) -> bool
    ensures { result ≡ canonical x }
{
    code(value_of(x)) == x
}

// The number of a pair: event e, with the value whose number is x. What stands above a value's number in x is left out.
pub fn pair_number(e: u8, x: u64) -> u64
    ensures { result ≡ e * 1099511627776 + x % 1099511627776 }
{
    u64::from(e) * EVENT + x % EVENT
}

// The event of the pair with number x.
pub fn event_of(x: u64) -> usize
    ensures { result ≡ pair_event x }
{
    (x / EVENT) as usize
}
