// Values, their types and the operators on them. What they mean stands in specs/Values.antt.
#![tactic(auto)]

ghost use Rattle.std.specs.Prelude.{◌≡◌};
ghost use Rattle.values.specs.Values.{checked, apply1, apply2, suits};
ghost use Rattle.values.specs.Words.{int_of};

// A live machine's number: the wrapping keeps it apart from a machine kind's.
#[repr(C)]
#[derive(Clone, Copy, Debug, PartialEq, Eq)]
pub struct Live(pub u32);

#[derive(Clone, Copy, Debug, PartialEq, Eq)]
pub enum Ty {
    Void,
    Bool,
    Int,
    Event,
    Id,
}

#[derive(Clone, Copy, Debug, PartialEq, Eq)]
pub enum Value {
    Undefined,
    Bool(bool),
    Int(i32),
    Event(u8),
    Id(Live),
}

#[derive(Clone, Copy, Debug, PartialEq, Eq)]
pub enum Unary {
    Not,
    Neg,
}

#[derive(Clone, Copy, Debug, PartialEq, Eq)]
pub enum Binary {
    Add,
    Sub,
    And,
    Or,
}

// The number where it is an int, else undefined.
pub fn checked(z: i64) -> Value
    ensures { result ≡ checked z }
{
    match i32::try_from(z) {
        Ok(a) => Value::Int(a),
        Err(_) => Value::Undefined,
    }
}

// What the operator gives of one value. A negative is worked out in 64 bits, so that it does not wrap.
pub fn apply1(op: Unary, x: Value) -> Value
    ensures { result ≡ apply1 op x }
{
    match (op, x) {
        (Unary::Not, Value::Bool(a)) => Value::Bool(!a),
        (Unary::Neg, Value::Int(a)) => checked(-i64::from(a)),
        _ => Value::Undefined,
    }
}

// And of two: sums and differences in 64 bits too, `and` and `or` of both sides.
pub fn apply2(op: Binary, x: Value, y: Value) -> Value
    ensures { result ≡ apply2 op x y }
{
    match (op, x, y) {
        (Binary::Add, Value::Int(a), Value::Int(b)) => checked(i64::from(a) + i64::from(b)),
        (Binary::Sub, Value::Int(a), Value::Int(b)) => checked(i64::from(a) - i64::from(b)),
        (Binary::And, Value::Bool(a), Value::Bool(b)) => Value::Bool(a & b),
        (Binary::Or, Value::Bool(a), Value::Bool(b)) => Value::Bool(a | b),
        _ => Value::Undefined,
    }
}

// Whether the value may stand where the type is wanted: undefined always, any other of its own type only.
pub fn suits(t: Ty, v: Value) -> bool
    ensures { result ≡ suits t v }
{
    match v {
        Value::Undefined => true,
        Value::Bool(_) => t == Ty::Bool,
        Value::Int(_) => t == Ty::Int,
        Value::Event(_) => t == Ty::Event,
        Value::Id(_) => t == Ty::Id,
    }
}

// The word of the int 0: words count the ints from the lowest upward.
pub const WORD_OF_ZERO: i64 = 2147483648;

// The int that a word stands for.
// stays: no plainer: a word counts from the lowest int, so that it is not the i32 of a cast or a From
pub fn int_of(x: u32) -> i32
    ensures { result ≡ int_of x }
{
    (i64::from(x) - WORD_OF_ZERO) as i32
}
