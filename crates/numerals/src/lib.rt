// Numbers in a part of a text. A number may have any length: it is cut to 4294967295, which is more than any size or range of the format.
#![tactic(auto)]

ghost use Rattle.std.specs.Prelude.{◌≡◌, ◌+◌, ◌-◌, ◌*◌, ◌≤◌, min, nat_eq};
ghost use Rattle.std.specs.List.{position};
ghost use Rattle.texts.specs.Numbers.{plain, decimal, signed};
ghost use Rattle.numerals.specs.Numerals.{CAP, capped, capped_int, positive, negative};
ghost use Rattle.numerals.specs.Splits.{Span, Until};

// Some digits, and no zero in front of another.
fn plain(d: &[u8]) -> bool
    ensures { result ≡ plain d.now }
{
    match d {
        [] => false,
        [_] => true,
        [b, ..] => *b != b'0',
    }
}

// A number with one more digit.
fn more(v: u32, b: u8) -> u32
    requires { (48 ≤ b) × (b ≤ 57) }
    ensures { result ≡ min (10 * v + (b - 48)) CAP }
{
    v.saturating_mul(10).saturating_add(u32::from(b - b'0'))
}

// The number that the bytes say, if they are a number; one above 32 bits is cut to the largest of them.
pub fn decimal(d: &[u8]) -> Option<u32>
    ensures { result ≡ capped (decimal d.now) }
{
    if !plain(d) {
        return None;
    }
    let mut v: u32 = 0;
    for &b in d {
        if !b.is_ascii_digit() {
            return None;
        }
        v = more(v, b);
    }
    Some(v)
}

// A number without a minus.
fn positive(n: Option<u32>) -> Option<i64>
    ensures { result ≡ positive n }
{
    n.map(i64::from)
}

// A number behind a minus: `-0` is none.
fn negative(n: Option<u32>) -> Option<i64>
    ensures { result ≡ negative n }
{
    n.filter(|&v| v != 0).map(|v| -i64::from(v))
}

// The number with a minus or without that the bytes say, if they are one.
pub fn signed(d: &[u8]) -> Option<i64>
    ensures { result ≡ capped_int (signed d.now) }
{
    match d {
        [b'-', digits @ ..] => negative(decimal(digits)),
        _ => positive(decimal(d)),
    }
}

// The place of the first byte c.
fn first(d: &[u8], c: u8) -> Option<usize>
    ensures { result ≡ position (λ b. nat_eq b c) d.now }
{
    d.iter().position(|&b| b == c)
}

// The place of the first byte c from place `from` on, up to place `to`; `to` where there is none.
// stays: no plainer: its callers cut the part up to there
pub fn until(d: &[u8], c: u8, from: usize, to: usize) -> usize
    requires { Span d.now from to }
    ensures { Until c d.now from to result }
{
    first(&d[from..to], c).map_or(to, |i| from + i)
}
