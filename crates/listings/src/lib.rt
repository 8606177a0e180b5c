// Lists in a part of a text: `defer` and `init`. Numbers of any length are compared by their digits.
#![tactic(auto)]

ghost use Rattle.std.specs.Prelude.{◌≡◌, List, ℕ, Option, Some, None, min, ltb, true, option_map, IfSome};
ghost use Rattle.std.specs.Borrow.{Bor};
ghost use Rattle.std.specs.Iterator.{YieldsFirstBy, item_count};
ghost use Rattle.lists.specs.Lists.{is_some};
ghost use Rattle.texts.specs.Bytes.{split};
ghost use Rattle.texts.specs.Numbers.{decimal, numbers, pairs};
ghost use Rattle.numerals.specs.Numerals.{CAP};
ghost use Rattle.listings.specs.Listings.{is_none, number_of};
ghost use Rattle.listings.specs.Order.{Numbers};
ghost use Rattle.listings.specs.Pieces.{pieces_left};
ghost use Rattle.listings.specs.Rising.{rising, number_key, variable_key};

use numerals::{decimal, until};

// The parts of a list between its commas, from the first to the last: what is left of the list.
#[derive(Drop)]
pub struct Pieces<'a> {
    rest: Option<&'a [u8]>,
}

impl<'a> Pieces<'a> {
    // All parts of a list.
    pub fn of(d: &'a [u8]) -> Pieces<'a>
        ensures { pieces_left result ≡ split 44 d.entry.now }
    {
        Pieces { rest: Some(d) }
    }
}

impl<'a> Iterator for Pieces<'a> {
    type Item = &'a [u8];

    ghost next_gives = { YieldsFirstBy (λ x. x.now) pieces_left };

    ghost remaining = { item_count pieces_left };

    fn next(&mut self) -> Option<&'a [u8]> {
        let d = self.rest?;
        let e = until(d, b',', 0, d.len());
        self.rest = d.get(e + 1..);
        Some(&d[..e])
    }
}

// Whether the bytes are `none`.
pub fn is_none(d: &[u8]) -> bool
    ensures { result ≡ is_none d.now }
{
    d == b"none".as_slice()
}

// The number that the bytes are, cut; 0 where they are none.
// stays: no plainer: no caller asks which it was: the part that it is asked of was tested for a number
pub fn number_in(d: &[u8]) -> u32
    ensures { result ≡ min (number_of d.now) CAP }
{
    decimal(d).unwrap_or(0)
}

// Whether the number p is below the number q: the shorter is, and of one length the one with the first smaller digit.
fn below(p: &[u8], q: &[u8]) -> bool
    requires { Numbers p.now q.now }
    ensures { result ≡ ltb (number_of p.now) (number_of q.now) }
{
    p.len().cmp(&q.len()).then_with(|| p.cmp(q)).is_lt()
}

// The number by which a part ascends: of a number all of it. None where the part is no number.
fn number(part: &[u8]) -> Option<&[u8]>
    ensures { option_map (λ x. x.now) result ≡ number_key part.now }
{
    decimal(part).is_some().then_some(part)
}

// Of a pair, as `3:7`, the number in front of its colon. None where the part is no pair.
fn variable(part: &[u8]) -> Option<&[u8]>
    ensures key { option_map (λ x. x.now) result ≡ variable_key part.now }
    ensures digits { IfSome result (λ x. is_some (decimal x.now) ≡ true) }
{
    let m = until(part, b':', 0, part.len());
    let x = &part[..m];
    let y = part.get(m + 1..)?;
    decimal(x)?;
    decimal(y)?;
    Some(x)
}

// Whether each part of a list has a key, which is above that of the part before.
fn ascends<'a, F: Fn(&'a [u8]) -> Option<&'a [u8]>>(d: &'a [u8], key: F) -> bool
    requires callable { F.IsAlwaysCallable key }
    requires digits { (x k : Bor (List ℕ)) → F.post key x (Some k) → is_some (decimal k.now) ≡ true }
    ensures { (keyed : List ℕ → Option (List ℕ)) → ((x : Bor (List ℕ)) (r : Option (Bor (List ℕ))) → F.post key x r → option_map (λ k. k.now) r ≡ keyed x.now)
        → result ≡ rising keyed None (split 44 d.entry.now) }
{
    let mut last: Option<&[u8]> = None;
    for part in Pieces::of(d) {
        let Some(next) = key(part) else {
            return false;
        };
        if last.is_some_and(|p| !below(p, next)) {
            return false;
        }
        last = Some(next);
    }
    true
}

// Whether the bytes are a list of numbers that ascend.
pub fn numbers_ok(d: &[u8]) -> bool
    ensures { result ≡ is_some (numbers d.now) }
{
    is_none(d) || ascends(d, number)
}

// Whether the bytes are a list of pairs whose variables ascend.
pub fn pairs_ok(d: &[u8]) -> bool
    ensures { result ≡ is_some (pairs d.now) }
{
    is_none(d) || ascends(d, variable)
}
