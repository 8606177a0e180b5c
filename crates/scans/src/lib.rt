// A form scanned over a line of the text: whether the line is in the form, and the places of the values of its holes. The definitions stand in
// crates/shapes/specs/Scan.antt and in specs/.
// stays: may not change: scan and taken_at, which speak of the text and places in it: `at`, `b`, `a` and `e` here
#![tactic(auto)]

ghost use Rattle.std.specs.Prelude.{◌≡◌, true, [], ◌∷◌, drop};
ghost use Rattle.lists.specs.Lists.{is_some};
ghost use Rattle.texts.specs.Forms.{value_of};
ghost use Rattle.shapes.specs.Reads.{hole};
ghost use Rattle.shapes.specs.Scan.{zeros, scan};
ghost use Rattle.scans.specs.Fits.{taken_at, fit_of, Fitting};

// A word and a hole of a form: where the word begins, whether it is a value for the hole, and where it ends.
// stays: no plainer: where the word ends is said of a word that is no value too, so a Result would carry the same place on both sides
#[derive(Clone, Copy)]
pub struct Taken {
    pub at: usize,
    pub ok: bool,
    pub end: usize,
}

// '#', '~', '@' or '%'.
fn is_hole(c: u8) -> bool
    ensures { result ≡ hole c }
{
    matches!(c, b'#' | b'~' | b'@' | b'%')
}

// Whether the bytes are a value for the hole c.
fn takes(c: u8, d: &[u8]) -> bool
    requires { hole c ≡ true }
    ensures { result ≡ is_some (value_of (c ∷ []) d.now) }
{
    match c {
        b'#' => numerals::decimal(d).is_some(),
        b'~' => numerals::signed(d).is_some(),
        b'@' => listings::numbers_ok(d),
        _ => listings::pairs_ok(d),
    }
}

// The word at a place, and the hole c.
pub fn take(s: &[u8], at: usize, c: u8) -> Taken
    requires { hole c ≡ true }
    ensures { result ≡ taken_at c s.now at }
{
    let d = readers::field(s, at);
    let end = at + d.len();
    let ok = takes(c, d);
    Taken { at, ok, end }
}

// The same, where the word at one place is known for a number.
fn known(s: &[u8], at: usize, c: u8, first: Taken) -> Taken
    requires { (hole c ≡ true) × (first ≡ taken_at 35 s.now first.at) }
    ensures { result ≡ taken_at c s.now at }
{
    if c == b'#' && at == first.at {
        first
    } else {
        take(s, at, c)
    }
}

// The form that begins at b of t, scanned over the line from a to e of s: the places of the values of its holes, in order, where the line is in the form.
pub fn scan(t: &[u8], b: usize, s: &[u8], a: usize, e: usize, first: Taken) -> Option<[usize; 5]>
    requires { Fitting t.now b s.now e first }
    ensures { result ≡ fit_of (scan (drop b t.now) s.now e a 0 zeros) }
{
    let mut i = a;
    // stays: no heap, fixed memory: the places, and how many there are so far
    let mut n: usize = 0;
    let mut at = [0usize; 5];
    let form = t.get(b..)?;
    for &c in form {
        if c == b'\n' {
            return (i == e).then_some(at);
        }
        if is_hole(c) {
            let w = known(s, i, c, first);
            if !w.ok {
                return None;
            }
            at[n] = i;
            n += 1;
            i = w.end;
        } else if i < e && s[i] == c {
            i += 1;
        } else {
            return None;
        }
    }
    None
}
