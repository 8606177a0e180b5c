// What a list says, in the tables of a program: the flags of a state's deferred events, and the pairs of a `new` in the pool.
#![tactic(auto)]

ghost use Rattle.std.specs.Prelude.{◌≡◌};
ghost use Rattle.lists.specs.Lists.{all, there};
ghost use Rattle.rows.specs.Part.{put};
ghost use Rattle.rows.specs.Seek.{table};
ghost use Rattle.programs.specs.Sizes.{EVENTS};
ghost use Rattle.listings.specs.Listings.{list_of};
ghost use Rattle.listed.specs.Flags.{Flaggable, flag_of};
ghost use Rattle.listed.specs.Pool.{Poolable, Pooled};

use listings::{Pieces, is_none, number_in, numbers_ok};
use numerals::until;
use tables::{Program, there};
use terms::short;

// Whether every event of a list can be one of a program's.
pub fn deferrable(d: &[u8]) -> bool
    ensures { result ≡ all (there EVENTS) (list_of d.now) }
{
    !numbers_ok(d)
        || is_none(d)
        || Pieces::of(d).all(|part| there(Program::EVENTS, number_in(part) as usize))
}

// Sets the flags of the events of a list, in the row of flags from place b on.
pub fn set_flags(
    d: &[u8],
    flags: &mut [u8; (Program::STATES + 1) * (Program::EVENTS + 1)],
    b: usize,
)
    requires { Flaggable d.now flags.old b }
    ensures { flags.new ≡ put b (table (flag_of (list_of d.now)) 0 65) flags.old }
{
    if is_none(d) {
        return;
    }
    for part in Pieces::of(d) {
        let n = number_in(part) as usize;
        flags[b + n] = 1;
    }
}

// Stores the pairs of a list in the pool, from pair n on. How many they are.
// stays: no heap, fixed memory: the pool, and how many pairs it has
pub fn put_pairs(d: &[u8], inits: &mut [u16; 2 * Program::PAIRS], n: usize) -> usize
    requires { Poolable d.now inits.old n }
    ensures { Pooled d.now inits.old n result inits.new }
{
    if is_none(d) {
        return 0;
    }
    // stays: no plainer: how many are stored is the answer
    let mut k: usize = 0;
    for part in Pieces::of(d) {
        let m = until(part, b':', 0, part.len());
        let at = (n + k) * 2;
        inits[at] = short(number_in(&part[..m]));
        inits[at + 1] = short(number_in(&part[m + 1..]));
        k += 1;
    }
    k
}
