// A run of elements copied from one slice into another.
#![tactic(auto)]

ghost use Rattle.std.specs.Prelude.{◌≡◌};
ghost use Rattle.rows.specs.Part.{part, put};
ghost use Rattle.copies.specs.Copies.{Within};

// The n elements from place a of `from` on, stored from place b of `to` on.
// stays: may not change: copy, which names both runs by their places and their length
pub fn copy<T: Copy>(to: &mut [T], b: usize, from: &[T], a: usize, n: usize)
    requires { Within to.old b from.now a n }
    ensures { to.new ≡ put b (part a n from.now) to.old }
{
    // stays: may not change: one_number_for_all, whose mistake is in the place that a turn reads from
    for e in 0..n {
        to[b + e] = from[a + e];
    }
}
