// A room's queue in the flat arrays: a pair put to its end, one taken out, and whether one would go in. A pair is its number, 16 places a room.
// stays: no plainer: these functions are lent the arrays that they touch, so that no contract need say that the others stay
// stays: may not change: QueueOk and Put, which speak of a count beside the places of all rooms' pairs
#![tactic(auto)]

ghost use Rattle.std.specs.Prelude.{◌≡◌, ◌+◌, ◌≤◌, ◌<◌, eqb, length, get_or};
ghost use Rattle.lists.specs.Lists.{any, is_some};
ghost use Rattle.rows.specs.Part.{part};
ghost use Rattle.queues.specs.Queues.{QueueOk, queue_at, put_number, Put, Removed};

use tables::Program;

// Whether x is one of the n numbers from place row on.
pub fn holds(pairs: &[u64; Program::ROOMS * Program::QUEUE], row: usize, n: usize, x: u64) -> bool
    requires { (length pairs.now ≡ 512) × (row + n ≤ 512) }
    ensures { result ≡ any (eqb x) (part row n pairs.now) }
{
    // stays: may not change: other_number_found, whose mistake is in how a number is compared
    pairs[row..row + n].iter().any(|&y| y == x)
}

// Whether x can be put to room i's queue: it waits already, or there is a place.
// stays: may not change: docs/CONTRACTS.md promises it, to callers that ask before they put
pub fn room_for(
    pairs: &[u64; Program::ROOMS * Program::QUEUE],
    waiting: &[usize; Program::ROOMS],
    i: usize,
    x: u64,
) -> bool
    requires { QueueOk pairs.now waiting.now i }
    ensures { result ≡ is_some (put_number (queue_at pairs.now waiting.now i) x) }
{
    let n = waiting[i];
    holds(pairs, i * Program::QUEUE, n, x) || n < Program::QUEUE
}

// Room i's queue ⊙ x; false where it is full, and then nothing is changed.
// stays: may not change: Put, in which true says that the pair waits
pub fn put_on(
    pairs: &mut [u64; Program::ROOMS * Program::QUEUE],
    waiting: &mut [usize; Program::ROOMS],
    i: usize,
    x: u64,
) -> bool
    requires { QueueOk pairs.old waiting.old i }
    ensures { Put pairs.old waiting.old i x result pairs.new waiting.new }
{
    let n = waiting[i];
    let row = i * Program::QUEUE;
    if holds(pairs, row, n, x) {
        return true;
    }
    if Program::QUEUE <= n {
        return false;
    }
    pairs[row + n] = x;
    waiting[i] = n + 1;
    true
}

// Takes pair k, counted from 0, out of room i's queue.
pub fn remove_on(
    pairs: &mut [u64; Program::ROOMS * Program::QUEUE],
    waiting: &mut [usize; Program::ROOMS],
    i: usize,
    k: usize,
)
    requires { QueueOk pairs.old waiting.old i × (k < get_or waiting.old i 0) }
    ensures { Removed pairs.old waiting.old i k pairs.new waiting.new }
{
    let row = i * Program::QUEUE;
    let last = waiting[i] - 1;
    pairs.copy_within(row + (k + 1)..row + (last + 1), row + k);
    pairs[row + last] = 0;
    waiting[i] = last;
}
