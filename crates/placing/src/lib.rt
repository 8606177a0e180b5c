// THE REGROUPER'S ORDER: the choices of a list written as document 01 regroups them. A small table holds the machines that have choices not yet placed, a row each: its number and
// the place of the first of them. A machine's row is opened by its first private choice and closed by a meeting of its own, before which its choices are written; from the row's place on they
// are all the machine's choices, so that nothing is marked.
//
// COST. A row stands only for a machine that is live, since a machine's deletion is a meeting of its own: there are at most as many rows as live machines. Each choice looks for one row, so at most
// as many as there are live machines; the parts that a machine's meetings look through do not overlap, and lie within its life, so that together they have at most as many places as there are choices
// times live machines; and at the end each machine that is left looks through one part and over the rows. So the whole is at most proportional to choices times live machines.
#![tactic(auto)]

ghost use Rattle.std.specs.Prelude.{◌≡◌, List, [], ◌∷◌, ◌++◌, ℕ, ◌+◌, ◌-◌, ◌≤◌, ◌<◌, length, get_or, drop, MatchOption};
ghost use Rattle.std.proofs.lemmas.List.Edits.{sets};
ghost use Rattle.placing.specs.Placed.{owner_at, placed_list};
ghost use Rattle.placing.specs.Written.{of_machine, Room};
ghost use Rattle.placing.specs.Waiting.{Waiting};
ghost use Rattle.placing.specs.Closing.{FoundRow, Lowest, closed, Without};
ghost use Rattle.placing.specs.Weaving.{Lists, Weaving};
ghost use Rattle.placing.specs.Tailing.{Tails, Tailed};
ghost use Rattle.placing.specs.Ending.{Handed};

use tables::Program;

// The machines that have choices not yet placed, a row each: `used` rows from the front on. The numbers stand in an array of their own, which is what a search goes over.
// stays: no heap, fixed memory: the rows are two arrays, and how many of them are used
#[derive(Drop)]
struct Table {
    // the machine's number
    who: [u32; Program::CHOICES],
    // the place of its first choice not yet placed
    since: [usize; Program::CHOICES],
    used: usize,
    ghost bounded: { used ≤ 4096 },
}

impl Table {
    // No machine has a choice not yet placed.
    fn new() -> Table
        ensures who_long { length result.who ≡ 4096 }
        ensures since_long { length result.since ≡ 4096 }
        ensures none { result.used ≡ 0 }
    {
        Table {
            who: [0; Program::CHOICES],
            since: [0; Program::CHOICES],
            used: 0,
        }
    }

    // The row of machine k.
    fn find(&self, k: u32) -> Option<usize>
        ensures { FoundRow self.now.who self.now.used k result }
    {
        self.who[..self.used].iter().position(|&m| m == k)
    }

    // The row of the least number, where there is a row.
    fn lowest(&self) -> Option<usize>
        ensures { MatchOption result (self.now.used ≡ 0) (λ s. Lowest self.now.who self.now.used s) }
    {
        (0..self.used).min_by_key(|&s| self.who[s])
    }

    // Takes row s away, the last row is moved into its place, and returns the place that stood in it.
    fn close(&mut self, s: usize) -> usize
        requires { s < self.old.used }
        ensures value { result ≡ get_or self.old.since s 0 }
        ensures used_after { self.new.used ≡ self.old.used - 1 }
        ensures who_after { self.new.who ≡ closed self.old.who self.old.used s }
        ensures since_after { self.new.since ≡ closed self.old.since self.old.used s }
    {
        let first = self.since[s];
        let last = self.used - 1;
        self.who[s] = self.who[last];
        self.since[s] = self.since[last];
        self.used = last;
        first
    }

    // A private choice of machine k at place i: a row is opened for the machine where it has none.
    fn note(&mut self, k: u32, i: usize)
        requires { (self.old.used ≤ i) × (i < 4096) }
        ensures { (cs u : List ℕ) → Waiting cs i u self.old.who self.old.since self.old.used → i < length cs → owner_at cs i ≡ k →
            Waiting cs (i + 1) (u ++ get_or cs i 0 ∷ []) self.new.who self.new.since self.new.used }
    {
        if self.find(k).is_none() {
            self.who[self.used] = k;
            self.since[self.used] = i;
            self.used += 1;
        }
    }

    // Closes the row of machine k, if it has one, and returns the place of its first choice not yet placed: i where it has none.
    fn take(&mut self, k: u32, i: usize) -> usize
        ensures { (cs u : List ℕ) → Waiting cs i u self.old.who self.old.since self.old.used →
            Without cs i u k self.new.who self.new.since self.new.used result }
    {
        match self.find(k) {
            Some(s) => self.close(s),
            None => i,
        }
    }
}

// Writes machine k's choices from place `from` up to place `end` into the output, from `at` on, and returns the place behind them.
// stays: no plainer: a part of the list is given by its ends, as of_machine says it, and the output by its next place; so in the three below
fn write_part(choices: &[u32], k: u32, from: usize, end: usize, out: &mut [u32], at: usize) -> usize
    requires { Room choices.now k from end out.old at }
    ensures value { result ≡ at + length (of_machine choices.now k from end) }
    ensures out_after { out.new ≡ sets out.old at (of_machine choices.now k from end) }
{
    // stays: no plainer: two places move, one of them only at a choice of the machine
    let mut o = at;
    for &x in &choices[from..end] {
        if choices::machine_of(x).0 == k {
            out[o] = x;
            o += 1;
        }
    }
    o
}

// Writes the meetings among the choices before place `last`, each behind its machine's choices not yet placed, and returns the place behind them.
fn place_meetings(
    choices: &[u32],
    rules: &[u8; Program::CHOICES],
    table: &mut Table,
    out: &mut [u32],
    last: usize,
) -> usize
    requires last_bound { (last ≤ 4096) × Lists choices.now out.old last }
    requires who_len { (length table.old.who ≡ 4096) × (length table.old.since ≡ 4096) }
    requires none { table.old.used ≡ 0 }
    ensures { Weaving choices.now rules.now last out.old table.new.who table.new.since out.new last result table.new.used }
{
    let mut o = 0;
    for (i, &x) in choices[..last].iter().enumerate() {
        let k = choices::machine_of(x).0;
        if labels::is_meeting(rules[i]) {
            let first = table.take(k, i);
            o = write_part(choices, k, first, i + 1, out, o);
        } else {
            table.note(k, i);
        }
    }
    o
}

// Writes the choices of the machines that have rows, up to place `end`, machine by machine, by number, and returns the place behind them.
fn place_tails(choices: &[u32], table: &mut Table, out: &mut [u32], at: usize, end: usize) -> usize
    requires tails { Tails choices.now end table.old.who table.old.since table.old.used out.old at }
    ensures { (a : Tails choices.now end table.old.who table.old.since table.old.used out.old at) → Tailed a.u out.old at out.new result }
{
    let mut o = at;
    // stays: no plainer: each turn takes the least row away, and the rows are not gone through in order
    while let Some(s) = table.lowest() {
        let k = table.who[s];
        let first = table.close(s);
        o = write_part(choices, k, first, end, out, o);
    }
    o
}

// THE REGROUPED LIST, written from the output's front; rules has the number of the rule of each choice's step but the last's.
pub fn place(choices: &[u32], rules: &[u8; Program::CHOICES], out: &mut [u32])
    requires { Handed choices.now out.old }
    ensures { out.new ≡ placed_list choices.now rules.now ++ drop (length (placed_list choices.now rules.now)) out.old }
{
    let last = choices.len() - 1;
    let mut table = Table::new();
    let written = place_meetings(choices, rules, &mut table, out, last);
    let k = choices::machine_of(choices[last]).0;
    let first = table.take(k, last);
    let at = place_tails(choices, &mut table, out, written, last);
    write_part(choices, k, first, choices.len(), out, at);
}
