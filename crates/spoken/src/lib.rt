// What a line says, by the number of its form and the places of its values (specs/Spoken.antt), and what the functions that take a line into the loader's arrays
// share: a number of the line, the test of its own number, the kind of the line, and what such a function answers (specs/Took.antt).
// stays: may not change: line_at, which tells a line by the text, the number of its form and the places of its values: `row` and `at` here
#![tactic(auto)]

ghost use Rattle.std.specs.Prelude.{◌≡◌, List, ℕ, ◌<◌, min, drop};
ghost use Rattle.lists.specs.Lists.{on_opt};
ghost use Rattle.texts.specs.Numbers.{decimal};
ghost use Rattle.texts.specs.Reading.{kind, next};
ghost use Rattle.readers.specs.Words.{word};
ghost use Rattle.numerals.specs.Numerals.{CAP};
ghost use Rattle.spoken.specs.Spoken.{line_at};

// The number at a place of the text, cut; 0 where there is none.
// stays: no plainer: no caller asks which it was: the value was tested for a number, or its row of the tables has 0 there
pub fn number_at(s: &[u8], at: usize) -> u32
    ensures { result ≡ min (on_opt (decimal (word (drop at s.now))) 0 (λ n. n)) CAP }
{
    numerals::decimal(readers::field(s, at)).unwrap_or(0)
}

// A line's own number i comes next after n lines of its kind, of which there may be `size`.
pub fn is_next(size: usize, n: usize, i: u32) -> bool
    ensures { result ≡ next size n i }
{
    let own = i as usize;
    own != 0 && own - 1 == n && own <= size
}

// The kind of the lines in form number `row`, in the order in which the kinds come.
pub fn kind_of(row: usize) -> usize
    requires { row < 44 }
    ensures { (s places : List ℕ) → result ≡ kind (line_at s places row) }
{
    KINDS[row]
}

// The kind of each form's lines.
// stays: may not change: kind (texts, Reading), a number that in_order compares in the order in which document 02 has the kinds
const KINDS: [usize; 44] = [
    1, 1, 1, 1, 1, 2, 3, 3, 3, 3, 4, 4, 4, 4, 4, 4, 4, 4, 4, 4, 4, 4, 4, 4, 5, 5, 5, 5, 5, 5, 5, 5,
    5, 5, 5, 5, 6, 7, 8, 9, 10, 11, 12, 12,
];
