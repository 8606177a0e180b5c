// The reader over the lent text: a struct of the text and a position, which hands out each value as the part of the text that it occupies. What a
// value is stands in specs/Words.antt.
#![tactic(auto)]

ghost use Rattle.std.specs.Prelude.{◌≡◌, ◌+◌, length, drop};
ghost use Rattle.std.specs.List.{position};
ghost use Rattle.readers.specs.Words.{word, gap};

// The text, and the place in it where the reader stands.
// stays: may not change: the clauses of `value`, `end` and `field`, which speak of the text and a place in it
#[derive(Clone, Copy)]
pub struct LineReader<'a> {
    pub text: &'a [u8],
    pub at: usize,
}

// The place of the first space or LF.
fn first_gap(s: &[u8]) -> Option<usize>
    ensures { result ≡ position gap s.now }
{
    s.iter().position(|&b| b == b' ' || b == b'\n')
}

// The word at the front of the text.
fn word(s: &[u8]) -> &[u8]
    ensures { result.now ≡ word s.now }
{
    &s[..first_gap(s).unwrap_or(s.len())]
}

impl<'a> LineReader<'a> {
    // A reader that stands at a place.
    pub fn new(text: &'a [u8], at: usize) -> LineReader<'a>
        ensures { (result.text ≡ text.entry) × (result.at ≡ at) }
    {
        LineReader { text, at }
    }

    // The value that the reader stands at.
    pub fn value(self) -> &'a [u8]
        ensures { result.now ≡ word (drop self.entry.at self.entry.text.now) }
    {
        match self.text.get(self.at..) {
            Some(rest) => word(rest),
            None => &[],
        }
    }

    // Where it ends.
    pub fn end(self) -> usize
        ensures { result ≡ self.entry.at + length (word (drop self.entry.at self.entry.text.now)) }
    {
        self.at + self.value().len()
    }
}

// The value at a place, by the reader.
pub fn field(s: &[u8], at: usize) -> &[u8]
    ensures { result.now ≡ word (drop at s.now) }
{
    LineReader::new(s, at).value()
}
