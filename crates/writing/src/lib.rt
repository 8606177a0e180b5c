// Words and numbers written as bytes into a lent buffer, from a place on; each function answers the place behind what it wrote.
// stays: no plainer: `write!` of std answers an error where a buffer is too short, and here the room is asked for; so a place goes in, and the place behind comes out
#![tactic(auto)]

ghost use Rattle.std.specs.Prelude.{[], ◌∷◌, ◌++◌};
ghost use Rattle.texts.specs.Bytes.{LF};
ghost use Rattle.outputs.specs.Lines.{numeral};
ghost use Rattle.writing.specs.Wrote.{Room, Wrote};

// One byte.
pub fn write_byte(out: &mut [u8], at: usize, b: u8) -> usize
    requires { Room (b ∷ []) at out.old }
    ensures { Wrote (b ∷ []) at out.old result out.new }
{
    out[at] = b;
    at + 1
}

// The bytes of a word.
pub fn write_word(out: &mut [u8], at: usize, word: &[u8]) -> usize
    requires { Room word.now at out.old }
    ensures { Wrote word.now at out.old result out.new }
{
    let end = at + word.len();
    out[at..end].copy_from_slice(word);
    end
}

// The digits of a number: those of its tenth, and the last one behind them.
pub fn write_numeral(out: &mut [u8], at: usize, n: usize) -> usize
    requires { Room (numeral n) at out.old }
    ensures { Wrote (numeral n) at out.old result out.new }
{
    if n < 10 {
        return write_byte(out, at, b'0' + n as u8);
    }
    let last = write_numeral(out, at, n / 10);
    write_byte(out, last, b'0' + (n % 10) as u8)
}

// A key and the number that is its value.
pub fn write_field(out: &mut [u8], at: usize, key: &[u8], n: usize) -> usize
    requires { Room (key.now ++ numeral n) at out.old }
    ensures { Wrote (key.now ++ numeral n) at out.old result out.new }
{
    let value = write_word(out, at, key);
    write_numeral(out, value, n)
}

// A key, its value and the end of the line.
pub fn write_last(out: &mut [u8], at: usize, key: &[u8], n: usize) -> usize
    requires { Room (key.now ++ numeral n ++ LF ∷ []) at out.old }
    ensures { Wrote (key.now ++ numeral n ++ LF ∷ []) at out.old result out.new }
{
    let last = write_field(out, at, key, n);
    write_byte(out, last, b'\n')
}
