// Bytes from a reader, into a lent buffer, until it is full or they end.
#![tactic(auto)]

ghost use Rattle.std.specs.Prelude.{IfOk};
ghost use Rattle.input.specs.Counts.{IsPrefixLen};

use std::io;
use std::io::Read;

// Reads until buf is full or the reader ends, and returns how many bytes it put at the start of buf. On an empty buf it makes no call.
pub fn read_full<R: Read>(reader: &mut R, buf: &mut [u8]) -> io::Result<usize>
    ensures { IfOk result (λ n. IsPrefixLen n buf.new) }
{
    let mut done = 0;
    // stays: no plainer: a read may give fewer bytes than were asked for, so the place moves by what came
    while done < buf.len() {
        let n = reader.read(&mut buf[done..])?;
        if n == 0 {
            break;
        }
        done += n;
    }
    Ok(done)
}
