// Files by a name and an ending, read to their end into a lent buffer.
// stays: no heap: a buffer is the caller's, and how many bytes of it are used is answered
ghost use Rattle.std.specs.Prelude.{◌≡◌, length, IfOk, IfSome};
ghost use Rattle.input.specs.Counts.{IsPrefixLen};
ghost use Rattle.handed_runs.specs.HandedRuns.{fronted};
ghost use Rattle.sessions.specs.FileName.{file_name};

use std::io::Read;
use std::rt::Files;
use std::{fs, io, str};

// A path has no more bytes than this.
const PATH: usize = 4096;

// The name of a file, from the front of a buffer on; and its length.
fn name_file(name: &[u8], ending: &[u8], path: &mut [u8]) -> usize
    ensures value { result ≡ length (file_name name.now ending.now (length path.old)) }
    ensures path_after { path.new ≡ fronted (file_name name.now ending.now (length path.old)) path.old }
{
    if path.len() < name.len() || path.len() - name.len() < ending.len() {
        return 0;
    }
    let place = writing::write_word(path, 0, name);
    writing::write_word(path, place, ending)
}

// Whether an open file has nothing left. A read that fails is no end.
fn at_end(file: &mut impl Read) -> bool {
    let mut next = [0u8; 1];
    matches!(file.read(&mut next), Ok(0))
}

// How many bytes the file at a path has, which are then at the front of the buffer; none where it is longer than the buffer.
fn read_path(rt: &impl Files, path: &str, buf: &mut [u8]) -> io::Result<Option<usize>>
    ensures { IfOk result (λ o. IfSome o (λ n. IsPrefixLen n buf.new)) }
{
    let mut file = fs::open(rt, path)?;
    let size = input::read_full(&mut file, buf)?;
    Ok(at_end(&mut file).then_some(size))
}

// How many bytes a file has, which are then at the front of the buffer. None of one that cannot be opened or read, or that is longer than the buffer.
pub fn read_file(rt: &impl Files, name: &[u8], ending: &[u8], buf: &mut [u8]) -> Option<usize>
    ensures { IfSome result (λ n. IsPrefixLen n buf.new) }
{
    let mut path = [0u8; PATH];
    let length = name_file(name, ending, &mut path);
    let path = str::from_utf8(&path[..length]).ok()?;
    read_path(rt, path, buf).ok()?
}
