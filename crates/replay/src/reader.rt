// Bytes of the cases, from whatever they are read from.
ghost use Rattle.std.specs.Prelude.{length, IfOk, ◌≤◌};

use std::io;
use std::io::{ErrorKind, Read};

// Reads until s is full or the cases end: how many bytes went to its start. A read that a signal interrupts is made again.
// Not one with `read_full` of `folder`, which takes an error for the end and is made for files that a program asks for by name.
pub fn read_full<R: Read>(cases: &mut R, s: &mut [u8]) -> io::Result<usize>
    ensures { IfOk result (λ n. n ≤ length s.new) }
{
    let mut done: usize = 0;
    for _ in 0..u64::MAX {
        if s.len() <= done {
            break;
        }
        match cases.read(&mut s[done..]) {
            Ok(0) => break,
            Ok(n) => done += n,
            Err(e) => {
                if e.kind() != ErrorKind::Interrupted {
                    return Err(e);
                }
            }
        }
    }
    Ok(done)
}
