// Prints a quote, line by line.
ghost use Rattle.std.specs.Prelude.{◌≡◌, ◌≤◌, length, take};
ghost use Rattle.containment.specs.Listing.{line_of};

use crate::lines;
use containment::quote_type::Quote;
use std::io;

// Line k at the front of the buffer, and its length. The buffer takes every line, so none is refused.
fn put_line(q: Quote, k: usize, buf: &mut [u8]) -> usize
    requires { length buf.old ≡ 4096 }
    ensures { (take result buf.new ≡ line_of q k) × (result ≤ 4096) }
{
    let Ok(n) = lines::line(q, k, buf) else {
        return 0;
    };
    n
}

// Prints line k, and answers whether there is one.
fn print_line(rt: &impl Print, q: Quote, k: usize) -> io::Result<bool> {
    let mut buf = [0; 4096];
    let n = put_line(q, k, &mut buf);
    if n == 0 {
        return Ok(false);
    }
    rt.write_all(&buf[..n])?;
    Ok(true)
}

// A quote has at most 34 lines.
pub fn quote(rt: &impl Print, q: Quote) -> io::Result<()> {
    for k in 0..64 {
        if !print_line(rt, q, k)? {
            break;
        }
    }
    Ok(())
}
