// The patterns of an accepted file, one after the other, by value: the views of a catalogue, or the questions of one call.
ghost use Rattle.std.specs.Prelude.{◌*◌};
ghost use Rattle.packed.specs.Reading.{Stands};
ghost use Rattle.engine.specs.Matched.{ViewAt};

use packed::by_value::Pattern;
use packed::reply::File;
use packed::{by_value, pattern};

// A pattern, and the byte after it.
#[derive(Clone, Copy)]
pub struct View {
    pub pattern: Pattern,
    pub next: usize,
}

// The pattern that begins on a byte of such a file. Which file it is doesn't matter: where none is, the refusal is not told.
pub fn view_at(s: &[u8], byte: usize) -> View
    requires { Stands s.now (8 * byte) 0 }
    ensures { ViewAt s.now byte result }
{
    let mut words = [0u32; 114];
    let p = pattern::read_pattern(s, byte, File::Catalogue, &mut words, 0);
    match p {
        Ok((next, n)) => {
            let pattern = by_value::pattern_of(&words[0..n]);
            View { pattern, next }
        }
        Err(_) => {
            let pattern = by_value::no_pattern();
            View {
                pattern,
                next: byte,
            }
        }
    }
}
