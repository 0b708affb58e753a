// Patterns one after the other, each on a byte: the questions of one call, and a catalogue's views after their number.
ghost use Rattle.std.specs.Prelude.{◌≡◌, ◌*◌, ◌≤◌, length, get_or, replicate};
ghost use Rattle.packed.specs.Format.{times, whole, decode, encode};
ghost use Rattle.packed.specs.Formats.{pattern, patterns, catalogue};
ghost use Rattle.packed.specs.ByValue.{CountTable};
ghost use Rattle.packed.specs.Reading.{Stands, Room, ReadsBytesUpTo, Judges, JudgesUpTo};
ghost use Rattle.packed.specs.Writing.{WritesBytes, JudgesFields};
ghost use Rattle.packed.specs.Refusals.{file_number};

use crate::reply::{File, Refusal, Wrong};
use crate::{bits, field, limits, pattern};

// So many patterns, each on a byte, in the file so numbered.
fn read_patterns(
    s: &[u8],
    start: usize,
    number: u32,
    file: File,
    words: &mut [u32],
    first: usize,
) -> Result<(usize, usize), Refusal>
    requires { Stands s.now (8 * start) first × Room words.old first (114 * number) }
    ensures { ReadsBytesUpTo (114 * number) (patterns number) s.now start words.old first (file_number file) result words.new }
{
    let mut byte = start;
    let mut i = first;
    for _ in 0..number {
        let (next, word) = pattern::read_pattern(s, byte, file, words, i)?;
        byte = next;
        i = word;
    }
    Ok((byte, i))
}

// The questions of one call, so many: their content stands at the front of the words.
pub(crate) fn judge_questions(
    s: &[u8],
    number: u32,
    words: &mut [u32],
) -> Result<(usize, usize), Refusal>
    requires { (length s.now ≤ 65536) × Room words.old 0 (114 * number) }
    ensures { Judges (decode (patterns number) s.now) 1 result words.old words.new }
{
    let (byte, n) = read_patterns(s, 0, number, File::Pattern, words, 0)?;
    field::close_file(s, 8 * byte, n, File::Pattern)
}

// A catalogue's number and views.
fn read_views(s: &[u8], words: &mut [u32]) -> Result<(usize, usize), Refusal>
    requires { (length s.now ≤ 65536) × Room words.old 0 1825 }
    ensures { ReadsBytesUpTo 1825 catalogue s.now 0 words.old 0 2 result words.new }
{
    let number = field::read_field(
        s,
        0,
        limits::VIEWS_WIDTH,
        0,
        limits::VIEWS_BOUND,
        Wrong::Range,
        File::Catalogue,
        words,
        0,
    )?;
    if bits::is_clear(s, limits::VIEWS_BITS) {
        read_patterns(s, 1, number, File::Catalogue, words, 1)
    } else {
        Err(Refusal::Trailing(File::Catalogue))
    }
}

// A whole catalogue: its content stands at the front of the words.
pub(crate) fn judge_catalogue(s: &[u8], words: &mut [u32]) -> Result<(usize, usize), Refusal>
    requires { (length s.now ≤ 65536) × Room words.old 0 1825 }
    ensures { JudgesUpTo 1825 (decode catalogue s.now) 2 result words.old words.new }
{
    let (byte, n) = read_views(s, words)?;
    field::close_file(s, 8 * byte, n, File::Catalogue)
}

// So many patterns, each on a byte, in a catalogue: the rest of the lent bytes, from the running byte on, is lent to the pattern's writer.
fn write_patterns(
    words: &[u32],
    first: usize,
    number: u32,
    out: &mut [u8],
    start: usize,
) -> Result<(usize, usize), Refusal>
    requires { (first ≤ length words.now) × (number ≤ 16) × (start ≤ 1) }
    ensures { WritesBytes (times number (whole pattern)) words.now first out.old start (56 * number) 2 result out.new }
{
    let mut i = first;
    let mut byte = start;
    for _ in 0..number {
        let from = field::within(byte, out.len());
        let (next, word) = pattern::write_pattern(words, i, File::Catalogue, &mut out[from..])?;
        byte += next;
        i = word;
    }
    Ok((byte, i))
}

// A catalogue's number and views.
fn write_views(words: &[u32], out: &mut [u8]) -> Result<(usize, usize), Refusal>
    ensures { WritesBytes catalogue words.now 0 out.old 0 897 2 result out.new }
{
    let number = field::write_field(
        words,
        0,
        limits::VIEWS_WIDTH,
        0,
        limits::VIEWS_BOUND,
        Wrong::Range,
        File::Catalogue,
        out,
        0,
    )?;
    let byte = field::write_padding(out, limits::VIEWS_BITS);
    write_patterns(words, 1, number, out, byte)
}

// A whole catalogue: its bytes stand at the front of out as far as it goes.
pub(crate) fn judge_catalogue_fields(
    words: &[u32],
    out: &mut [u8],
) -> Result<(usize, usize), Refusal>
    ensures { JudgesFields (encode catalogue words.now) 2 result out.old out.new }
{
    let (n, i) = write_views(words, out)?;
    if i < words.len() {
        return Err(Refusal::Trailing(File::Catalogue));
    }
    Ok((n, i))
}

// The word i, or zero where there is none.
pub(crate) fn word_at(words: &[u32], i: usize) -> u32
    ensures { result ≡ get_or words.now i 0 }
{
    if i < words.len() { words[i] } else { 0 }
}

// How many edges each view of a catalogue has, by the content at the front of the words.
pub(crate) fn edge_counts(words: &[u32]) -> [u32; 16]
    ensures { CountTable words.now result }
{
    let mut counts = [0u32; 16];
    let number = word_at(words, 0);
    let mut i: usize = 1;
    for j in 0..field::within(number as usize, limits::VIEWS_MOST) {
        let nodes = word_at(words, i);
        let number = word_at(words, i + 1);
        counts[j] = number;
        i += 2 + nodes as usize + 3 * number as usize;
    }
    counts
}
