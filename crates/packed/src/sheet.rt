// Sheets and books. Judging refuses at the field that is wrong, so it takes field after field and can't go by the cursor, for which what is
// missing is zero: it shares the widths with it, and the way to the next sheet.
ghost use Rattle.std.specs.Prelude.{◌+◌, ◌*◌, ◌^◌, ◌<◌, ◌≤◌, length};
ghost use Rattle.packed.specs.Limits.{nodes_most, node_width, book_most, count_most, lead_width, count_width, pair_width};
ghost use Rattle.packed.specs.Format.{whole, decode, encode};
ghost use Rattle.packed.specs.Formats.{pairs, lists, sheet, book};
ghost use Rattle.packed.specs.ByValue.{Small};
ghost use Rattle.packed.specs.Reading.{Stands, ReadsTwo, ReadsPart, ReadsBytes, Judges};
ghost use Rattle.packed.specs.Writing.{NodeIn, WritesTwo, WritesPart, WritesBytes, JudgesFields};

use crate::reply::{File, Refusal, Wrong};
use crate::{bits, cursor, field, limits, workspace};

// The two nodes of a pair, into the words i and i + 1. Any 24 bits are right for them, so that these are taken at once.
fn read_pair(s: &[u8], at: usize, words: &mut [u32], i: usize) -> Result<(u32, u32), Refusal>
    requires { Stands s.now at i }
    ensures { ReadsTwo node_width nodes_most 3 s.now at words.old i 4 result words.new }
{
    if 8 * s.len() - at < limits::PAIR_BITS {
        return Err(Refusal::Truncated(File::Sheet));
    }
    let code = bits::get_bits(s, at, limits::PAIR_WIDTH);
    let from = code / limits::NODES;
    let to = code % limits::NODES;
    workspace::store(words, i, from);
    workspace::store(words, i + 1, to);
    Ok((from, to))
}

// So many pairs, ascending.
fn read_pairs(
    s: &[u8],
    start: usize,
    n: u32,
    words: &mut [u32],
    first: usize,
) -> Result<(usize, usize), Refusal>
    requires { Stands s.now start first }
    ensures { ReadsPart (pairs n 0) s.now start words.old first 4 result words.new }
{
    let mut at = start;
    let mut i = first;
    let mut least: u32 = 0;
    for _ in 0..n {
        let (a, b) = read_pair(s, at, words, i)?;
        let code = a * limits::NODES + b;
        if code < least {
            return Err(Refusal::NotAscending(File::Sheet));
        }
        least = code + 1;
        at += limits::PAIR_BITS;
        i += 2;
    }
    Ok((at, i))
}

// So many lists of a sheet, none of which is empty.
fn read_lists(
    s: &[u8],
    start: usize,
    m: u32,
    words: &mut [u32],
    first: usize,
) -> Result<(usize, usize), Refusal>
    requires { Stands s.now start first }
    ensures { ReadsPart (lists m) s.now start words.old first 4 result words.new }
{
    let mut at = start;
    let mut i = first;
    for _ in 0..m {
        let n = field::read_field(
            s,
            at,
            limits::COUNT_WIDTH,
            0,
            limits::COUNT_BOUND,
            Wrong::Range,
            File::Sheet,
            words,
            i,
        )?;
        if n == 0 {
            return Err(Refusal::ZeroCount(File::Sheet));
        }
        let (next, word) = read_pairs(s, at + limits::COUNT_BITS, n, words, i + 1)?;
        at = next;
        i = word;
    }
    Ok((at, i))
}

// A sheet for a pattern with m edges, up to its padding: its lead, and the lists that stand.
fn read_listing(
    s: &[u8],
    start: usize,
    m: u32,
    words: &mut [u32],
    first: usize,
) -> Result<(usize, usize), Refusal>
    requires { Stands s.now start first }
    ensures { ReadsPart (sheet m) s.now start words.old first 4 result words.new }
{
    let lead = field::read_field(
        s,
        start,
        limits::LEAD_WIDTH,
        0,
        limits::LEAD_BOUND,
        Wrong::Range,
        File::Sheet,
        words,
        first,
    )?;
    let k = cursor::standing(lead, m);
    read_lists(s, start + limits::LEAD_BITS, k, words, first + 1)
}

// A sheet from a byte on: the next byte and the next word.
fn read_sheet(
    s: &[u8],
    byte: usize,
    m: u32,
    words: &mut [u32],
    first: usize,
) -> Result<(usize, usize), Refusal>
    requires { Stands s.now (8 * byte) first }
    ensures { ReadsBytes (whole (sheet m)) s.now byte words.old first 4 result words.new }
{
    let (at, i) = read_listing(s, 8 * byte, m, words, first)?;
    if bits::is_clear(s, at) {
        Ok((cursor::byte_after(at), i))
    } else {
        Err(Refusal::Trailing(File::Sheet))
    }
}

// A whole sheet, a file of its own: its content goes to the front of the words as far as they go.
pub(crate) fn judge_sheet(s: &[u8], m: u32, words: &mut [u32]) -> Result<(usize, usize), Refusal>
    requires { length s.now ≤ book_most }
    ensures { Judges (decode (sheet m) s.now) 4 result words.old words.new }
{
    let (at, n) = read_listing(s, 0, m, words, 0)?;
    field::close_file(s, at, n, File::Sheet)
}

// A sheet for each number of edges, each on a byte.
fn read_sheets(s: &[u8], counts: &[u32], words: &mut [u32]) -> Result<(usize, usize), Refusal>
    requires { (length s.now ≤ book_most) × (length counts.now ≤ 16) }
    ensures { ReadsBytes (book counts.now) s.now 0 words.old 0 4 result words.new }
{
    let mut byte: usize = 0;
    let mut i: usize = 0;
    for &m in counts {
        let (next, word) = read_sheet(s, byte, m, words, i)?;
        byte = next;
        i = word;
    }
    Ok((byte, i))
}

// A whole book: its content goes to the front of the words as far as they go.
pub fn judge_book(s: &[u8], counts: &[u32], words: &mut [u32]) -> Result<(usize, usize), Refusal>
    requires { (length s.now ≤ book_most) × (length counts.now ≤ 16) }
    ensures { Judges (decode (book counts.now) s.now) 4 result words.old words.new }
{
    let (byte, n) = read_sheets(s, counts, words)?;
    field::close_file(s, 8 * byte, n, File::Sheet)
}

// The word i as a node of a pair.
fn node_at(words: &[u32], i: usize) -> Result<u32, Refusal>
    ensures { NodeIn words.now i result }
{
    if words.len() <= i {
        return Err(Refusal::Truncated(File::Sheet));
    }
    let v = words[i];
    if limits::NODES <= v {
        return Err(Refusal::OutOfRange(File::Sheet));
    }
    Ok(v)
}

// The words i and i + 1 as a pair, whose 24 bits are put at once.
fn write_pair(words: &[u32], i: usize, out: &mut [u8], at: usize) -> Result<(u32, u32), Refusal>
    requires { (i ≤ length words.now) × (at + 24 < 2 ^ 60) }
    ensures { WritesTwo node_width nodes_most 3 words.now i out.old at 4 result out.new }
{
    let from = node_at(words, i)?;
    let to = node_at(words, i + 1)?;
    bits::put_three(out, at, from * limits::NODES + to);
    Ok((from, to))
}

// So many pairs, ascending.
fn write_pairs(
    words: &[u32],
    first: usize,
    n: u32,
    out: &mut [u8],
    start: usize,
) -> Result<(usize, usize), Refusal>
    requires { (first ≤ length words.now) × (n ≤ count_most) × (start ≤ 2 ^ 40) }
    ensures { WritesPart (pairs n 0) words.now first out.old start (pair_width * n) 4 result out.new }
{
    let mut i = first;
    let mut at = start;
    let mut least: u32 = 0;
    for _ in 0..n {
        let (a, b) = write_pair(words, i, out, at)?;
        let code = a * limits::NODES + b;
        if code < least {
            return Err(Refusal::NotAscending(File::Sheet));
        }
        least = code + 1;
        i += 2;
        at += limits::PAIR_BITS;
    }
    Ok((at, i))
}

// So many lists of a sheet, none of which is empty, behind its lead.
fn write_lists(
    words: &[u32],
    first: usize,
    m: u32,
    out: &mut [u8],
) -> Result<(usize, usize), Refusal>
    requires { (first ≤ length words.now) × (m ≤ 32) }
    ensures { WritesPart (lists m) words.now first out.old lead_width ((count_width + pair_width * count_most) * m) 4 result out.new }
{
    let mut i = first;
    let mut at: usize = limits::LEAD_BITS;
    for _ in 0..m {
        let n = field::write_field(
            words,
            i,
            limits::COUNT_WIDTH,
            0,
            limits::COUNT_BOUND,
            Wrong::Range,
            File::Sheet,
            out,
            at,
        )?;
        if n == 0 {
            return Err(Refusal::ZeroCount(File::Sheet));
        }
        let (next, word) = write_pairs(words, i + 1, n, out, at + limits::COUNT_BITS)?;
        at = next;
        i = word;
    }
    Ok((at, i))
}

// A sheet for a pattern with m edges, up to its padding: its lead, and the lists that stand.
fn write_listing(
    words: &[u32],
    first: usize,
    m: u32,
    out: &mut [u8],
) -> Result<(usize, usize), Refusal>
    requires { (first ≤ length words.now) × (m ≤ 32) }
    ensures { WritesPart (sheet m) words.now first out.old 0 (lead_width + (count_width + pair_width * count_most) * m) 4 result out.new }
{
    let lead = field::write_field(
        words,
        first,
        limits::LEAD_WIDTH,
        0,
        limits::LEAD_BOUND,
        Wrong::Range,
        File::Sheet,
        out,
        0,
    )?;
    let k = cursor::standing(lead, m);
    write_lists(words, first + 1, k, out)
}

// A sheet at the front of out: the next byte and the next word.
fn write_sheet(
    words: &[u32],
    first: usize,
    m: u32,
    out: &mut [u8],
) -> Result<(usize, usize), Refusal>
    requires { (first ≤ length words.now) × (m ≤ 32) }
    ensures { WritesBytes (whole (sheet m)) words.now first out.old 0 800000 4 result out.new }
{
    let (at, i) = write_listing(words, first, m, out)?;
    let byte = field::write_padding(out, at);
    Ok((byte, i))
}

// A whole sheet, a file of its own: its bytes go to the front of out as far as it goes.
pub(crate) fn judge_sheet_fields(
    words: &[u32],
    m: u32,
    out: &mut [u8],
) -> Result<(usize, usize), Refusal>
    requires { m ≤ 32 }
    ensures { JudgesFields (encode (sheet m) words.now) 4 result out.old out.new }
{
    let (n, i) = write_sheet(words, 0, m, out)?;
    if i < words.len() {
        return Err(Refusal::Trailing(File::Sheet));
    }
    Ok((n, i))
}

// A sheet for each number of edges: the rest of the lent book, from the running byte on, is lent to the sheet's writer.
fn write_sheets(words: &[u32], counts: &[u32], out: &mut [u8]) -> Result<(usize, usize), Refusal>
    requires { (length counts.now ≤ 16) × Small counts.now }
    ensures { WritesBytes (book counts.now) words.now 0 out.old 0 12800000 4 result out.new }
{
    let mut i: usize = 0;
    let mut byte: usize = 0;
    for &m in counts {
        let from = field::within(byte, out.len());
        let (next, word) = write_sheet(words, i, m, &mut out[from..])?;
        byte += next;
        i = word;
    }
    Ok((byte, i))
}

// A whole book: its bytes go to the front of out as far as it goes.
pub(crate) fn judge_book_fields(
    words: &[u32],
    counts: &[u32],
    out: &mut [u8],
) -> Result<(usize, usize), Refusal>
    requires { (length counts.now ≤ 16) × Small counts.now }
    ensures { JudgesFields (encode (book counts.now) words.now) 4 result out.old out.new }
{
    let (n, i) = write_sheets(words, counts, out)?;
    if i < words.len() {
        return Err(Refusal::Trailing(File::Sheet));
    }
    Ok((n, i))
}
