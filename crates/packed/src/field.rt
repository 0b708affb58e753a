// One field of a file, two of a kind, an edge, and the end of a file.
//
// The bytes and the words are lent beside the two places. A struct of the four would hold a `&mut`, and each clause would have to say that the loans in it stay
// and where the places went, which now the result says.
ghost use Rattle.std.specs.Prelude.{◌≡◌, ◌+◌, ◌*◌, ◌^◌, ◌<◌, ◌≤◌, min, length, IfOk};
ghost use Rattle.std.proofs.lemmas.List.Edits.{sets};
ghost use Rattle.packed.specs.Bits.{bits, bits_of, gap};
ghost use Rattle.packed.specs.Refusals.{file_number, wrong_number};
ghost use Rattle.packed.specs.Reading.{Stands, ReadsField, ReadsTwo, ReadsEdge, Closes};
ghost use Rattle.packed.specs.Writing.{WritesField, WritesTwo, WritesEdge};

use crate::reply::{File, Refusal, Wrong};
use crate::{bits, limits, workspace};

// The field of so many bits at the bit offset at, at least low and below bound, into the word i.
pub fn read_field(
    s: &[u8],
    at: usize,
    width: u32,
    low: u32,
    bound: u64,
    wrong: Wrong,
    file: File,
    words: &mut [u32],
    i: usize,
) -> Result<u32, Refusal>
    requires { Stands s.now at i × (1 ≤ width) × (width ≤ 32) }
    ensures { ReadsField width low bound (wrong_number wrong) s.now at words.old i (file_number file) result words.new }
{
    if 8 * s.len() - at < width as usize {
        return Err(Refusal::Truncated(file));
    }
    let v = bits::get_bits(s, at, width);
    if v < low {
        return Err(wrong.of(file));
    }
    if bound <= v as u64 {
        return Err(wrong.of(file));
    }
    workspace::store(words, i, v);
    Ok(v)
}

// Two fields of so many bits, each below bound, into the words i and i + 1.
pub fn read_two(
    s: &[u8],
    at: usize,
    width: u32,
    bound: u64,
    wrong: Wrong,
    file: File,
    words: &mut [u32],
    i: usize,
) -> Result<(u32, u32), Refusal>
    requires { Stands s.now at i × (1 ≤ width) × (width ≤ 32) }
    ensures { ReadsTwo width bound (wrong_number wrong) s.now at words.old i (file_number file) result words.new }
{
    let a = read_field(s, at, width, 0, bound, wrong, file, words, i)?;
    let b = read_field(
        s,
        at + width as usize,
        width,
        0,
        bound,
        wrong,
        file,
        words,
        i + 1,
    )?;
    Ok((a, b))
}

// An edge between so many nodes, whose ends have so many bits, into the words from i on.
pub fn read_edge(
    s: &[u8],
    at: usize,
    width: u32,
    nodes: u32,
    file: File,
    words: &mut [u32],
    i: usize,
) -> Result<(u32, u32, u32), Refusal>
    requires { Stands s.now at i × (1 ≤ width) × (width ≤ 32) }
    ensures { ReadsEdge width nodes s.now at words.old i (file_number file) result words.new }
{
    let (a, b) = read_two(s, at, width, nodes as u64, Wrong::Node, file, words, i)?;
    let k = read_field(
        s,
        at + 2 * width as usize,
        limits::KIND_WIDTH,
        0,
        limits::KIND_BOUND,
        Wrong::Range,
        file,
        words,
        i + 2,
    )?;
    Ok((a, b, k))
}

// The end of a file that was read up to the bit offset at, with i fields: zero bits up to a whole byte, and nothing after.
pub fn close_file(s: &[u8], at: usize, i: usize, file: File) -> Result<(usize, usize), Refusal>
    requires { Stands s.now at i }
    ensures { Closes s.now at i (file_number file) result × IfOk result (λ p. p.1 ≡ i) }
{
    if bits::is_clear(s, at) {
        let byte = (at + 7) / 8;
        if byte < s.len() {
            return Err(Refusal::Trailing(file));
        }
        return Ok((byte, i));
    }
    Err(Refusal::Trailing(file))
}

// The word i, at least low and below bound, as a field of so many bits at the bit offset at.
pub fn write_field(
    words: &[u32],
    i: usize,
    width: u32,
    low: u32,
    bound: u64,
    wrong: Wrong,
    file: File,
    out: &mut [u8],
    at: usize,
) -> Result<u32, Refusal>
    requires { (at + width < 2 ^ 60) × (width ≤ 32) × (bound ≤ 2 ^ width) }
    ensures { WritesField width low bound (wrong_number wrong) words.now i out.old at (file_number file) result out.new }
{
    if words.len() <= i {
        return Err(Refusal::Truncated(file));
    }
    let v = words[i];
    if v < low {
        return Err(wrong.of(file));
    }
    if bound <= v as u64 {
        return Err(wrong.of(file));
    }
    bits::put_bits(out, at, width, v);
    Ok(v)
}

// The words i and i + 1, each below bound, as two fields of so many bits.
pub fn write_two(
    words: &[u32],
    i: usize,
    width: u32,
    bound: u64,
    wrong: Wrong,
    file: File,
    out: &mut [u8],
    at: usize,
) -> Result<(u32, u32), Refusal>
    requires { (i ≤ length words.now) × (at + 2 * width < 2 ^ 60) × (width ≤ 32) × (bound ≤ 2 ^ width) }
    ensures { WritesTwo width bound (wrong_number wrong) words.now i out.old at (file_number file) result out.new }
{
    let a = write_field(words, i, width, 0, bound, wrong, file, out, at)?;
    let b = write_field(
        words,
        i + 1,
        width,
        0,
        bound,
        wrong,
        file,
        out,
        at + width as usize,
    )?;
    Ok((a, b))
}

// The words from i on as an edge between so many nodes, whose ends have so many bits.
pub fn write_edge(
    words: &[u32],
    i: usize,
    width: u32,
    nodes: u32,
    file: File,
    out: &mut [u8],
    at: usize,
) -> Result<(u32, u32, u32), Refusal>
    requires { (i ≤ length words.now) × (at + 2 * width + 3 < 2 ^ 60) × (width ≤ 32) × (nodes ≤ 2 ^ width) }
    ensures { WritesEdge width nodes words.now i out.old at (file_number file) result out.new }
{
    let (a, b) = write_two(words, i, width, nodes as u64, Wrong::Node, file, out, at)?;
    let k = write_field(
        words,
        i + 2,
        limits::KIND_WIDTH,
        0,
        limits::KIND_BOUND,
        Wrong::Range,
        file,
        out,
        at + 2 * width as usize,
    )?;
    Ok((a, b, k))
}

// Zero bits from the bit offset at up to a whole byte, which is the result.
pub fn write_padding(out: &mut [u8], at: usize) -> usize
    requires { at < 2 ^ 50 }
    ensures { (8 * result ≡ at + gap at) × (bits out.new ≡ sets (bits out.old) at (bits_of (gap at) 0)) }
{
    let n = (8 - at % 8) % 8;
    bits::put_bits(out, at, n as u32, 0);
    (at + 7) / 8
}

// The place, or the end where it lies beyond.
pub fn within(place: usize, end: usize) -> usize
    ensures { result ≡ min place end }
{
    if place < end { place } else { end }
}
