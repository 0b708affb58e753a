// Patterns. Their content is small: it is read into words with room for it, which serve to see after the last edge whether each node is an end. Each edge
// is noted in a table, so that one that stands twice is found at once.
ghost use Rattle.std.specs.Prelude.{◌≡◌, [], ◌+◌, ◌*◌, ◌^◌, ◌<◌, ◌≤◌, length, get_or, set, replicate};
ghost use Rattle.std.specs.Int.Bits.{bit_or};
ghost use Rattle.packed.specs.Format.{times, whole, decode, encode};
ghost use Rattle.packed.specs.Formats.{is_end, all_ends, label, edges, joined, pattern};
ghost use Rattle.packed.specs.Reading.{Stands, Room, ReadsUpTo, ReadsBytesUpTo, JudgesUpTo};
ghost use Rattle.packed.specs.Matches.{marks};
ghost use Rattle.packed.specs.Writing.{WritesPart, WritesBytes, JudgesFields};
ghost use Rattle.packed.specs.Refusals.{file_number};

use crate::reply::{File, Refusal, Wrong};
use crate::{bits, field, limits};

// So many labels.
fn read_labels(
    s: &[u8],
    start: usize,
    n: u32,
    file: File,
    words: &mut [u32],
    first: usize,
) -> Result<(usize, usize), Refusal>
    requires { Stands s.now start first }
    ensures { ReadsUpTo n (times n label) s.now start words.old first (file_number file) result words.new }
{
    let mut at = start;
    let mut i = first;
    for _ in 0..n {
        field::read_field(
            s,
            at,
            limits::LABEL_WIDTH,
            0,
            limits::LABEL_BOUND,
            Wrong::Range,
            file,
            words,
            i,
        )?;
        at += limits::LABEL_BITS;
        i += 1;
    }
    Ok((at, i))
}

// Whether x is an end of an edge with these fields.
fn is_end(edges: &[u32], x: u32) -> bool
    ensures { result ≡ is_end x edges.now }
{
    for e in 0..edges.len() / 3 {
        let i = 3 * e;
        if (edges[i] == x) | (edges[i + 1] == x) {
            return true;
        }
    }
    false
}

// Whether each node below n is an end.
fn are_ends(edges: &[u32], n: u32) -> bool
    ensures { result ≡ all_ends n edges.now }
{
    let mut all = true;
    for x in 0..n {
        all = all & is_end(edges, x);
    }
    all
}

// Edges are noted in a table that has a byte for each two nodes, with a bit for each kind of the edges from the one to the other: where the byte for a and
// b stands.
fn place(a: u32, b: u32) -> usize
    requires { (a < 16) × (b < 16) }
    ensures { (result ≡ 16 * a + b) × (result < 256) }
{
    limits::PATTERN_NODES_MOST * a as usize + b as usize
}

// Whether the edge from a to b of the kind k was noted: the edges need not be looked through for it.
fn is_noted(kinds: &[u8; 256], a: u32, b: u32, k: u32) -> bool
    requires { (a < 16) × (b < 16) × (k < 8) }
    ensures { result ≡ marks k (get_or kinds.now (16 * a + b) 0) }
{
    let at = place(a, b);
    (kinds[at] >> k) % 2 == 1
}

// The edge from a to b of the kind k is noted.
fn note(kinds: &mut [u8; 256], a: u32, b: u32, k: u32)
    requires { (a < 16) × (b < 16) × (k < 8) }
    ensures { kinds.new ≡ set kinds.old (16 * a + b) (bit_or (get_or kinds.old (16 * a + b) 0) (2 ^ k)) }
{
    let at = place(a, b);
    kinds[at] = kinds[at] | (1u8 << k);
}

// So many edges between so many nodes.
fn read_edges(
    s: &[u8],
    start: usize,
    nodes: u32,
    number: u32,
    file: File,
    words: &mut [u32],
    first: usize,
) -> Result<(usize, usize), Refusal>
    requires { Stands s.now start first × Room words.old first (3 * number) × (nodes ≤ 16) }
    ensures { ReadsUpTo (3 * number) (edges 4 3 nodes (joined nodes) number []) s.now start words.old first (file_number file) result words.new }
{
    let mut at = start;
    let mut i = first;
    let mut kinds = [0u8; 256];
    for _ in 0..number {
        let (a, b, k) = field::read_edge(s, at, limits::END_WIDTH, nodes, file, words, i)?;
        if is_noted(&kinds, a, b, k) {
            return Err(Refusal::DuplicateEdge(file));
        }
        note(&mut kinds, a, b, k);
        at += limits::PATTERN_EDGE_BITS;
        i += 3;
    }
    if are_ends(&words[first..i], nodes) {
        Ok((at, i))
    } else {
        Err(Refusal::IsolatedNode(file))
    }
}

// The fields of a pattern.
fn read_fields(
    s: &[u8],
    start: usize,
    file: File,
    words: &mut [u32],
    first: usize,
) -> Result<(usize, usize), Refusal>
    requires { Stands s.now start first × Room words.old first 114 }
    ensures { ReadsUpTo 114 pattern s.now start words.old first (file_number file) result words.new }
{
    let nodes = field::read_field(
        s,
        start,
        limits::PATTERN_NODES_WIDTH,
        1,
        limits::PATTERN_NODES_BOUND,
        Wrong::Range,
        file,
        words,
        first,
    )?;
    let number = field::read_field(
        s,
        start + limits::PATTERN_NODES_BITS,
        limits::PATTERN_EDGES_WIDTH,
        1,
        limits::PATTERN_EDGES_BOUND,
        Wrong::Range,
        file,
        words,
        first + 1,
    )?;
    let (at, i) = read_labels(
        s,
        start + limits::PATTERN_LABELS,
        nodes,
        file,
        words,
        first + 2,
    )?;
    read_edges(s, at, nodes, number, file, words, i)
}

// A pattern from a byte on: the next byte and the next word.
pub fn read_pattern(
    s: &[u8],
    byte: usize,
    file: File,
    words: &mut [u32],
    first: usize,
) -> Result<(usize, usize), Refusal>
    requires { Stands s.now (8 * byte) first × Room words.old first 114 }
    ensures { ReadsBytesUpTo 114 (whole pattern) s.now byte words.old first (file_number file) result words.new }
{
    let (at, i) = read_fields(s, 8 * byte, file, words, first)?;
    if bits::is_clear(s, at) {
        Ok(((at + 7) / 8, i))
    } else {
        Err(Refusal::Trailing(file))
    }
}

// A whole pattern, a file of its own: its content stands at the front of the words.
pub(crate) fn judge_pattern(s: &[u8], words: &mut [u32]) -> Result<(usize, usize), Refusal>
    requires { (length s.now ≤ 65536) × Room words.old 0 114 }
    ensures { JudgesUpTo 114 (decode pattern s.now) 1 result words.old words.new }
{
    let (at, n) = read_fields(s, 0, File::Pattern, words, 0)?;
    field::close_file(s, at, n, File::Pattern)
}

// So many labels.
fn write_labels(
    words: &[u32],
    first: usize,
    n: u32,
    file: File,
    out: &mut [u8],
    start: usize,
) -> Result<(usize, usize), Refusal>
    requires { (first ≤ length words.now) × (start + 5 * n ≤ 2 ^ 20) }
    ensures { WritesPart (times n label) words.now first out.old start (5 * n) (file_number file) result out.new }
{
    let mut i = first;
    let mut at = start;
    for _ in 0..n {
        field::write_field(
            words,
            i,
            limits::LABEL_WIDTH,
            0,
            limits::LABEL_BOUND,
            Wrong::Range,
            file,
            out,
            at,
        )?;
        i += 1;
        at += limits::LABEL_BITS;
    }
    Ok((at, i))
}

// So many edges between so many nodes.
fn write_edges(
    words: &[u32],
    first: usize,
    nodes: u32,
    number: u32,
    file: File,
    out: &mut [u8],
    start: usize,
) -> Result<(usize, usize), Refusal>
    requires { (first ≤ length words.now) × (nodes ≤ 16) × (start + 11 * number ≤ 2 ^ 20) }
    ensures { WritesPart (edges 4 3 nodes (joined nodes) number []) words.now first out.old start (11 * number) (file_number file) result out.new }
{
    let mut i = first;
    let mut at = start;
    let mut kinds = [0u8; 256];
    for _ in 0..number {
        let (a, b, k) = field::write_edge(words, i, limits::END_WIDTH, nodes, file, out, at)?;
        if is_noted(&kinds, a, b, k) {
            return Err(Refusal::DuplicateEdge(file));
        }
        note(&mut kinds, a, b, k);
        i += 3;
        at += limits::PATTERN_EDGE_BITS;
    }
    if are_ends(&words[first..i], nodes) {
        Ok((at, i))
    } else {
        Err(Refusal::IsolatedNode(file))
    }
}

// The fields of a pattern.
fn write_fields(
    words: &[u32],
    first: usize,
    file: File,
    out: &mut [u8],
    start: usize,
) -> Result<(usize, usize), Refusal>
    requires { (first ≤ length words.now) × (start ≤ 2 ^ 19) }
    ensures { WritesPart pattern words.now first out.old start 443 (file_number file) result out.new }
{
    let nodes = field::write_field(
        words,
        first,
        limits::PATTERN_NODES_WIDTH,
        1,
        limits::PATTERN_NODES_BOUND,
        Wrong::Range,
        file,
        out,
        start,
    )?;
    let number = field::write_field(
        words,
        first + 1,
        limits::PATTERN_EDGES_WIDTH,
        1,
        limits::PATTERN_EDGES_BOUND,
        Wrong::Range,
        file,
        out,
        start + limits::PATTERN_NODES_BITS,
    )?;
    let (at, i) = write_labels(
        words,
        first + 2,
        nodes,
        file,
        out,
        start + limits::PATTERN_LABELS,
    )?;
    write_edges(words, i, nodes, number, file, out, at)
}

// A pattern at the front of out: the next byte and the next word.
pub(crate) fn write_pattern(
    words: &[u32],
    first: usize,
    file: File,
    out: &mut [u8],
) -> Result<(usize, usize), Refusal>
    requires { first ≤ length words.now }
    ensures { WritesBytes (whole pattern) words.now first out.old 0 56 (file_number file) result out.new }
{
    let (at, i) = write_fields(words, first, file, out, 0)?;
    let byte = field::write_padding(out, at);
    Ok((byte, i))
}

// A whole pattern, a file of its own: its bytes stand at the front of out as far as it goes.
pub fn judge_pattern_fields(words: &[u32], out: &mut [u8]) -> Result<(usize, usize), Refusal>
    ensures { JudgesFields (encode pattern words.now) 1 result out.old out.new }
{
    let (n, i) = write_pattern(words, 0, File::Pattern, out)?;
    if i < words.len() {
        return Err(Refusal::Trailing(File::Pattern));
    }
    Ok((n, i))
}
