// The different pairs of a book, ascending, gathered in the workspace by chunks.
ghost use Rattle.std.specs.Prelude.{◌≡◌, List, [], ◌∷◌, ℕ, ◌+◌, ◌*◌, ◌^◌, ◌%◌, ◌<◌, ◌≤◌, length, take, get_or};
ghost use Rattle.packed.specs.ByValue.{Small};
ghost use Rattle.packed.specs.Limits.{book_most, count_width, pair_width, workspace};
ghost use Rattle.packed.specs.Walks.{codes_at, pairs_at, list_bits, lists_end, sheet_pairs, sheet_end, book_pairs, codes_from, pairs_from, fields_end, book_pairs_from, Gathering, Gathers, Adds, Different};

use crate::{cursor, distinct, limits};

// How many different pairs stand at the front of the workspace, and how many more wait as a chunk.
#[derive(Clone, Copy)]
struct Gather {
    held: usize,
    fill: usize,
}

// A place in the bits or the fields of a book, with what was gathered up to it.
#[derive(Clone, Copy)]
struct Walk {
    at: usize,
    gather: Gather,
}

fn no_pairs() -> Gather
    ensures { (result.held ≡ 0) × (result.fill ≡ 0) }
{
    Gather { held: 0, fill: 0 }
}

// One pair more.
fn push(work: &mut [u32], g: Gather, code: u32) -> Gather
    requires { Gathering g work.old × (code < 2 ^ pair_width) }
    ensures { Adds (code ∷ []) g work.old result work.new }
{
    let held = g.held;
    let fill = g.fill;
    if limits::PAIRS_MOST < held {
        return g;
    }
    let at = limits::CHUNK + fill;
    work[at] = code;
    if fill < limits::CHUNK_LAST {
        return Gather {
            held,
            fill: fill + 1,
        };
    }
    let n = distinct::absorb(work, held, limits::CHUNK_MOST);
    Gather { held: n, fill: 0 }
}

// The different pairs, once all were gathered.
fn finish(work: &mut [u32], g: Gather) -> usize
    requires { Gathering g work.old }
    ensures { (codes : List ℕ) → Gathers codes g work.old → Different codes result work.new }
{
    let held = g.held;
    let fill = g.fill;
    if limits::PAIRS_MOST < held {
        return held;
    }
    distinct::absorb(work, held, fill)
}

// The n pairs of a list, from the bit offset first on.
fn gather_pairs(s: &[u8], first: usize, n: usize, work: &mut [u32], g: Gather) -> Gather
    requires { (length s.now ≤ book_most) × (first < 2 ^ 32) × (n < 2 ^ count_width) × Gathering g work.old }
    ensures { Adds (codes_at s.now first n) g work.old result work.new }
{
    let mut sofar = g;
    for i in 0..n {
        let code = cursor::pair_at(s, first, i);
        sofar = push(work, sofar, code);
    }
    sofar
}

// The pairs of m lists, from the bit offset start on, and where they end.
fn gather_lists(s: &[u8], start: usize, m: u32, work: &mut [u32], g: Gather) -> Walk
    requires { (length s.now ≤ book_most) × (start ≤ 2 ^ 30) × (m ≤ 32) × Gathering g work.old }
    ensures { (result.at ≡ lists_end s.now start m) × (result.at ≤ start + list_bits * m) × Adds (pairs_at s.now start m) g work.old result.gather work.new }
{
    let mut at = start;
    let mut sofar = g;
    for _ in 0..m {
        let l = cursor::list_at(s, at);
        sofar = gather_pairs(s, l.first, l.count, work, sofar);
        at = l.next;
    }
    Walk { at, gather: sofar }
}

// The pairs of a sheet for m edges, from the bit offset start on, and where the next sheet begins.
fn gather_sheet(s: &[u8], start: usize, m: u32, work: &mut [u32], g: Gather) -> Walk
    requires { (length s.now ≤ book_most) × (start < 2 ^ 30) × (m ≤ 32) × Gathering g work.old }
    ensures { (result.at ≡ sheet_end s.now start m) × (result.at ≤ start + list_bits * m + 8) × Adds (sheet_pairs s.now start m) g work.old result.gather work.new }
{
    let lists = cursor::lists_at(s, start, m);
    let w = gather_lists(s, start + limits::LEAD_BITS, lists, work, g);
    let gather = w.gather;
    Walk {
        at: cursor::next_sheet(w.at),
        gather,
    }
}

// The different pairs of a book whose views have so many edges, ascending at the front of the workspace, and their number; past 8,192 only that it is more.
pub fn gather_book(s: &[u8], counts: [u32; 16], k: usize, work: &mut [u32]) -> usize
    requires { (length s.now ≤ book_most) × (k ≤ 16) × Small counts × (length work.old ≡ workspace) }
    ensures { Different (book_pairs s.now 0 (take k counts)) result work.new }
{
    let mut at: usize = 0;
    let mut sofar = no_pairs();
    for j in 0..k {
        let w = gather_sheet(s, at, counts[j], work, sofar);
        at = w.at;
        sofar = w.gather;
    }
    finish(work, sofar)
}

// The low bits of the word i, or zero where there is none.
fn low_at(words: &[u32], i: usize, n: u32) -> u32
    requires { 0 < n }
    ensures { (result ≡ get_or words.now i 0 % n) × (result < n) }
{
    if i < words.len() { words[i] % n } else { 0 }
}

// The pairs of a list of n, from the word first on.
fn gather_pair_fields(words: &[u32], first: usize, n: u32, work: &mut [u32], g: Gather) -> Gather
    requires { (first < 2 ^ 40) × (n < 2 ^ count_width) × Gathering g work.old }
    ensures { Adds (codes_from words.now first n) g work.old result work.new }
{
    let mut i = first;
    let mut sofar = g;
    for _ in 0..n {
        let a = low_at(words, i, limits::NODES);
        let b = low_at(words, i + 1, limits::NODES);
        sofar = push(work, sofar, a * limits::NODES + b);
        i += 2;
    }
    sofar
}

// The pairs of m lists among fields, from the word first on, and where they end.
fn gather_list_fields(words: &[u32], first: usize, m: u32, work: &mut [u32], g: Gather) -> Walk
    requires { (first < 2 ^ 39) × (m ≤ 32) × Gathering g work.old }
    ensures { (result.at ≡ fields_end words.now first m) × (result.at ≤ first + 32769 * m) × Adds (pairs_from words.now first m) g work.old result.gather work.new }
{
    let mut at = first;
    let mut sofar = g;
    for _ in 0..m {
        let n = low_at(words, at, limits::COUNT_RANGE);
        sofar = gather_pair_fields(words, at + 1, n, work, sofar);
        at += 1 + 2 * n as usize;
    }
    Walk { at, gather: sofar }
}

// The same of a book among fields.
pub(crate) fn gather_fields(words: &[u32], counts: [u32; 16], k: usize, work: &mut [u32]) -> usize
    requires { (k ≤ 16) × Small counts × (length work.old ≡ workspace) }
    ensures { Different (book_pairs_from words.now 0 (take k counts)) result work.new }
{
    let mut at: usize = 0;
    let mut sofar = no_pairs();
    for j in 0..k {
        let lead = low_at(words, at, limits::LEAD_RANGE);
        let lists = cursor::standing(lead, counts[j]);
        let w = gather_list_fields(words, at + 1, lists, work, sofar);
        at = w.at;
        sofar = w.gather;
    }
    finish(work, sofar)
}
