// A sheet made from pairs: n words at the front of the workspace, in whose low 24 bits stand their codes, and from word 8192 on for each a mask of
// the edges that list it. Where several patterns are matched at once, each has the bits of its own from some bit on, and a sheet of its own.
// There is no heap, so a table of counts is as long as a mask has bits.
ghost use Rattle.std.specs.Prelude.{◌≡◌, ℕ, ◌+◌, ◌*◌, ◌/◌, ◌%◌, ◌^◌, ◌<◌, ◌≤◌, length, get_or, replicate, List, not};
ghost use Rattle.packed.specs.Format.{encode, ok};
ghost use Rattle.packed.specs.Formats.{sheet};
ghost use Rattle.packed.specs.Matches.{marked_from, any_empty, codes_of, masks_of, matches_from, matches_of, Marked, Counts, Named, SheetWritten, Added, PartOfCounts, CountsFrom, Lengths, CountsWritten, PairPut, PairsWritten, ListsWritten, ListingWritten, Listed, any_zero, sum_of};
ghost use Rattle.packed.specs.Contents.{pair_count, sheet_fields, sheet_length};
ghost use Rattle.packed.specs.Refusals.{reply_told};
ghost use Rattle.packed.specs.Calls.{FulfilsOne, fit_file};

use crate::reply::{Refusal, Reply};
use crate::{bits, cursor, field, limits};

// Each bit of x is added to its count.
fn add_bits(c: &mut [u32; 32], x: u32)
    requires { (length c.old ≡ 32) × ((e : ℕ) → e < 32 → get_or c.old e 0 < 8192) }
    ensures { Added c.old x c.new }
{
    let mut left = x;
    let mut k: u32 = 0;
    // A turn for each bit that is set, so no range has its turns.
    while 0 < left {
        let z = u32::trailing_zeros(left);
        let e = (k + z) as usize;
        c[e] = c[e] + 1;
        left = (left >> z) / 2;
        k = k + z + 1;
    }
}

// How many pairs each list has.
pub fn counts(work: &[u32], n: usize) -> [u32; 32]
    requires { (n ≤ 8192) × (16384 ≤ length work.now) }
    ensures { Counts n work.now result × ((e : ℕ) → get_or result e 0 ≤ 8192) }
{
    let mut c = [0u32; 32];
    for i in 0..n {
        let at = limits::HELD + i;
        add_bits(&mut c, work[at]);
    }
    c
}

// Whether one of the first m counts is zero.
fn is_none(c: [u32; 32], m: u32) -> bool
    requires { m ≤ 32 }
    ensures { result ≡ any_zero m c }
{
    let mut none = false;
    for e in 0..m as usize {
        none = none | (c[e] == 0);
    }
    none
}

// The first m counts together.
fn sum(c: [u32; 32], m: u32) -> u32
    requires { (m ≤ 32) × ((e : ℕ) → get_or c e 0 ≤ 8192) }
    ensures { (result ≡ sum_of m c) × (result ≤ 8192 * m) }
{
    let mut s: u32 = 0;
    for e in 0..m as usize {
        s += c[e];
    }
    s
}

// The edges that some mask names.
pub fn named(work: &[u32], n: usize) -> u32
    requires { (n ≤ 8192) × (16384 ≤ length work.now) }
    ensures { Named n work.now result }
{
    let mut x: u32 = 0;
    for i in 0..n {
        let at = limits::HELD + i;
        x = x | work[at];
    }
    x
}

// The m bits of x from the bit o on.
pub fn bits_from(x: u32, o: u32, m: u32) -> u32
    requires { o + m ≤ 32 }
    ensures { result ≡ x / 2 ^ o % 2 ^ m }
{
    ((x as u64 >> o) % (1u64 << m)) as u32
}

// Whether each of the m edges whose bits begin at o is named, so that none of their lists is empty.
pub fn lists_all(named: u32, o: u32, m: u32) -> bool
    requires { o + m ≤ 32 }
    ensures { (n : ℕ) (w : List ℕ) → Named n w named → result ≡ not (any_empty (marked_from o m (codes_of n w) (masks_of n w))) }
{
    bits_from(named, o, m) as u64 == (1u64 << m) - 1
}

// How many of the n pairs are listed: none, where one of the m lists would be empty.
pub fn listed(work: &[u32], n: usize, m: u32) -> usize
    requires { (m ≤ 32) × (n ≤ 8192) × (16384 ≤ length work.now) }
    ensures { Listed n m work.now result }
{
    let x = named(work, n);
    if lists_all(x, 0, m) {
        return n;
    }
    0
}

// The m counts from the count o on.
fn counts_from(c: [u32; 32], o: u32, m: u32) -> [u32; 32]
    requires { o + m ≤ 32 }
    ensures { PartOfCounts o m c result }
{
    let mut d = [0u32; 32];
    for e in 0..m as usize {
        let at = o as usize + e;
        d[e] = c[at];
    }
    d
}

// How many pairs the m lists of a sheet have whose bits begin at o: none, where one of them would be empty.
fn lengths(c: [u32; 32], o: u32, m: u32) -> [u32; 32]
    requires { (o + m ≤ 32) × ((e : ℕ) → get_or c e 0 ≤ 8192) }
    ensures { ((e : ℕ) → get_or result e 0 ≤ 8192) × ((n : ℕ) (w : List ℕ) → Counts n w c → Lengths o n m w result) }
{
    let d = counts_from(c, o, m);
    if is_none(d, m) {
        return [0u32; 32];
    }
    d
}

// How many bytes a sheet of m lists with such counts takes.
fn size_of(c: [u32; 32], m: u32) -> usize
    requires { (m ≤ 32) × ((e : ℕ) → get_or c e 0 ≤ 8192) }
    ensures { result ≡ sheet_length m (sum_of m c) }
{
    let t = sum(c, m) as usize;
    if t == 0 {
        return 1;
    }
    cursor::byte_after(limits::LEAD_BITS + limits::COUNT_BITS * m as usize + limits::PAIR_BITS * t)
}

// How many bytes the sheet takes for the m edges whose bits begin at o.
pub fn size_from(c: [u32; 32], o: u32, m: u32) -> usize
    requires { (o + m ≤ 32) × ((e : ℕ) → get_or c e 0 ≤ 8192) }
    ensures { (n : ℕ) (w : List ℕ) → Counts n w c → result ≡ sheet_length m (pair_count (matches_from o n m w)) }
{
    let d = lengths(c, o, m);
    size_of(d, m)
}

// How many bytes the sheet for m edges takes.
pub fn sheet_size(work: &[u32], n: usize, m: u32) -> usize
    requires { (m ≤ 32) × (n ≤ 8192) × (16384 ≤ length work.now) }
    ensures { result ≡ sheet_length m (pair_count (matches_of n m work.now)) }
{
    let c = counts(work, n);
    size_from(c, 0, m)
}

// The counts of the first m lists, each where its list begins; a list's place is then behind its count, and the other places
// stay zero. The result is the bit offset after the lists.
fn write_counts(c: [u32; 32], m: u32, places: &mut [usize; 32], out: &mut [u8]) -> usize
    requires { (m ≤ 32) × ((e : ℕ) → get_or c e 0 ≤ 8192) × (places.old ≡ replicate 32 0) }
    ensures { CountsWritten m c out.old places.new result out.new }
{
    let mut at: usize = limits::LEAD_BITS;
    for e in 0..m as usize {
        let count = c[e];
        bits::put_bits(out, at, limits::COUNT_WIDTH, count);
        places[e] = at + limits::COUNT_BITS;
        at = at + (limits::COUNT_BITS + limits::PAIR_BITS * count as usize);
    }
    at
}

// The code v goes to the place of each list that the mask x names, and the place moves on.
fn put_pair(x: u32, v: u32, places: &mut [usize; 32], out: &mut [u8])
    requires { (v < 2 ^ 24) × (length places.old ≡ 32) × ((e : ℕ) → e < 32 → get_or places.old e 0 ≤ 2 ^ 40) }
    ensures { PairPut x v places.old out.old places.new out.new }
{
    let mut left = x;
    let mut k: u32 = 0;
    // A turn for each bit that is set, so no range has its turns.
    while 0 < left {
        let z = u32::trailing_zeros(left);
        let e = (k + z) as usize;
        bits::put_three(out, places[e], v);
        places[e] = places[e] + limits::PAIR_BITS;
        left = (left >> z) / 2;
        k = k + z + 1;
    }
}

// The n pairs go to the places of the lists of the m edges whose bits begin at o; the places move on.
fn write_pairs(work: &[u32], n: usize, o: u32, m: u32, places: &mut [usize; 32], out: &mut [u8])
    requires { Marked n work.now × (o + m ≤ 32) × (length places.old ≡ 32) × ((e : ℕ) → e < 32 → get_or places.old e 0 ≤ 2 ^ 39) }
    ensures { PairsWritten o n m work.now places.old out.old places.new out.new }
{
    for i in 0..n {
        let mask = limits::HELD + i;
        let x = bits_from(work[mask], o, m);
        put_pair(x, work[i] % limits::PAIRS, places, out);
    }
}

// The m lists, each a count and its pairs, behind the lead; the result is the bit offset after them.
fn write_lists(work: &[u32], n: usize, c: [u32; 32], o: u32, m: u32, out: &mut [u8]) -> usize
    requires { Marked n work.now × CountsFrom o n m work.now c × ((e : ℕ) → get_or c e 0 ≤ 8192) × (o + m ≤ 32) }
    ensures { ListsWritten o n m work.now out.old result out.new }
{
    let mut places = [0usize; 32];
    let at = write_counts(c, m, &mut places, out);
    write_pairs(work, n, o, m, &mut places, out);
    at
}

// The lead of a sheet with lists of such lengths, and the lists where there are pairs; the result is the bit offset after them.
fn write_listing(work: &[u32], n: usize, c: [u32; 32], o: u32, m: u32, out: &mut [u8]) -> usize
    requires { Marked n work.now × Lengths o n m work.now c × ((e : ℕ) → get_or c e 0 ≤ 8192) × (o + m ≤ 32) }
    ensures { ListingWritten o n m work.now out.old result out.new }
{
    if sum(c, m) == 0 {
        bits::put_bits(out, 0, limits::LEAD_WIDTH, 0);
        return limits::LEAD_BITS;
    }
    bits::put_bits(out, 0, limits::LEAD_WIDTH, 1);
    write_lists(work, n, c, o, m, out)
}

// The sheet for the m edges whose bits begin at o goes to the front of out as far as it goes; c has the counts, and the result is how many bytes it takes.
pub fn write_from(work: &[u32], n: usize, c: [u32; 32], o: u32, m: u32, out: &mut [u8]) -> usize
    requires { Marked n work.now × Counts n work.now c × (o + m ≤ 32) }
    ensures { SheetWritten o n m work.now out.old result out.new }
{
    let d = lengths(c, o, m);
    let at = write_listing(work, n, d, o, m, out);
    field::write_padding(out, at)
}

// The sheet for m edges goes to the front of out as far as it goes; the result is how many bytes it takes.
pub fn write_sheet(work: &[u32], n: usize, m: u32, out: &mut [u8]) -> usize
    requires { Marked n work.now × (m ≤ 32) }
    ensures { SheetWritten 0 n m work.now out.old result out.new }
{
    let c = counts(work, n);
    write_from(work, n, c, 0, m, out)
}

// The sheet for m edges as an output, whose lists are counted once: 12 where it is too long.
pub fn give_sheet(work: &[u32], n: usize, m: u32, out: &mut [u8]) -> Reply
    requires { Marked n work.now × (m ≤ 32) }
    ensures { (bytes : List ℕ) → encode (sheet m) (sheet_fields (matches_of n m work.now)) ≡ ok bytes → FulfilsOne (fit_file (length out.old) bytes) (reply_told result) out.old out.new }
{
    let c = counts(work, n);
    let size = size_from(c, 0, m);
    if (out.len() < size) | (limits::BOOK_MOST < size) {
        return Err(Refusal::NoRoom(size));
    }
    write_from(work, n, c, 0, m, out);
    Ok(size)
}
