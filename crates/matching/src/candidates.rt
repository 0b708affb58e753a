// The candidates of a join: each pair of a book is taken for the edges of the query that the edge under which it is listed matches. Workspace:
// the d different pairs of the book, ascending, from word 0 on, and from 8192 on for each a mask of the query's edges. So d
// stands beside the words, which are no shorter slice.
ghost use Rattle.std.specs.Prelude.{◌≡◌, ℕ, ◌+◌, ◌*◌, ◌<◌, ◌≤◌, length, get_or};
ghost use Rattle.packed.specs.Limits.{pairs_most, workspace};
ghost use Rattle.packed.specs.Walks.{lists_end, sheet_end};
ghost use Rattle.engine.specs.Masks.{Has, Mask};
ghost use Rattle.matching.specs.Candidates.{Pool, Beyond, PlaceIn, Walkable, Sheeted, SheetedAt, Booked, Blank, Taken, Listing, SheetListing, SheetListingAt, BookListing};

use crate::sets;
use packed::{cursor, limits};

// A place after first, at most d, from which on all codes are greater; reached by steps that double.
fn reach(work: &[u32], first: usize, d: usize, code: u32) -> usize
    requires { Pool d work.now × (first < d) }
    ensures { Beyond work.now first d code result }
{
    let mut step: usize = 1;
    let mut end = first + 1;
    // No for loop and no partition_point of all: the step doubles, so that near codes are found in few steps.
    while end < d {
        if code < work[end] {
            return end;
        }
        step = step + step;
        end = end + step;
    }
    d
}

// The place of a code among the words from first up to last, by halving.
fn find(work: &[u32], first: usize, last: usize, code: u32) -> usize
    requires { Pool last work.now × (first < last) }
    ensures { PlaceIn work.now first last code result }
{
    let mut low = first;
    let mut high = last;
    // By hand: with partition_point the walk over a list took up to 1.9 times as long.
    while 1 < high - low {
        let mid = low + (high - low) / 2;
        if code < work[mid] {
            high = mid;
        } else {
            low = mid;
        }
    }
    low
}

// The n pairs of an ascending list, from the bit offset first on, are taken for the edges x.
fn take_list(s: &[u8], first: usize, n: usize, x: u32, work: &mut [u32], d: usize)
    requires { Walkable s.now first n d work.old }
    ensures { Taken d (Listing s.now first n x) work.old work.new }
{
    let mut i: usize = 0;
    for k in 0..n {
        let code = cursor::pair_at(s, first, k);
        let end = reach(work, i, d, code);
        i = find(work, i, end, code);
        let mask = limits::HELD + i;
        work[mask] |= x;
    }
}

// Bit k, where x has f.
pub fn one_where(x: u32, f: u32, k: u32) -> u32
    requires { (f < 32) × (k < 32) }
    ensures { Mask (λ j. (k ≡ j) × Has x f) result }
{
    let d = x >> f;
    let b = d % 2;
    if b == 1 {
        return 1 << k;
    }
    0
}

// The edges below m that the edge f of the view a matches.
fn matched_by(t: &[u32; 512], a: usize, f: u32, m: usize) -> u32
    requires { (a < 16) × (f < 32) × (m ≤ 32) }
    ensures { Mask (λ e. (e < m) × Has (get_or t.now (16 * e + a) 0) f) result }
{
    let mut r: u32 = 0;
    for e in 0..m {
        r |= one_where(t[16 * e + a], f, e as u32);
    }
    r
}

// So many lists of the view a, from the bit offset start on, are taken for the edges below m that they match; where they end.
fn take_lists(
    s: &[u8],
    start: usize,
    lists: u32,
    t: &[u32; 512],
    a: usize,
    m: usize,
    work: &mut [u32],
    d: usize,
) -> usize
    requires { (a < 16) × (m ≤ 32) × Sheeted s.now start lists d work.old }
    ensures { (result ≡ lists_end s.now start lists) × (result ≤ 8 * length s.now) × Taken d (SheetListing s.now start lists t.now a m) work.old work.new }
{
    let mut at = start;
    for f in 0..lists {
        let l = cursor::list_at(s, at);
        let x = matched_by(t, a, f, m);
        if x != 0 {
            take_list(s, l.first, l.count, x, work, d);
        }
        at = l.next;
    }
    at
}

// The sheet of the view a, which has so many edges, from the bit offset start on, is taken for the edges below m that its lists match; where the
// next sheet begins.
fn take_sheet(
    s: &[u8],
    start: usize,
    edges: u32,
    t: &[u32; 512],
    a: usize,
    m: usize,
    work: &mut [u32],
    d: usize,
) -> usize
    requires { (a < 16) × (m ≤ 32) × SheetedAt s.now start edges d work.old }
    ensures { (result ≡ sheet_end s.now start edges) × Taken d (SheetListingAt s.now start edges t.now a m) work.old work.new }
{
    let lists = cursor::lists_at(s, start, edges);
    let end = take_lists(s, start + limits::LEAD_BITS, lists, t, a, m, work, d);
    cursor::next_sheet(end)
}

// m, where the set has the view a; else 0.
fn edges_in(set: u32, a: usize, m: usize) -> usize
    requires { a < 32 }
    ensures { (result ≤ m) × ((e : ℕ) → e < result → (e < m) × Has set a) × ((e : ℕ) → e < m → Has set a → e < result) }
{
    if sets::is_in(set, a) { m } else { 0 }
}

// The lists of those of k views that are in the set are taken for the edges that they match.
pub fn take_book(
    s: &[u8],
    counts: [u32; 16],
    k: usize,
    t: &[u32; 512],
    set: u32,
    m: usize,
    work: &mut [u32],
    d: usize,
)
    requires { (m ≤ 32) × Booked s.now counts k d work.old }
    ensures { Taken d (BookListing s.now counts k t.now set m) work.old work.new }
{
    let mut at: usize = 0;
    for a in 0..k {
        let within = edges_in(set, a, m);
        at = take_sheet(s, at, counts[a], t, a, within, work, d);
    }
}

// No pair is taken for any edge.
pub fn clear_masks(work: &mut [u32], d: usize)
    requires { (d ≤ pairs_most) × (length work.old ≡ workspace) }
    ensures { Blank d work.old work.new }
{
    work[limits::HELD..limits::HELD + d].fill(0);
}
