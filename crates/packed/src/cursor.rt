// The cursor over a sheet's lists and a book's sheets: where each list, each pair and the next sheet stand among the bits. A sheet has a lead,
// and where that is not 0 a list for each edge of its pattern, a list is a count and so many pairs, and each sheet of a book begins on a byte.
// Nothing is refused here: what the bits end before is taken for zero, so that books are walked which were judged already.
ghost use Rattle.std.specs.Prelude.{◌≡◌, ◌+◌, ◌/◌, ◌^◌, ◌<◌, ◌≤◌, length};
ghost use Rattle.packed.specs.Bits.{gap};
ghost use Rattle.packed.specs.Limits.{book_most, pair_width};
ghost use Rattle.packed.specs.Formats.{standing};
ghost use Rattle.packed.specs.Walks.{field_or, lists_count, pair_place, Spans};

use crate::{bits, limits};

// A list: the bit offset of its first pair, how many pairs it has, and the bit offset of the list after it.
#[derive(Clone, Copy)]
pub struct Extent {
    pub first: usize,
    pub count: usize,
    pub next: usize,
}

// The field of n bits at the bit offset at, or 0 where the bits end before it does.
fn field_or(s: &[u8], at: usize, n: u32) -> u32
    requires { (n ≤ 32) × (at < 2 ^ 40) × (length s.now ≤ book_most) }
    ensures { (result ≡ field_or s.now at n) × (result < 2 ^ n) }
{
    if at + n as usize <= 8 * s.len() {
        return bits::get_bits(s, at, n);
    }
    0
}

// How many of the m lists of a sheet stand, by its lead: none after a 0.
pub(crate) fn standing(lead: u32, m: u32) -> u32
    ensures { (result ≡ standing lead m) × (result ≤ m) }
{
    if lead == 0 { 0 } else { m }
}

// The same of the sheet at a bit offset; they begin behind the lead.
pub fn lists_at(s: &[u8], at: usize, m: u32) -> u32
    requires { (at < 2 ^ 40) × (length s.now ≤ book_most) }
    ensures { (result ≡ lists_count s.now at m) × (result ≤ m) }
{
    let lead = field_or(s, at, limits::LEAD_WIDTH);
    standing(lead, m)
}

// The list at a bit offset.
pub fn list_at(s: &[u8], at: usize) -> Extent
    requires { (at < 2 ^ 40) × (length s.now ≤ book_most) }
    ensures { Spans s.now at result }
{
    let count = field_or(s, at, limits::COUNT_WIDTH) as usize;
    let first = at + limits::COUNT_BITS;
    let next = first + limits::PAIR_BITS * count;
    Extent { first, count, next }
}

// The code of the pair i of a list.
pub fn pair_at(s: &[u8], first: usize, i: usize) -> u32
    requires { (pair_place first i < 2 ^ 40) × (length s.now ≤ book_most) }
    ensures { (result ≡ field_or s.now (pair_place first i) pair_width) × (result < 2 ^ pair_width) }
{
    field_or(s, first + limits::PAIR_BITS * i, limits::PAIR_WIDTH)
}

// The byte after the lists that end at the bit offset end.
pub(crate) fn byte_after(end: usize) -> usize
    requires { end < 2 ^ 60 }
    ensures { result ≡ (end + 7) / 8 }
{
    (end + 7) / 8
}

// The bit offset of the sheet after one whose lists end at the bit offset end.
pub fn next_sheet(end: usize) -> usize
    requires { end < 2 ^ 60 }
    ensures { (result ≡ end + gap end) × (result ≤ end + 7) }
{
    8 * byte_after(end)
}
