// The lines of a quote's listing, each written into a line buffer. Digits and words are put by functions of this module and not by Display, since `line`
// tells how long a line is that the buffer is too short for: what lies beyond its end is counted.
ghost use Rattle.std.specs.Prelude.{◌≡◌, ◌+◌, ◌*◌, ◌%◌, ◌^◌, ◌<◌, ◌≤◌, length, get_or, set, eqb};
ghost use Rattle.packed.specs.Calls.{FulfilsOne};
ghost use Rattle.packed.specs.Format.{pick};
ghost use Rattle.packed.specs.Refusals.{reply_told};
ghost use Rattle.engine.specs.Simulation.{bit};
ghost use Rattle.containment.specs.Listing.{bytes, decimal, edge_text, edges_text, views_text, view_text, chosen_text, link_line, chosen_line, first_line, lines_after, line_of, refused_line, line_outcome};
ghost use Rattle.listing.specs.Written.{TextWritten};

use containment::quote_type::{Coverage, Quote};
use packed::reply::{Refusal, Reply};

// The byte i is v, where there is a byte i.
fn store(bytes: &mut [u8], i: usize, v: u8)
    ensures { bytes.new ≡ set bytes.old i v }
{
    if i < bytes.len() {
        bytes[i] = v;
    }
}

// The text goes to the buffer from `at` on; the result is where it ends.
fn put(out: &mut [u8], at: usize, text: &[u8]) -> usize
    requires { at ≤ 65536 }
    ensures { TextWritten text.now out.old at out.new result }
{
    for i in 0..text.len() {
        store(out, at + i, text[i]);
    }
    at + text.len()
}

// The last digit of n.
fn last_digit(n: usize) -> u8
    ensures { result ≡ 48 + n % 10 }
{
    b'0' + (n % 10) as u8
}

// How many digits n has. The loop, as that of `put_number`, goes by what is left of the number and counts to no index.
fn width(n: usize) -> usize
    ensures { result ≡ length (decimal n) }
{
    let mut m = n;
    let mut w = 1;
    while m >= 10 {
        m = m / 10;
        w += 1;
    }
    w
}

// n in decimal, from its last digit to its first.
fn put_number(out: &mut [u8], at: usize, n: usize) -> usize
    requires { at ≤ 65536 }
    ensures { TextWritten (decimal n) out.old at out.new result }
{
    let end = at + width(n);
    let mut i = end;
    let mut m = n;
    while m >= 10 {
        i -= 1;
        store(out, i, last_digit(m));
        m = m / 10;
    }
    store(out, at, last_digit(m));
    end
}

// Whether the set has the number k.
fn has(set: u32, k: usize) -> bool
    requires { k < 32 }
    ensures { result ≡ bit set k }
{
    let d = set >> k;
    d % 2 == 1
}

// " a.b" where the mask of the view a has the edge b.
fn put_edge(out: &mut [u8], at: usize, a: usize, mask: u32, b: usize) -> usize
    requires { (at ≤ 65000) × (b < 32) }
    ensures { TextWritten (edge_text a mask b) out.old at out.new result }
{
    if !has(mask, b) {
        return at;
    }
    let view = put(out, at, b" ");
    let dot = put_number(out, view, a);
    let edge = put(out, dot, b".");
    put_number(out, edge, b)
}

// The edges of the view a that the mask has.
fn put_edges(out: &mut [u8], at: usize, a: usize, mask: u32) -> usize
    requires { (at ≤ 60000) × (a < 16) }
    ensures { TextWritten (edges_text a mask) out.old at out.new result }
{
    let mut end = at;
    for b in 0..32 {
        end = put_edge(out, end, a, mask, b);
    }
    end
}

// The mask i, or 0 beyond the last.
fn mask_at(mapping: &[u32], i: usize) -> u32
    ensures { result ≡ get_or mapping.now i 0 }
{
    if i < mapping.len() { mapping[i] } else { 0 }
}

// The views' edges that match the edge e.
fn put_views(out: &mut [u8], at: usize, mapping: &[u32], e: usize) -> usize
    requires { (at ≤ 1000) × (e < 2 ^ 32) }
    ensures { TextWritten (views_text mapping.now e) out.old at out.new result }
{
    let mut end = at;
    for a in 0..16 {
        end = put_edges(out, end, a, mask_at(mapping, 16 * e + a));
    }
    end
}

// " a" where the set has the view a.
fn put_view(out: &mut [u8], at: usize, set: u32, a: usize) -> usize
    requires { (at ≤ 60000) × (a < 32) }
    ensures { TextWritten (view_text set a) out.old at out.new result }
{
    if !has(set, a) {
        return at;
    }
    let view = put(out, at, b" ");
    put_number(out, view, a)
}

// The views in the set.
fn put_chosen(out: &mut [u8], at: usize, set: u32) -> usize
    requires { at ≤ 1000 }
    ensures { TextWritten (chosen_text set) out.old at out.new result }
{
    let mut end = at;
    for a in 0..16 {
        end = put_view(out, end, set, a);
    }
    end
}

// The end of a line whose parts stand from `start` to `at`.
fn put_end(out: &mut [u8], start: usize, at: usize) -> usize
    requires { at ≤ 65536 }
    ensures { TextWritten (pick (eqb start at) (bytes " none\n") (bytes "\n")) out.old at out.new result }
{
    if start == at {
        put(out, at, b" none\n")
    } else {
        put(out, at, b"\n")
    }
}

// The line of the edge e.
fn put_link(out: &mut [u8], q: Quote, e: usize) -> usize
    requires { e < 2 ^ 32 }
    ensures { TextWritten (link_line q.mapping e) out.old 0 out.new result }
{
    let mapping = q.mapping;
    let number = put(out, 0, b"link ");
    let by = put_number(out, number, e);
    let start = put(out, by, b" by");
    let end = put_views(out, start, &mapping, e);
    put_end(out, start, end)
}

// The last line.
fn put_extracts(out: &mut [u8], set: u32) -> usize
    ensures { TextWritten (chosen_line set) out.old 0 out.new result }
{
    if set % 65536 == 0 {
        return put(out, 0, b"extracts none\n");
    }
    let start = put(out, 0, b"extracts");
    let end = put_chosen(out, start, set);
    put(out, end, b"\n")
}

// The line of a refusal.
fn put_refused(out: &mut [u8], x: Refusal) -> usize
    ensures { TextWritten (refused_line x) out.old 0 out.new result }
{
    let number = put(out, 0, b"refused ");
    let space = put_number(out, number, x.number());
    let detail = put(out, space, b" ");
    let end = put_number(out, detail, x.detail());
    put(out, end, b"\n")
}

// The first line.
fn put_first(out: &mut [u8], coverage: Result<Coverage, Refusal>) -> usize
    ensures { TextWritten (first_line coverage) out.old 0 out.new result }
{
    match coverage {
        Ok(c) => match c {
            Coverage::Covered => put(out, 0, b"quote covered\n"),
            Coverage::Uncovered => put(out, 0, b"quote uncovered\n"),
        },
        Err(x) => put_refused(out, x),
    }
}

// How many lines follow the first.
fn lines_after(q: Quote) -> usize
    ensures { (result ≡ lines_after q) × (result ≤ 2 ^ 32) }
{
    match q.coverage {
        Ok(_) => q.edges as usize + 1,
        Err(_) => 0,
    }
}

// Line k of the listing, empty beyond the last line, goes to the front of the buffer, as far as that goes; the result is its length.
fn put_line(out: &mut [u8], q: Quote, k: usize) -> usize
    ensures { TextWritten (line_of q k) out.old 0 out.new result }
{
    let last = lines_after(q);
    if k == 0 {
        let coverage = q.coverage;
        return put_first(out, coverage);
    }
    if last < k {
        return 0;
    }
    if k == last {
        return put_extracts(out, q.chosen);
    }
    put_link(out, q, k - 1)
}

// Writes line k of the listing, empty beyond the last line: whole, or not at all if the buffer is too short for it.
pub fn line(q: Quote, k: usize, out: &mut [u8]) -> Reply
    ensures { FulfilsOne (line_outcome q k (length out.old)) (reply_told result) out.old out.new }
{
    let n = put_line(&mut out[0..0], q, k);
    if out.len() < n {
        return Err(Refusal::NoRoom(n));
    }
    put_line(out, q, k);
    Ok(n)
}
