// A link enters a record, with room to work in: 16,384 words, which are left in any state.
ghost use Rattle.std.specs.Prelude.{◌≡◌, List, [], ◌∷◌, ℕ, ◌≤◌, ◌<◌, length};
ghost use Rattle.packed.specs.Limits.{record_most};
ghost use Rattle.packed.specs.Refusals.{both_told};
ghost use Rattle.packed.specs.Calls.{Fulfils};
ghost use Rattle.packed.specs.LoadedGraph.{Holds};
ghost use Rattle.packed.specs.Entering.{EntersAt};
ghost use Rattle.matching.specs.Enter.{state_of, commit_outcome, Commits};
ghost use Rattle.matching.specs.Entering.{LinkJudged, Written, Entered, Counted, answered_by};

use crate::state::{Link, Slip};
use engine::index;
use packed::reply::{Both, File, Refusal, Reply};
use packed::{enter, graph, lent, limits};

// The change number that no other follows.
const CHANGE_MOST: u32 = 4_294_967_295;

// An answer, and the two numbers of the state after it.
#[derive(Clone, Copy)]
pub struct Answered {
    pub answer: Both,
    pub links: u32,
    pub change: u32,
}

// Judges a link beside a record with n nodes and m edges, whose words stand in the workspace, and beside the link count of a state: behind how many edges it
// enters, or why it doesn't.
pub fn judge(links: u32, link: Link, n: usize, m: usize, work: &[u32]) -> Reply
    requires { (n ≤ 4096) × (m ≤ 8192) × (length work.now ≡ 16384) }
    ensures { (s : List ℕ) (h : Holds s n m work.now) → LinkJudged links h.fields link result }
{
    if links as usize != m {
        return Err(Refusal::OutOfRange(File::Record));
    }
    let nodes = n as u32;
    if (nodes <= link.from) | (nodes <= link.to) {
        return Err(Refusal::NoSuchNode(File::Record));
    }
    if limits::KINDS <= link.kind {
        return Err(Refusal::OutOfRange(File::Record));
    }
    let p = enter::find_place(work, m, link.from, link.to, link.kind);
    let Some(at) = p else {
        return Err(Refusal::NotAscending(File::Record));
    };
    if limits::EDGES_MOST <= m {
        return Err(Refusal::OutOfRange(File::Record));
    }
    Ok(at)
}

// The record that a link enters behind so many edges, and its index, if both fit.
fn write_both(
    record: &[u8],
    n: usize,
    m: usize,
    at: usize,
    link: Link,
    out: &mut [u8],
    index_out: &mut [u16],
    work: &mut [u32],
) -> Both
    requires { Holds «record».now n m work.old × (length «record».now ≤ record_most) × EntersAt «record».now link.from link.to link.kind at }
    ensures { Written «record».now link (both_told result) out.old out.new index_out.old index_out.new }
{
    let more = m + 1;
    let size = enter::record_size(n, more);
    if out.len() < size {
        return Err(Refusal::NoRoom(size));
    }
    let entries = n + 1;
    if index_out.len() < entries {
        return Err(Refusal::NoRoom(entries));
    }
    enter::write_entered(record, n, m, at, link.from, link.to, link.kind, out, work);
    index::firsts(work, more, n, index_out);
    Ok((size, entries))
}

// The slip's link enters the record, whose words stand in the workspace.
fn enter_slip(
    record: &[u8],
    n: usize,
    m: usize,
    links: u32,
    change: u32,
    slip: Slip,
    out: &mut [u8],
    index_out: &mut [u16],
    work: &mut [u32],
) -> Both
    requires { Holds «record».now n m work.old × (length «record».now ≤ record_most) }
    ensures { Entered «record».now (state_of links change) slip (both_told result) out.old out.new index_out.old index_out.new × Counted links change result }
{
    if slip.change != change {
        return Err(Refusal::OldSlip(change as usize));
    }
    if change == CHANGE_MOST {
        return Err(Refusal::LastChange(change as usize));
    }
    let link = Link::from(slip);
    let at = judge(links, link, n, m, work)?;
    write_both(record, n, m, at, link, out, index_out, work)
}

fn enter_record(
    record: &[u8],
    links: u32,
    change: u32,
    slip: Slip,
    out: &mut [u8],
    index_out: &mut [u16],
    work: &mut [u32],
) -> Both
    requires { length work.old ≡ 16384 }
    ensures { Fulfils [] (commit_outcome «record».now (state_of links change) slip (length out.old) (length index_out.old)) (both_told result) (out.old ∷ index_out.old ∷ []) (out.new ∷ index_out.new ∷ []) × Counted links change result }
{
    let (n, m) = graph::load_record(record, work)?;
    enter_slip(record, n, m, links, change, slip, out, index_out, work)
}

// The two numbers after an answer.
fn after(answer: Both, links: u32, change: u32) -> Answered
    requires { Counted links change answer }
    ensures { result ≡ answered_by answer (state_of links change) }
{
    match answer {
        Ok(_) => Answered {
            answer,
            links: links + 1,
            change: change + 1,
        },
        Err(_) => Answered {
            answer,
            links,
            change,
        },
    }
}

// Commits a slip, on numbers.
pub fn commit(
    record: &[u8],
    links: u32,
    change: u32,
    slip: Slip,
    out: &mut [u8],
    index_out: &mut [u16],
    work: &mut [u32],
) -> Answered
    ensures { Commits «record».now (state_of links change) slip (both_told result.answer) (state_of result.links result.change) out.old out.new index_out.old index_out.new work.old work.new }
{
    let r = lent!(
        work,
        after(Err(Refusal::SmallWorkspace), links, change),
        enter_record(
            record,
            links,
            change,
            slip,
            out,
            index_out,
            &mut work[0..limits::WORKSPACE],
        )
    );
    after(r, links, change)
}
