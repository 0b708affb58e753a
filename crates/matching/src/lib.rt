// Matching by simulation: searching a record for a pattern, with an index of the record or without, and making the book of a catalogue from a record.
#![tactic(auto)]

pub mod asking;
pub mod batches;
mod calls;
mod candidates;
mod components;
pub mod entering;
mod indexed;
pub mod join;
pub mod offered;
pub mod sets;
pub mod state;
pub mod steps;

ghost use Rattle.std.specs.Prelude.{[], length};
ghost use Rattle.packed.specs.Refusals.{reply_told, both_told};
ghost use Rattle.packed.specs.Calls.{OneOutput, Settled, with_workspace};
ghost use Rattle.matching.specs.Offered.{brings};
ghost use Rattle.matching.specs.Search.{search_outcome, make_book_outcome};
ghost use Rattle.matching.specs.Ask.{ask_outcome, ask_told};
ghost use Rattle.matching.specs.Index.{make_index_outcome, check_index_outcome, search_indexed_outcome};
ghost use Rattle.matching.specs.Enter.{Commits};

use asking::Asked;
use packed::reply::{Both, Reply};
use packed::{lent, limits};
use state::{Link, Slip, State};

// Searches a record for a pattern: writes the pattern's sheet.
pub fn search(pattern: &[u8], record: &[u8], out: &mut [u8], work: &mut [u32]) -> Reply
    ensures { OneOutput (search_outcome pattern.now «record».now) (reply_told result) out.old out.new work.old work.new }
{
    lent!(
        work,
        calls::search(pattern, record, None, out, &mut work[0..limits::WORKSPACE])
    )
}

// Makes the book of a catalogue from a record: writes a sheet for each view, one-way for those in the set, the bit worth 2^j for view j.
pub fn make_book(
    catalogue: &[u8],
    one_way: u16,
    record: &[u8],
    out: &mut [u8],
    work: &mut [u32],
) -> Reply
    ensures { OneOutput (make_book_outcome (brings catalogue.now one_way) «record».now) (reply_told result) out.old out.new work.old work.new }
{
    lent!(
        work,
        calls::make_book(
            catalogue,
            one_way as u32,
            record,
            out,
            &mut work[0..limits::WORKSPACE],
        )
    )
}

// Makes the index of a record: for each node how many edges begin at lower ones, and then how many there are.
pub fn make_index(record: &[u8], out: &mut [u16], work: &mut [u32]) -> Reply
    ensures { OneOutput (make_index_outcome «record».now) (reply_told result) out.old out.new work.old work.new }
{
    lent!(
        work,
        indexed::make(record, out, &mut work[0..limits::WORKSPACE])
    )
}

// Checks that an index is the record's own: how many entries it has.
pub fn check_index(record: &[u8], index: &[u16], work: &mut [u32]) -> Reply
    ensures { Settled [] (with_workspace (length work.old) (check_index_outcome «record».now index.now)) (reply_told result) [] [] work.old work.new }
{
    lent!(
        work,
        indexed::check(record, index, &mut work[0..limits::WORKSPACE])
    )
}

// Searches a record for a pattern by the record's own index: writes the pattern's sheet.
pub fn search_indexed(
    pattern: &[u8],
    record: &[u8],
    index: &[u16],
    out: &mut [u8],
    work: &mut [u32],
) -> Reply
    ensures { OneOutput (search_indexed_outcome pattern.now «record».now index.now) (reply_told result) out.old out.new work.old work.new }
{
    lent!(
        work,
        calls::search(
            pattern,
            record,
            Some(index),
            out,
            &mut work[0..limits::WORKSPACE]
        )
    )
}

// Asks which views' lists a link would change, before it enters a record, each view by its own rule: answers the set of those views, the bit worth 2^j for
// view j, and the slip that commit takes.
pub fn ask(
    catalogue: &[u8],
    one_way: u16,
    record: &[u8],
    state: State,
    link: Link,
    work: &mut [u32],
) -> Asked
    ensures { Settled [] (with_workspace (length work.old) (ask_outcome (brings catalogue.now one_way) «record».now state link)) (ask_told result) [] [] work.old work.new }
{
    lent!(
        work,
        asking::ask(
            catalogue,
            one_way as u32,
            record,
            state,
            link,
            &mut work[0..limits::WORKSPACE],
        )
    )
}

// Enters the link of a slip into a record: writes the record with it and the index of that, and counts on both numbers of the state, which it alone is lent.
pub fn commit(
    record: &[u8],
    state: &mut State,
    slip: Slip,
    out: &mut [u8],
    index_out: &mut [u16],
    work: &mut [u32],
) -> Both
    ensures { Commits «record».now state.old slip (both_told result) state.new out.old out.new index_out.old index_out.new work.old work.new }
{
    let links = state.links;
    let change = state.change;
    let done = entering::commit(record, links, change, slip, out, index_out, work);
    state.links = done.links;
    state.change = done.change;
    done.answer
}
