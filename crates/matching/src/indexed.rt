// The client calls that make and check an index, with room to work in: 16,384 words, which are left in any state.
ghost use Rattle.std.specs.Prelude.{◌≡◌, [], length};
ghost use Rattle.packed.specs.Refusals.{reply_told};
ghost use Rattle.packed.specs.Calls.{Fulfils, FulfilsOne};
ghost use Rattle.matching.specs.Index.{make_index_outcome, check_index_outcome};

use engine::index;
use packed::graph;
use packed::reply::{Refusal, Reply};

// Makes the index of a record.
pub fn make(record: &[u8], out: &mut [u16], work: &mut [u32]) -> Reply
    requires { length work.old ≡ 16384 }
    ensures { FulfilsOne (make_index_outcome «record».now (length out.old)) (reply_told result) out.old out.new }
{
    let (n, m) = graph::load_record(record, work)?;
    let entries = n + 1;
    if out.len() < entries {
        return Err(Refusal::NoRoom(entries));
    }
    index::firsts(work, m, n, out);
    Ok(entries)
}

// Checks an index against a record.
pub fn check(record: &[u8], index: &[u16], work: &mut [u32]) -> Reply
    requires { length work.old ≡ 16384 }
    ensures { Fulfils [] (check_index_outcome «record».now index.now) (reply_told result) [] [] }
{
    let (n, m) = graph::load_record(record, work)?;
    index::judge(work, m, n, index)
}
