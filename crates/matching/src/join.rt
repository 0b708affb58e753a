// The join: which of the pairs that the sheets of views list a query keeps for each of its edges.
ghost use Rattle.engine.specs.Loaded.{Fair};
ghost use Rattle.matching.specs.Candidates.{Booked};
ghost use Rattle.matching.specs.Joining.{Joined};

use crate::{candidates, steps};
use packed::by_value::Pattern;
use packed::limits;

// The masks of the d pairs of a book, for the k views of which those in the set are asked: the edges of the query that keep them.
pub fn join(
    q: Pattern,
    t: &[u32; 512],
    set: u32,
    s: &[u8],
    counts: [u32; 16],
    k: usize,
    d: usize,
    work: &mut [u32],
)
    requires { Fair q × Booked s.now counts k d work.old }
    ensures { Joined q t.now set s.now counts k d work.old work.new }
{
    let m = q.edges;
    candidates::clear_masks(work, d);
    candidates::take_book(s, counts, k, t, set, m, work, d);
    steps::run(q, limits::PATTERN_NODES_MOST, work, d);
    steps::prune(q, work, d);
}
