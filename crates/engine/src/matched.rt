// A pattern, or a batch of patterns, matched with a record whose edges stand in the workspace.
ghost use Rattle.std.specs.Prelude.{IfSome};
ghost use Rattle.engine.specs.Places.{Indexed};
ghost use Rattle.engine.specs.Loaded.{Fair, Ready};
ghost use Rattle.engine.specs.Starting.{NodeRoom};
ghost use Rattle.engine.specs.Matched.{rule_of, EdgesMatched, Proper, Rises};
ghost use Rattle.engine.specs.Batches.{FairBatch, BatchMatched};

use crate::batch::Batch;
use crate::sweeps::{Rule, Tables};
use crate::{batch, engine, link_tables, start};
use packed::by_value::Pattern;

// The edges are marked with the edges of the batch that list them, each part by its rule. The lent arrays have room for n nodes. It goes faster by the
// record's index, where that is given.
pub fn match_batch(
    s: &[u8],
    n: usize,
    m: usize,
    b: Batch,
    index: Option<&[u16]>,
    work: &mut [u32],
    leave: &mut [u32],
    arrive: &mut [u32],
    held: &mut [u32],
)
    requires { FairBatch b × Ready s.now n m work.old × Rises m work.old × NodeRoom n leave.old arrive.old held.old × IfSome index (λ first. Indexed m n work.old first.now) }
    ensures { BatchMatched b s.now n m work.old work.new × NodeRoom n leave.new arrive.new held.new }
{
    let from = b.from;
    let to = b.to;
    let kind = b.kind;
    let edges = b.edges;
    let back = b.back;
    let all = link_tables::all(edges);
    start::hold(work, m, &kind, edges);
    start::spread(s, n, b, leave, arrive, held);
    let leaving = link_tables::table(&from, &from, edges);
    let arriving = link_tables::table(&from, &to, edges);
    let ending = link_tables::table_if(back, &to, &to, edges);
    let starting = link_tables::table_if(back, &to, &from, edges);
    let rule = Rule {
        free: 0,
        due: all,
        back,
    };
    let tables = Tables {
        leaving: &leaving,
        arriving: &arriving,
        ending: &ending,
        starting: &starting,
    };
    engine::rest(work, m, n, index, leave, arrive, held, rule, &tables);
}

// A batch of one pattern, by the rule that is asked.
pub fn match_edges(
    s: &[u8],
    n: usize,
    m: usize,
    p: Pattern,
    both: bool,
    index: Option<&[u16]>,
    work: &mut [u32],
    leave: &mut [u32],
    arrive: &mut [u32],
    held: &mut [u32],
)
    requires { Fair p × Proper p × Ready s.now n m work.old × Rises m work.old × NodeRoom n leave.old arrive.old held.old × IfSome index (λ first. Indexed m n work.old first.now) }
    ensures { EdgesMatched (rule_of both) p s.now n m work.old work.new × NodeRoom n leave.new arrive.new held.new }
{
    let b = batch::add(batch::none(), p, both);
    match_batch(s, n, m, b, index, work, leave, arrive, held);
}
