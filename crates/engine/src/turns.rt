// The late part: nodes are taken and looked at until none is marked. What the pairs are held for stays.
ghost use Rattle.std.specs.Prelude.{◌≡◌, ◌+◌, ◌<◌, ◌≤◌, length, get_or};
ghost use Rattle.engine.specs.Sweeping.{Ends};
ghost use Rattle.engine.specs.Sides.{Sided};
ghost use Rattle.engine.specs.Places.{Indexed};
ghost use Rattle.engine.specs.MarkedSet.{IsSet, AllMarked, MarkedEnd, MarkedBy};
ghost use Rattle.engine.specs.Worklist.{Half, Turned, Late};

use crate::sides::{Arriving, Leaving, Pairs, Side};
use crate::sweeps::{Rule, Tables};
use crate::{ends, index, marked, sweeps};
use packed::limits;

// The end of the pair i is marked, if a link of lost is held and is in the masks there.
fn mark_end<N: Side>(pairs: &Pairs<'_>, i: usize, lost: u32, masks: &[u32], set: &mut [u32])
    requires { (i < pairs.now.d) × (N.end (get_or pairs.now.work.now i 0) < pairs.now.n) × (pairs.now.n ≤ length masks.now) × IsSet set.old }
    ensures { MarkedEnd N.end pairs.now.work.now lost masks.now i set.old set.new }
{
    let t = N::end(pairs.work[i]);
    let at = limits::HELD + i;
    let hurt = pairs.work[at] & (masks[t] & lost);
    if hurt == 0 {
        return;
    }
    marked::mark(pairs.first, pairs.back, t, set);
}

// The near ends of the pairs whose far end is v are marked, where a link of lost is held and is in the masks there.
fn mark_by<N: Side, F: Side>(pairs: &Pairs<'_>, v: usize, lost: u32, masks: &[u32], set: &mut [u32])
    requires { Sided N.end pairs.now.n pairs.now.d pairs.now.work.now (N.start pairs.now.first.now pairs.now.back.now) (N.number pairs.now.rev.now) (N.numbered pairs.now.rev.now) × Sided F.end pairs.now.n pairs.now.d pairs.now.work.now (F.start pairs.now.first.now pairs.now.back.now) (F.number pairs.now.rev.now) (F.numbered pairs.now.rev.now) × (v < pairs.now.n) × (pairs.now.n ≤ length masks.now) × IsSet set.old }
    ensures { MarkedBy N.end F.end pairs.now.d pairs.now.work.now v lost masks.now set.old set.new }
{
    if lost == 0 {
        return;
    }
    let a = F::start(pairs.first, pairs.back, v);
    let b = F::start(pairs.first, pairs.back, v + 1);
    for k in a..b {
        let i = F::number(pairs.rev, k);
        mark_end::<N>(pairs, i, lost, masks, set);
    }
}

// The node v is looked at from one side: it loses the items that a link of due has there which none of its pairs offers, and the ends of pairs that relied on
// them are marked, for the links that are asked at the other side. `masks` are those of this side, `others` those of the other.
fn look<N: Side, F: Side>(
    pairs: &Pairs<'_>,
    due: u32,
    asked: u32,
    here: &[u32; 128],
    there: &[u32; 128],
    masks: &mut [u32],
    others: &mut [u32],
    set: &mut [u32],
    v: usize,
)
    requires { Sided N.end pairs.now.n pairs.now.d pairs.now.work.now (N.start pairs.now.first.now pairs.now.back.now) (N.number pairs.now.rev.now) (N.numbered pairs.now.rev.now) × Sided F.end pairs.now.n pairs.now.d pairs.now.work.now (F.start pairs.now.first.now pairs.now.back.now) (F.number pairs.now.rev.now) (F.numbered pairs.now.rev.now) × (v < pairs.now.n) × (pairs.now.n ≤ length masks.old) × (pairs.now.n ≤ length others.old) × IsSet set.old }
    ensures { Half N.end F.end pairs.now.n due asked pairs.now.d v here.now there.now pairs.now.work.now masks.old others.old set.old masks.new others.new set.new }
{
    let own = masks[v];
    let a = N::start(pairs.first, pairs.back, v);
    let b = N::start(pairs.first, pairs.back, v + 1);
    let miss = index::look::<N, F>(pairs.work, a, b, pairs.rev, others, own & due);
    if miss == 0 {
        return;
    }
    let lost = miss | sweeps::look_up(here, miss);
    let gone = sweeps::look_up(there, miss);
    let across = others[v];
    masks[v] = own ^ (own & lost);
    others[v] = across ^ (across & gone);
    mark_by::<N, F>(pairs, v, gone, masks, set);
    mark_by::<F, N>(pairs, v, lost & asked, others, set);
}

// The node v is looked at, as links leave it and, where any are asked, as they arrive.
fn look_at(
    pairs: &Pairs<'_>,
    rule: Rule,
    tables: &Tables<'_>,
    leave: &mut [u32],
    arrive: &mut [u32],
    set: &mut [u32],
    v: usize,
)
    requires { (v < pairs.now.n) × (pairs.now.n ≤ length leave.old) × (pairs.now.n ≤ length arrive.old) × IsSet set.old }
    ensures { Turned pairs.now.n rule.due rule.back pairs.now.d v tables.now.leaving.now tables.now.arriving.now tables.now.ending.now tables.now.starting.now pairs.now.work.now leave.old arrive.old set.old leave.new arrive.new set.new }
{
    let due = rule.due;
    let asked = rule.back;
    look::<Leaving, Arriving>(
        pairs,
        due,
        asked,
        tables.leaving,
        tables.arriving,
        leave,
        arrive,
        set,
        v,
    );
    if asked == 0 {
        return;
    }
    look::<Arriving, Leaving>(
        pairs,
        asked,
        due,
        tables.ending,
        tables.starting,
        arrive,
        leave,
        set,
        v,
    );
}

// Nodes are taken and looked at until none is marked.
fn settle(
    pairs: &Pairs<'_>,
    rule: Rule,
    tables: &Tables<'_>,
    leave: &mut [u32],
    arrive: &mut [u32],
    set: &mut [u32],
)
    requires { (pairs.now.n ≤ length leave.old) × (pairs.now.n ≤ length arrive.old) × AllMarked pairs.now.n set.old }
    ensures { Late pairs.now.n rule.due rule.back pairs.now.d tables.now.leaving.now tables.now.arriving.now tables.now.ending.now tables.now.starting.now pairs.now.work.now leave.old arrive.old leave.new arrive.new }
{
    loop {
        let v = marked::take(set);
        if v >= 4096 {
            break;
        }
        look_at(pairs, rule, tables, leave, arrive, set, v);
    }
}

// What the nodes lose, one by one, until every link that is due is offered wherever it may leave, and every link that is asked wherever it may arrive.
// `first` is an index of the pairs.
pub fn late(
    work: &[u32],
    n: usize,
    d: usize,
    first: &[u16],
    rule: Rule,
    tables: &Tables<'_>,
    leave: &mut [u32],
    arrive: &mut [u32],
)
    requires { Ends n d work.now × Indexed d n work.now first.now × (n ≤ 4096) × (n ≤ length leave.old) × (n ≤ length arrive.old) }
    ensures { Late n rule.due rule.back d tables.now.leaving.now tables.now.arriving.now tables.now.ending.now tables.now.starting.now work.now leave.old arrive.old leave.new arrive.new }
{
    let mut back: [u16; 4097] = [0; 4097];
    let mut rev: [u16; 8192] = [0; 8192];
    let mut set: [u32; 257] = [0; 257];
    ends::ends(work, d, n, &mut back, &mut rev);
    marked::mark_all(n, first, &back, &mut set);
    let pairs = Pairs {
        work,
        d,
        n,
        first,
        back: &back,
        rev: &rev,
    };
    settle(&pairs, rule, tables, leave, arrive, &mut set);
}
