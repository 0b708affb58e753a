// The matching engine: of the links that pairs are held for, what is left when nothing more is lost.
ghost use Rattle.std.specs.Prelude.{◌≤◌, IfSome};
ghost use Rattle.engine.specs.Rounds.{Prepared, Fixed};
ghost use Rattle.engine.specs.Places.{Indexed};

use crate::sweeps::{Rule, Tables};
use crate::{index, sweeps, turns};
use packed::workspace;

// By an index of the pairs: the nodes one by one, each by its own pairs, and a sweep that brings what is held up to date.
fn rest_by(
    work: &mut [u32],
    d: usize,
    n: usize,
    first: &[u16],
    leave: &mut [u32],
    arrive: &mut [u32],
    held: &mut [u32],
    rule: Rule,
    tables: &Tables<'_>,
)
    requires { Prepared n d work.old leave.old arrive.old held.old × (n ≤ 4096) × Indexed d n work.old first.now }
    ensures { Fixed n rule.free rule.due rule.back d tables.now.leaving.now tables.now.arriving.now tables.now.ending.now tables.now.starting.now work.old leave.old arrive.old held.old 0 work.new leave.new arrive.new held.new }
{
    turns::late(work, n, d, first, rule, tables, leave, arrive);
    sweeps::sweep(work, d, leave, arrive, rule.free, held);
    workspace::clear(held, n);
}

// By an index of the pairs where one is given. Else some rounds; where they don't come to rest, by an index that is made here, so that no chain of losses takes a
// round for each.
pub fn rest(
    work: &mut [u32],
    d: usize,
    n: usize,
    index: Option<&[u16]>,
    leave: &mut [u32],
    arrive: &mut [u32],
    held: &mut [u32],
    rule: Rule,
    tables: &Tables<'_>,
)
    requires { Prepared n d work.old leave.old arrive.old held.old × (n ≤ 4096) × IfSome index (λ first. Indexed d n work.old first.now) }
    ensures { Fixed n rule.free rule.due rule.back d tables.now.leaving.now tables.now.arriving.now tables.now.ending.now tables.now.starting.now work.old leave.old arrive.old held.old 0 work.new leave.new arrive.new held.new }
{
    if let Some(first) = index {
        rest_by(work, d, n, first, leave, arrive, held, rule, tables);
        return;
    }
    let lost = sweeps::fix(work, d, n, leave, arrive, held, rule, tables);
    if lost == 0 {
        return;
    }
    let mut first: [u16; 4097] = [0; 4097];
    index::firsts(work, d, n, &mut first);
    rest_by(work, d, n, &first, leave, arrive, held, rule, tables);
}
