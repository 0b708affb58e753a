// The join by steps, from the ends inward: a step settles the links that leave one component of the query, after those of all that it leads to. What the steps
// leave is then pruned both ways. Workspace: the d pairs from word 0 on, and from 8192 on for each the links that it is held for.
ghost use Rattle.std.specs.Prelude.{◌≡◌, ℕ, ◌<◌, ◌≤◌, length};
ghost use Rattle.std.specs.Int.Bits.{bit_and, bit_or};
ghost use Rattle.engine.specs.Simulation.{bit};
ghost use Rattle.engine.specs.Loaded.{Fair, pattern_in};
ghost use Rattle.engine.specs.Sweeping.{to_of, Ends, Tabled};
ghost use Rattle.engine.specs.Rounds.{Prepared};
ghost use Rattle.matching.specs.Candidates.{Pool};
ghost use Rattle.matching.specs.Components.{OneStep, Ran, Pruned};
ghost use Rattle.matching.specs.Stepping.{PairsTaken, LooseLinks, Fresh, Started, Stepped, AllReached, AllComponents, Going, RanPruned, Tried};

use crate::components;
use engine::sweeps::{Rule, Tables};
use engine::{link_tables, sweeps};
use packed::by_value::Pattern;
use packed::{accept, limits};

// What is settled: the nodes, the links that aren't, and those of them for which a pair may be held that its ends don't allow.
#[derive(Clone, Copy)]
pub struct Place {
    pub settled: u32,
    pub free: u32,
    pub loose: u32,
}

// The greatest node where one of d pairs ends; 0 if there is none.
fn last_end(work: &[u32], d: usize) -> u32
    requires { d ≤ length work.now }
    ensures { (result < 4096) × ((i : ℕ) → i < d → to_of work.now i ≤ result) × ((k : ℕ) → ((i : ℕ) → i < d → to_of work.now i ≤ k) → result ≤ k) }
{
    let mut r: u32 = 0;
    for i in 0..d {
        r = r.max(work[i] % limits::NODES);
    }
    r
}

// One more than the greatest node of the d pairs: it begins the last one, or ends one. 0, if there is no pair.
fn nodes(work: &[u32], d: usize) -> usize
    requires { Pool d work.now }
    ensures { (result ≤ 4096) × Ends result d work.now × ((k : ℕ) → Ends k d work.now → result ≤ k) }
{
    if d < 1 {
        return 0;
    }
    let last = d - 1;
    let f = work[last] / limits::NODES;
    let t = last_end(work, d);
    f.max(t) as usize + 1
}

// The links for which a pair is held that its ends don't allow.
fn loose(work: &[u32], d: usize, leave: &[u32], arrive: &[u32]) -> u32
    requires { Ends (length leave.now) d work.now × (length arrive.now ≡ length leave.now) }
    ensures { LooseLinks d work.now leave.now arrive.now result }
{
    let mut r: u32 = 0;
    for i in 0..d {
        let x = work[i];
        let f = (x / limits::NODES % limits::NODES) as usize;
        let t = (x % limits::NODES) as usize;
        let held = work[limits::HELD + i];
        let both = leave[f] & arrive[t];
        r |= held ^ (held & both);
    }
    r
}

// Nothing is settled, and every pair is held for what it was held for. A node loses the items one of whose links begins with no pair there.
fn start(
    q: Pattern,
    all: u32,
    work: &mut [u32],
    d: usize,
    n: usize,
    leave: &mut [u32],
    arrive: &mut [u32],
    held: &mut [u32],
    leaving: &[u32; 128],
    arriving: &[u32; 128],
) -> Place
    requires { Pool d work.old × Fresh q n d all work.old leave.old arrive.old held.old leaving.now arriving.now }
    ensures { Started q n d work.old result work.new leave.new arrive.new held.new }
{
    sweeps::round(work, d, n, leave, arrive, held, 0, all, leaving, arriving);
    Place {
        settled: 0,
        free: all,
        loose: loose(work, d, leave, arrive),
    }
}

// One step: the component c is settled. Where its links are held by no pair that its ends don't allow, nothing is to be done.
pub fn step(
    q: Pattern,
    c: u32,
    place: Place,
    work: &mut [u32],
    d: usize,
    n: usize,
    leave: &mut [u32],
    arrive: &mut [u32],
    held: &mut [u32],
    leaving: &[u32; 128],
    arriving: &[u32; 128],
) -> Place
    requires { Fair q × Tabled q.from q.from q.edges leaving.now × Tabled q.from q.to q.edges arriving.now × OneStep (pattern_in q) (bit place.settled) (bit (bit_or place.settled c)) × (bit_and c place.settled ≡ 0) × (n ≤ 4096) × Prepared n d work.old leave.old arrive.old held.old }
    ensures { Stepped q n d c place work.old leave.old arrive.old held.old result work.new leave.new arrive.new held.new }
{
    let from = q.from;
    let due = components::leaving(&from, q.edges, c);
    let free = place.free ^ (place.free & due);
    let settled = place.settled | c;
    let hurt = due & place.loose;
    if hurt == 0 {
        return Place {
            settled,
            free,
            loose: place.loose,
        };
    }
    let rule = Rule { free, due, back: 0 };
    let tables = Tables {
        leaving,
        arriving,
        ending: leaving,
        starting: arriving,
    };
    engine::engine::rest(work, d, n, None, leave, arrive, held, rule, &tables);
    let more = place.loose | sweeps::look_up(arriving, due);
    Place {
        settled,
        free,
        loose: more & free,
    }
}

// So many steps, or fewer if all nodes are settled before.
fn go(
    q: Pattern,
    steps: usize,
    first: Place,
    t: &[u32; 16],
    components: &[u32; 16],
    work: &mut [u32],
    d: usize,
    n: usize,
    leave: &mut [u32],
    arrive: &mut [u32],
    held: &mut [u32],
    leaving: &[u32; 128],
    arriving: &[u32; 128],
) -> u32
    requires { Fair q × AllReached q t.now × AllComponents t.now q.nodes components.now × Tabled q.from q.from q.edges leaving.now × Tabled q.from q.to q.edges arriving.now × (first.settled ≡ 0) × (n ≤ 4096) × Prepared n d work.old leave.old arrive.old held.old }
    ensures { Going q n d steps first work.old leave.old arrive.old result work.new }
{
    let mut place = first;
    for _turn in 0..steps {
        let c = components::next(t, components, q.nodes, place.settled);
        if c == 0 {
            return place.settled;
        }
        place = step(
            q, c, place, work, d, n, leave, arrive, held, leaving, arriving,
        );
    }
    place.settled
}

// At most so many steps, from the candidates that the pairs are held for. The nodes that are settled then.
pub fn run(q: Pattern, steps: usize, work: &mut [u32], d: usize) -> u32
    requires { Fair q × Pool d work.old }
    ensures { Ran q d steps work.old result work.new }
{
    let m = q.edges;
    let from = q.from;
    let to = q.to;
    let leaving = link_tables::table(&from, &from, m);
    let arriving = link_tables::table(&from, &to, m);
    let all = link_tables::all(m);
    let n = nodes(work, d);
    let t = components::reaches(q);
    let each = components::components(&t, q.nodes);
    let mut leave = [all; 4096];
    let mut arrive = [all; 4096];
    let mut held = [0u32; 4096];
    let place = start(
        q,
        all,
        work,
        d,
        n,
        &mut leave,
        &mut arrive,
        &mut held,
        &leaving,
        &arriving,
    );
    go(
        q,
        steps,
        place,
        &t,
        &each,
        work,
        d,
        n,
        &mut leave,
        &mut arrive,
        &mut held,
        &leaving,
        &arriving,
    )
}

// Pruning both ways, from what the pairs are held for: a pair stays held for a link where each link that leaves or arrives at an end of it has such a pair at the
// same end. Every item may stand at every node at first, so that nothing need be known of the steps.
pub fn prune(q: Pattern, work: &mut [u32], d: usize)
    requires { Fair q × Pool d work.old }
    ensures { Pruned q d work.old work.new }
{
    let m = q.edges;
    let from = q.from;
    let to = q.to;
    let leaving = link_tables::table(&from, &from, m);
    let arriving = link_tables::table(&from, &to, m);
    let ending = link_tables::table(&to, &to, m);
    let starting = link_tables::table(&to, &from, m);
    let all = link_tables::all(m);
    let n = nodes(work, d);
    let mut leave = [all; 4096];
    let mut arrive = [all; 4096];
    let mut held = [0u32; 4096];
    let rule = Rule {
        free: 0,
        due: all,
        back: all,
    };
    let tables = Tables {
        leaving: &leaving,
        arriving: &arriving,
        ending: &ending,
        starting: &starting,
    };
    engine::engine::rest(
        work,
        d,
        n,
        None,
        &mut leave,
        &mut arrive,
        &mut held,
        rule,
        &tables,
    );
}

// At most so many steps, and then the pruning if it is asked for. The nodes that the steps settled.
fn run_pruned(q: Pattern, steps: usize, pruned: bool, work: &mut [u32], d: usize) -> u32
    requires { Fair q × Pool d work.old }
    ensures { RanPruned q d steps pruned work.old result work.new }
{
    let settled = run(q, steps, work, d);
    if pruned {
        prune(q, work, d);
    }
    settled
}

// How many of the first d words ascend, each once, and are codes of pairs.
fn pairs_at_front(work: &[u32], d: usize) -> usize
    requires { length work.now ≡ 16384 }
    ensures { PairsTaken d work.now result }
{
    let mut least: u32 = 0;
    for i in 0..limits::PAIRS_MOST {
        let x = work[i];
        if i >= d {
            return i;
        }
        if x < least {
            return i;
        }
        if x >= 1 << limits::PAIR_WIDTH {
            return i;
        }
        least = x + 1;
    }
    limits::PAIRS_MOST
}

// At most so many steps for a question, and then the pruning if it is asked for, from words that may be anything: as many of the first d as ascend are taken for
// pairs. The nodes that are settled then; none, where the question is refused or the words are too few.
pub fn trial(question: &[u8], d: usize, steps: usize, pruned: bool, work: &mut [u32]) -> u32
    ensures { Tried question.now d steps pruned work.old result work.new }
{
    if work.len() < limits::WORKSPACE {
        return 0;
    }
    let mut room = [0u32; 16384];
    let Ok(f) = accept::accept_pattern(question, &mut room) else {
        return 0;
    };
    let number = pairs_at_front(&work[0..limits::WORKSPACE], d);
    run_pruned(
        f.pattern,
        steps,
        pruned,
        &mut work[0..limits::WORKSPACE],
        number,
    )
}
