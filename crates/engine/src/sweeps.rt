// Sweeps over the pairs and settling of the nodes: the words of the d pairs stand from word 0 on, with their codes in the low 24 bits, and from 8192 on for
// each the links that it is held for. The masks of the nodes are lent one by one: a struct of the three takes a loan of each part in every function, and three
// clauses that the loans stay.
ghost use Rattle.std.specs.Prelude.{◌≡◌, ◌+◌, ◌<◌, ◌≤◌, length};
ghost use Rattle.engine.specs.Sweeping.{Ends, Starts, Carried, Swept, Arrived, LookedUp, Left, NodesSettled};
ghost use Rattle.engine.specs.Rounds.{Prepared, Fixed, BackSettled, Round};

use packed::limits;

// `due` are the links whose items are being settled, `free` those that are not settled yet, `back` those that are asked as they arrive.
#[derive(Clone, Copy)]
pub struct Rule {
    pub free: u32,
    pub due: u32,
    pub back: u32,
}

// `leaving` and `arriving` have the links that leave and that arrive at an item which a link leaves, `ending` and `starting` those that arrive at and that leave an
// item at which a link arrives. The last two serve only where links are asked as they arrive.
#[derive(Clone, Copy)]
pub struct Tables<'a> {
    pub leaving: &'a [u32; 128],
    pub arriving: &'a [u32; 128],
    pub ending: &'a [u32; 128],
    pub starting: &'a [u32; 128],
}

// run, if the pair begins where the last one did.
fn carried(f: usize, last: usize, run: u32) -> u32
    ensures { Carried f last run result }
{
    if f == last { run } else { 0 }
}

// Every pair keeps what its ends allow, and adds it to what is held at the node where it begins. The pairs stand in the order of these nodes, so what is held at a
// node is carried on from pair to pair and not read again.
pub fn sweep(work: &mut [u32], d: usize, leave: &[u32], arrive: &[u32], free: u32, held: &mut [u32])
    requires { Ends (length held.old) d work.old × (length leave.now ≡ length held.old) × (length arrive.now ≡ length held.old) × Starts d work.old held.old }
    ensures { Swept d leave.now arrive.now free work.old held.old work.new held.new }
{
    let mut last: usize = 0;
    let mut run: u32 = 0;
    for i in 0..d {
        let x = work[i];
        let f = (x / limits::NODES % limits::NODES) as usize;
        let t = (x % limits::NODES) as usize;
        let at = limits::HELD + i;
        let both = leave[f] & arrive[t];
        let old = work[at];
        let kept = old & (free | both);
        work[at] = kept;
        run = carried(f, last, run) | kept;
        held[f] = run;
        last = f;
    }
}

// Every pair adds what it is held for to what is held at the node where it ends.
pub fn arrivals(work: &[u32], d: usize, held: &mut [u32])
    requires { Ends (length held.old) d work.now }
    ensures { Arrived d work.now held.old held.new }
{
    for i in 0..d {
        let t = (work[i] % limits::NODES) as usize;
        let at = limits::HELD + i;
        held[t] |= work[at];
    }
}

// What the table has for the members of x.
pub fn look_up(t: &[u32; 128], x: u32) -> u32
    ensures { LookedUp t.now x result }
{
    let a = (x % 16) as usize;
    let b = 16 + (x / 16 % 16) as usize;
    let c = 32 + (x / 256 % 16) as usize;
    let d = 48 + (x / 4096 % 16) as usize;
    let e = 64 + (x / 65536 % 16) as usize;
    let f = 80 + (x / 1048576 % 16) as usize;
    let g = 96 + (x / 16777216 % 16) as usize;
    let h = 112 + (x / 268435456 % 16) as usize;
    let low = (t[a] | t[b]) | (t[c] | t[d]);
    let high = (t[e] | t[f]) | (t[g] | t[h]);
    low | high
}

// x without what the table has for the members of miss.
fn without(t: &[u32; 128], miss: u32, x: u32) -> u32
    ensures { Left t.now miss x result }
{
    if miss == 0 {
        return x;
    }
    let gone = look_up(t, miss);
    let both = x & gone;
    x ^ both
}

// Each node loses the items one of whose due links no pair is held for; what is held at the nodes is cleared. The links that were missed.
pub fn settle(
    n: usize,
    leave: &mut [u32],
    arrive: &mut [u32],
    held: &mut [u32],
    due: u32,
    leaving: &[u32; 128],
    arriving: &[u32; 128],
) -> u32
    requires { (n ≤ length leave.old) × (n ≤ length arrive.old) × (n ≤ length held.old) }
    ensures { NodesSettled n due leaving.now arriving.now leave.old arrive.old held.old result leave.new arrive.new held.new }
{
    let mut lost: u32 = 0;
    for v in 0..n {
        let a = leave[v];
        let b = arrive[v];
        let miss = (a & due) & !held[v];
        held[v] = 0;
        leave[v] = without(leaving, miss, a);
        arrive[v] = without(arriving, miss, b);
        lost |= miss;
    }
    lost
}

// One sweep, and the nodes settled as links leave them. The links that were missed.
pub fn round(
    work: &mut [u32],
    d: usize,
    n: usize,
    leave: &mut [u32],
    arrive: &mut [u32],
    held: &mut [u32],
    free: u32,
    due: u32,
    leaving: &[u32; 128],
    arriving: &[u32; 128],
) -> u32
    requires { Prepared n d work.old leave.old arrive.old held.old }
    ensures { Fixed n free due 0 d leaving.now arriving.now leaving.now arriving.now work.old leave.old arrive.old held.old result work.new leave.new arrive.new held.new × Round n due d leaving.now work.old leave.old arrive.old result work.new leave.new }
{
    sweep(work, d, leave, arrive, free, held);
    settle(n, leave, arrive, held, due, leaving, arriving)
}

// The nodes settled as links arrive at them: the same, with the ends of pairs and of links changed for each other. The links that were missed. A sweep can't be
// changed so: the pairs stand in the order of their starts alone.
fn round_back(
    work: &[u32],
    d: usize,
    n: usize,
    leave: &mut [u32],
    arrive: &mut [u32],
    held: &mut [u32],
    back: u32,
    ending: &[u32; 128],
    starting: &[u32; 128],
) -> u32
    requires { Prepared n d work.now leave.old arrive.old held.old }
    ensures { BackSettled n back d ending.now starting.now work.now leave.old arrive.old held.old result leave.new arrive.new held.new }
{
    arrivals(work, d, held);
    settle(n, arrive, leave, held, back, ending, starting)
}

// One round both ways; one way, where back has no link.
fn round_both(
    work: &mut [u32],
    d: usize,
    n: usize,
    leave: &mut [u32],
    arrive: &mut [u32],
    held: &mut [u32],
    rule: Rule,
    tables: &Tables<'_>,
) -> u32
    requires { Prepared n d work.old leave.old arrive.old held.old }
    ensures { Fixed n rule.free rule.due rule.back d tables.now.leaving.now tables.now.arriving.now tables.now.ending.now tables.now.starting.now work.old leave.old arrive.old held.old result work.new leave.new arrive.new held.new }
{
    let lost = round(
        work,
        d,
        n,
        leave,
        arrive,
        held,
        rule.free,
        rule.due,
        tables.leaving,
        tables.arriving,
    );
    if rule.back == 0 {
        return lost;
    }
    let more = round_back(
        work,
        d,
        n,
        leave,
        arrive,
        held,
        rule.back,
        tables.ending,
        tables.starting,
    );
    lost | more
}

// At most twelve rounds. 0, if the last lost nothing.
pub fn fix(
    work: &mut [u32],
    d: usize,
    n: usize,
    leave: &mut [u32],
    arrive: &mut [u32],
    held: &mut [u32],
    rule: Rule,
    tables: &Tables<'_>,
) -> u32
    requires { Prepared n d work.old leave.old arrive.old held.old }
    ensures { Fixed n rule.free rule.due rule.back d tables.now.leaving.now tables.now.arriving.now tables.now.ending.now tables.now.starting.now work.old leave.old arrive.old held.old result work.new leave.new arrive.new held.new }
{
    for _ in 0..12 {
        let lost = round_both(work, d, n, leave, arrive, held, rule, tables);
        if lost == 0 {
            return 0;
        }
    }
    1
}
