// The two ends of a pair, and the pairs by each: by their starts they stand in order, by their ends through the numbers of a counting sort.
ghost use Rattle.std.specs.Prelude.{◌≡◌, ℕ, ◌<◌, List, length, get_or};
ghost use Rattle.packed.specs.Contents.{word_from, word_to};
ghost use Rattle.engine.specs.Sides.{BothPlaced};

use packed::limits;

// The d pairs that stand in the workspace, their ends below n, with the index of them by their starts, where those by their ends stop below each node, and the
// numbers of these.
#[derive(Clone, Copy)]
pub struct Pairs<'a> {
    pub work: &'a [u32],
    pub d: usize,
    pub n: usize,
    pub first: &'a [u16],
    pub back: &'a [u16],
    pub rev: &'a [u16],
    pub ghost placed: { BothPlaced n d work.now first.now back.now rev.now },
}

pub trait Side {
    ghost end: { ℕ → ℕ };

    ghost start: { List ℕ → List ℕ → ℕ → ℕ };

    ghost number: { List ℕ → ℕ → ℕ };

    ghost numbered: { List ℕ → ℕ → Type 0 };

    // The node at this end of a pair, read from its word.
    fn end(word: u32) -> usize
        ensures { result ≡ end word };

    // Where the pairs of the node v begin: by `first` those that leave it, by `back` those that arrive.
    fn start(first: &[u16], back: &[u16], v: usize) -> usize
        requires { (v < length first.now) × (v < length back.now) }
        ensures { result ≡ start first.now back.now v };

    // The number of the pair at the place k.
    fn number(rev: &[u16], k: usize) -> usize
        requires { numbered rev.now k }
        ensures { result ≡ number rev.now k };
}

// The start of a pair: the links that leave a node.
pub struct Leaving;

impl Side for Leaving {
    ghost end = { word_from };

    ghost start = { λ first back v. get_or first v 0 };

    ghost number = { λ rev k. k };

    ghost numbered = { λ rev k. Unit };

    fn end(word: u32) -> usize {
        (word / limits::NODES % limits::NODES) as usize
    }

    fn start(first: &[u16], _back: &[u16], v: usize) -> usize {
        first[v] as usize
    }

    fn number(_rev: &[u16], k: usize) -> usize {
        k
    }
}

// The end of a pair: the links that arrive at a node.
pub struct Arriving;

impl Side for Arriving {
    ghost end = { word_to };

    ghost start = { λ first back v. get_or back v 0 };

    ghost number = { λ rev k. get_or rev k 0 };

    ghost numbered = { λ rev k. k < length rev };

    fn end(word: u32) -> usize {
        (word % limits::NODES) as usize
    }

    fn start(_first: &[u16], back: &[u16], v: usize) -> usize {
        back[v] as usize
    }

    fn number(rev: &[u16], k: usize) -> usize {
        rev[k] as usize
    }
}
