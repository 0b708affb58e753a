// The content of patterns and records as graphs: two counts, the labels, and for each edge its from, to and kind. A word that isn't there is 0.
ghost use Rattle.std.specs.Prelude.{◌<◌, ◌≤◌};

// An edge, by its two nodes and its kind.
#[derive(Clone, Copy)]
pub struct Edge {
    pub from: usize,
    pub to: usize,
    pub kind: u32,
    ghost leaves_node: { from < 4096 },
    ghost enters_node: { to < 4096 },
    ghost has_kind: { kind < 8 },
}

impl Edge {
    // The edge turned round.
    pub fn turned(self) -> Edge {
        Edge {
            from: self.to,
            to: self.from,
            kind: self.kind,
        }
    }
}

// Content words, and how many nodes and edges of them count.
#[derive(Clone, Copy)]
pub struct Graph<'a> {
    words: &'a [u32],
    pub nodes: usize,
    pub edges: usize,
    ghost few_nodes: { nodes ≤ 4096 },
    ghost few_edges: { edges ≤ 8192 },
}

impl<'a> Graph<'a> {
    // At most so many nodes and edges count.
    fn of(words: &'a [u32], most_nodes: usize, most_edges: usize) -> Graph<'a>
        requires nodes { most_nodes ≤ 4096 }
        requires edges { most_edges ≤ 8192 }
        ensures { (result.nodes ≤ most_nodes) × (result.edges ≤ most_edges) }
    {
        let nodes = word(words, 0) as usize;
        let edges = word(words, 1) as usize;
        Graph {
            words,
            nodes: nodes.min(most_nodes),
            edges: edges.min(most_edges),
        }
    }

    pub fn pattern(words: &'a [u32]) -> Graph<'a>
        ensures { (result.nodes ≤ 16) × (result.edges ≤ 32) }
    {
        Graph::of(words, 16, 32)
    }

    pub fn record(words: &'a [u32]) -> Graph<'a>
        ensures { (result.nodes ≤ 4096) × (result.edges ≤ 8192) }
    {
        Graph::of(words, 4096, 8192)
    }

    pub fn label(self, node: usize) -> u32
        requires { node ≤ 4096 }
    {
        word(self.words, 2 + node)
    }

    pub fn edge(self, i: usize) -> Edge
        requires { i ≤ 8192 }
    {
        let at = 2 + self.nodes + 3 * i;
        Edge {
            from: node(word(self.words, at)),
            to: node(word(self.words, at + 1)),
            kind: word(self.words, at + 2) % 8,
        }
    }
}

fn word(words: &[u32], i: usize) -> u32 {
    words.get(i).copied().unwrap_or(0)
}

fn node(x: u32) -> usize
    ensures { result < 4096 }
{
    (x % 4096) as usize
}
