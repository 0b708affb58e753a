// The limits of files, the widths of their fields, and where things stand in the workspace, each in one line. The definitions have the same
// names in specs/Limits.antt.

// The most bytes of a pattern, a catalogue, a record; of a book, a lone sheet and an answer.
pub const PATTERN_MOST: usize = 56;

pub const CATALOGUE_MOST: usize = 897;

pub const RECORD_MOST: usize = 44036;

pub const BOOK_MOST: usize = 65536;

// The most bytes of a record as it was stored before its edges stood in order and had kinds.
pub const OLD_RECORD_MOST: usize = 40964;

// The most fields of a record's content, then as now.
pub const RECORD_FIELDS: usize = 28674;

// The most different pairs of a book.
pub const PAIRS_MOST: usize = 8192;

// The most nodes and edges of a pattern, and views of a catalogue.
pub const PATTERN_NODES_MOST: usize = 16;

pub const PATTERN_EDGES_MOST: usize = 32;

pub const VIEWS_MOST: usize = 16;

// The most questions of one call.
pub const QUESTIONS_MOST: u32 = 8;

// The most nodes and edges of a record, and pairs of a list.
pub const NODES_MOST: u32 = 4096;

pub const EDGES_MOST: usize = 8192;

pub const COUNT_MOST: usize = 8192;

// The code of a pair is its from times this, and its to: the numbers of nodes are below it.
pub const NODES: u32 = NODES_MOST;

// The codes of pairs are below this. The word of a record's edge in the workspace is the code of its two ends, and its kind times this.
pub const PAIRS: u32 = NODES * NODES;

// The kind of an edge, in patterns and in records: how many there are, and the bits of one.
pub const KINDS_MOST: u32 = 8;

pub const KINDS: u32 = KINDS_MOST;

pub const KIND_WIDTH: u32 = 3;

pub const KIND_BITS: usize = KIND_WIDTH as usize;

pub const KIND_BOUND: u64 = KINDS as u64;

// The fields of files: .._WIDTH is how many bits a field has, .._BITS the same as the way to the next place, and .._BOUND what its value stays
// below.

// A pattern has its number of nodes, its number of edges, the label of each node, and two ends and a kind for each edge.
pub const PATTERN_NODES_WIDTH: u32 = 5;

pub const PATTERN_NODES_BITS: usize = PATTERN_NODES_WIDTH as usize;

pub const PATTERN_NODES_BOUND: u64 = PATTERN_NODES_MOST as u64 + 1;

pub const PATTERN_EDGES_WIDTH: u32 = 6;

pub const PATTERN_EDGES_BOUND: u64 = PATTERN_EDGES_MOST as u64 + 1;

pub const LABEL_WIDTH: u32 = 5;

pub const LABEL_BITS: usize = LABEL_WIDTH as usize;

pub const LABEL_BOUND: u64 = 1 << LABEL_WIDTH;

pub const END_WIDTH: u32 = 4;

pub const PATTERN_EDGE_BITS: usize = 2 * END_WIDTH as usize + KIND_BITS;

// Where the labels of a pattern begin: behind its two numbers.
pub const PATTERN_LABELS: usize = PATTERN_NODES_BITS + PATTERN_EDGES_WIDTH as usize;

// A catalogue has its number of views, and the views, each on a byte.
pub const VIEWS_WIDTH: u32 = 5;

pub const VIEWS_BITS: usize = VIEWS_WIDTH as usize;

pub const VIEWS_BOUND: u64 = VIEWS_MOST as u64 + 1;

// A record has its number of nodes, its number of edges, the labels of each node, and two nodes and a kind for each edge; an old one has no kinds.
pub const NODES_WIDTH: u32 = 13;

pub const NODES_BITS: usize = NODES_WIDTH as usize;

pub const NODES_BOUND: u64 = NODES_MOST as u64 + 1;

pub const EDGES_WIDTH: u32 = 14;

pub const EDGES_BOUND: u64 = EDGES_MOST as u64 + 1;

pub const LABELS_WIDTH: u32 = 32;

pub const LABELS_BITS: usize = LABELS_WIDTH as usize;

pub const LABELS_BOUND: u64 = 1 << LABELS_WIDTH;

pub const NODE_WIDTH: u32 = 12;

pub const NODE_BITS: usize = NODE_WIDTH as usize;

pub const NODE_BOUND: u64 = NODES_MOST as u64;

pub const EDGE_WIDTH: u32 = 2 * NODE_WIDTH + KIND_WIDTH;

pub const EDGE_BITS: usize = EDGE_WIDTH as usize;

pub const OLD_EDGE_BITS: usize = 2 * NODE_BITS;

// Where the labels of a record begin, in bits: behind its two numbers.
pub const LABELS: usize = NODES_BITS + EDGES_WIDTH as usize;

// A sheet has its lead, and a list for each edge of its pattern where the lead is not 0; a list has its count, and two nodes for each pair.
pub const LEAD_WIDTH: u32 = 1;

pub const LEAD_BITS: usize = LEAD_WIDTH as usize;

pub const LEAD_BOUND: u64 = 1 << LEAD_WIDTH;

// What a field for a lead can hold stays below this.
pub const LEAD_RANGE: u32 = 1 << LEAD_WIDTH;

pub const COUNT_WIDTH: u32 = 14;

pub const COUNT_BITS: usize = COUNT_WIDTH as usize;

pub const COUNT_BOUND: u64 = COUNT_MOST as u64 + 1;

// What a field for a count can hold stays below this.
pub const COUNT_RANGE: u32 = 1 << COUNT_WIDTH;

pub const PAIR_WIDTH: u32 = 2 * NODE_WIDTH;

pub const PAIR_BITS: usize = PAIR_WIDTH as usize;

// The words that every call works in.
pub const WORKSPACE: usize = 16384;

// Where the words stand that say for each pair at the front of the workspace which links it is held for.
pub const HELD: usize = 8192;

// Where words are sorted to from the front of the workspace.
pub const SORT: usize = 8192;

// Where the codes wait that are not yet among the different ones, the most of them, the place of the last, and where they stand sorted.
pub const CHUNK: usize = 8192;

pub const CHUNK_MOST: usize = 4096;

pub const CHUNK_LAST: usize = CHUNK_MOST - 1;

pub const SORTED: usize = CHUNK + CHUNK_MOST;
