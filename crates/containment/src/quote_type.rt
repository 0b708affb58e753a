// What a quote answers.
use packed::reply::Refusal;

// Whether the views already answer the query.
#[derive(Clone, Copy)]
pub enum Coverage {
    Covered,
    Uncovered,
}

// A quote by value: whether the query is covered, or why there is no quote; for each edge of the query 16 masks, one for each view, of the view's edges that match it; the number of the query's
// edges; the chosen views as a set of bits; and the lowest edge that none matches. What has no meaning is zero.
#[derive(Clone, Copy)]
pub struct Quote {
    pub coverage: Result<Coverage, Refusal>,
    pub mapping: [u32; 512],
    pub edges: u32,
    pub chosen: u32,
    pub lowest: u32,
}
