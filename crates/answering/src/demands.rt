// What is promised of all calls together: each law is the contract of a function without code, so that the check of this crate proves it.
ghost use Rattle.std.specs.Prelude.{ℕ};
ghost use Rattle.engine.specs.Simulation.{Edge, Pair};
ghost use Rattle.answering.specs.Demands.{Demand1, Demand2, EmptyCatalogues, Sorting, Demand3, Answering, BySteps, Parts, Severals, Cheapests, OnDays, Entering, Asking, Listings};

// A relation of items, whichever.
pub trait Relation {
    ghost holds: { ℕ → ℕ → Type 0 };
}

// A choice of pairs for the links of a question, whichever.
pub trait Choice {
    ghost kept: { Edge → Pair → Type 0 };
}

// Demand 1: for all bytes and buffers of every length, each call gives a full result, or a numbered refusal under a fixed rule.
pub fn first_demand()
    ensures { Demand1 }
{}

// Demand 2: searches, sheets and books list what the greatest simulation matches, and a quote says covered exactly where every link is matched. It
// is said of any relation, since the greatest simulation is held against each.
pub fn second_demand<R: Relation>()
    ensures { Demand2 R.holds }
{}

// A catalogue without extracts: an empty file is read as the byte 00 is, by every call.
pub fn empty_catalogues()
    ensures { EmptyCatalogues }
{}

// A record that was stored before links had kinds, or an order, is sorted: the same links, and the same sheets. It is said of any relation too.
pub fn sorted_records<R: Relation>()
    ensures { Sorting R.holds }
{}

// Demand 3: a covered question is answered from a book byte for byte as a search of the record would answer it; of an uncovered one two records are
// shown, on which every extract lists the same and the question doesn't.
pub fn third_demand()
    ensures { Demand3 }
{}

// An answer is the greatest choice of pairs from the candidates that a book gives: it is said of any choice, which that one is held against. No function
// of the extracts' lists answers an uncovered question.
pub fn answers<L: Choice>()
    ensures { Answering L.kept }
{}

// The join goes by steps, each of which leaves the greatest choice for the links that are settled, and prunes both ways what these leave.
pub fn joined_by_steps<K: Choice, L: Choice>()
    ensures { BySteps K.kept L.kept }
{}

// The part of a question that the extracts answer, and its answer.
pub fn parts()
    ensures { Parts }
{}

// Several questions in one call: each gets what it gets by itself.
pub fn several_questions()
    ensures { Severals }
{}

// The cheapest set of extracts that covers a question.
pub fn cheapest_sets()
    ensures { Cheapests }
{}

// Calls for a day go by the extracts in force on it.
pub fn calls_for_a_day()
    ensures { OnDays }
{}

// A link that enters a record.
pub fn links_enter()
    ensures { Entering }
{}

// Asking, before a link enters, which extracts' lists it would change.
pub fn asking()
    ensures { Asking }
{}

// The listing of a quote, line by line.
pub fn listings()
    ensures { Listings }
{}
