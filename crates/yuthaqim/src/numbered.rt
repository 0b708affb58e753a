// Answers in numbers: an enum doesn't cross to C. C reads each of these types by its own fields, so they stay types of their own.
ghost use Rattle.std.specs.Prelude.{◌≡◌, Ok};
ghost use Rattle.packed.specs.Refusals.{reply_told, both_told};
ghost use Rattle.matching.specs.Ask.{ask_told};
ghost use Rattle.containment.specs.Cheapest.{cheapest_told};
ghost use Rattle.containment.specs.Quote.{covered_of, quote_told};
ghost use Rattle.answering.specs.Several.{several_told};
ghost use Rattle.yuthaqim.specs.Numbered.{numbered_reply_told, numbered_quote_told, numbered_both_told, numbered_several_told, numbered_cheapest_told, QuoteZeros, BothZeros, SeveralZeros, CheapestZeros, numbered_first_day_told, FirstDayZeros, numbered_asked_told, AskedZeros};
ghost use Rattle.containment.specs.Terms.{first_day_told};

use answering::several::Several;
use containment::costing::Cheapest;
use containment::days::FirstDay;
use containment::quote_type::{Coverage, Quote};
use matching::asking::Asked;
use matching::state::Slip;
use packed::reply::{Both, Reply};

// 0 and how much of the output was written, or a refusal's number and detail.
#[repr(C)]
#[derive(Clone, Copy)]
pub struct NumberedReply {
    pub number: usize,
    pub value: usize,
}

// 0 and the quote, or a refusal's number and detail. What has no meaning is zero.
#[repr(C)]
#[derive(Clone, Copy)]
pub struct NumberedQuote {
    pub number: usize,
    pub detail: usize,
    pub covered: u32,
    pub edges: u32,
    pub chosen: u32,
    pub lowest: u32,
    pub mapping: [u32; 512],
}

// 0 and the lengths of the two outputs, or a refusal's number and detail. What has no meaning is zero.
#[repr(C)]
#[derive(Clone, Copy)]
pub struct NumberedBoth {
    pub number: usize,
    pub detail: usize,
    pub first: usize,
    pub second: usize,
}

// 0, the bytes written and the sheets needed, or a refusal's number and detail. What has no meaning is zero.
#[repr(C)]
#[derive(Clone, Copy)]
pub struct NumberedSeveral {
    pub number: usize,
    pub detail: usize,
    pub bytes: usize,
    pub sheets: u32,
}

// 0 and the cheapest set, its sum and the set that a quote chooses, or a refusal's number and detail. What has no meaning is zero.
#[repr(C)]
#[derive(Clone, Copy)]
pub struct NumberedCheapest {
    pub number: usize,
    pub detail: usize,
    pub sum: u64,
    pub set: u16,
    pub chosen: u16,
}

// 0, and 1 and the first day or 0 for none, or a refusal's number and detail. What has no meaning is zero.
#[repr(C)]
#[derive(Clone, Copy)]
pub struct NumberedFirstDay {
    pub number: usize,
    pub detail: usize,
    pub found: u16,
    pub day: u16,
}

// 0, the set of extracts and the slip, or a refusal's number and detail. What has no meaning is zero.
#[repr(C)]
#[derive(Clone, Copy)]
pub struct NumberedAsked {
    pub number: usize,
    pub detail: usize,
    pub set: u16,
    pub slip: Slip,
}

impl From<Reply> for NumberedReply {
    ghost from_gives = { λ r n. numbered_reply_told n ≡ reply_told r };

    fn from(r: Reply) -> NumberedReply {
        match r {
            Ok(size) => NumberedReply {
                number: 0,
                value: size,
            },
            Err(x) => NumberedReply {
                number: x.number(),
                value: x.detail(),
            },
        }
    }
}

// 1 for a query that is covered, else 0.
fn covered_of(c: Coverage) -> u32
    ensures { result ≡ covered_of (Ok c) }
{
    match c {
        Coverage::Covered => 1,
        Coverage::Uncovered => 0,
    }
}

impl From<Quote> for NumberedQuote {
    ghost from_gives = { λ q n. (numbered_quote_told n ≡ quote_told q) × QuoteZeros n };

    fn from(q: Quote) -> NumberedQuote {
        let mapping = q.mapping;
        match q.coverage {
            Ok(c) => NumberedQuote {
                number: 0,
                detail: 0,
                covered: covered_of(c),
                edges: q.edges,
                chosen: q.chosen,
                lowest: q.lowest,
                mapping,
            },
            Err(x) => NumberedQuote {
                number: x.number(),
                detail: x.detail(),
                covered: 0,
                edges: q.edges,
                chosen: q.chosen,
                lowest: q.lowest,
                mapping,
            },
        }
    }
}

impl From<Both> for NumberedBoth {
    ghost from_gives = { λ b n. (numbered_both_told n ≡ both_told b) × BothZeros n };

    fn from(b: Both) -> NumberedBoth {
        match b {
            Ok((first, second)) => NumberedBoth {
                number: 0,
                detail: 0,
                first,
                second,
            },
            Err(x) => NumberedBoth {
                number: x.number(),
                detail: x.detail(),
                first: 0,
                second: 0,
            },
        }
    }
}

impl From<Several> for NumberedSeveral {
    ghost from_gives = { λ s n. (numbered_several_told n ≡ several_told s) × SeveralZeros n };

    fn from(s: Several) -> NumberedSeveral {
        match s {
            Ok((bytes, sheets)) => NumberedSeveral {
                number: 0,
                detail: 0,
                bytes,
                sheets,
            },
            Err(x) => NumberedSeveral {
                number: x.number(),
                detail: x.detail(),
                bytes: 0,
                sheets: 0,
            },
        }
    }
}

impl From<Cheapest> for NumberedCheapest {
    ghost from_gives = { λ c n. (numbered_cheapest_told n ≡ cheapest_told c) × CheapestZeros n };

    fn from(c: Cheapest) -> NumberedCheapest {
        match c {
            Ok((set, sum, chosen)) => NumberedCheapest {
                number: 0,
                detail: 0,
                sum,
                set,
                chosen,
            },
            Err(x) => NumberedCheapest {
                number: x.number(),
                detail: x.detail(),
                sum: 0,
                set: 0,
                chosen: 0,
            },
        }
    }
}

impl From<FirstDay> for NumberedFirstDay {
    ghost from_gives = { λ d n. (numbered_first_day_told n ≡ first_day_told d) × FirstDayZeros n };

    fn from(d: FirstDay) -> NumberedFirstDay {
        match d {
            Ok(first) => match first {
                Some(day) => NumberedFirstDay {
                    number: 0,
                    detail: 0,
                    found: 1,
                    day,
                },
                None => NumberedFirstDay {
                    number: 0,
                    detail: 0,
                    found: 0,
                    day: 0,
                },
            },
            Err(x) => NumberedFirstDay {
                number: x.number(),
                detail: x.detail(),
                found: 0,
                day: 0,
            },
        }
    }
}

impl From<Asked> for NumberedAsked {
    ghost from_gives = { λ a n. (numbered_asked_told n ≡ ask_told a) × AskedZeros n };

    fn from(a: Asked) -> NumberedAsked {
        match a {
            Ok((set, slip)) => NumberedAsked {
                number: 0,
                detail: 0,
                set,
                slip,
            },
            Err(x) => NumberedAsked {
                number: x.number(),
                detail: x.detail(),
                set: 0,
                slip: Slip {
                    from: 0,
                    to: 0,
                    kind: 0,
                    change: 0,
                },
            },
        }
    }
}
