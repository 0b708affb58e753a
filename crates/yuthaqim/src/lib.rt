// The client calls in numbers. Each is the call of the same name in the crate that has it; the crate yuthaqim_c exports them for C and Rust to link.
// A name of C is a function of its own there and here, also where two differ in a few arguments, and its arguments stand apart as C passes them.
#![tactic(auto)]

pub mod numbered;

ghost use Rattle.std.specs.Prelude.{◌≡◌, [], ◌∷◌, length};
ghost use Rattle.packed.specs.Calls.{OneOutput, Settled, with_workspace, pattern_read, catalogue_read, record_read, sheet_read, book_read, pattern_written, catalogue_written, record_written, sheet_written, book_written};
ghost use Rattle.packed.specs.OldRecord.{record_sorted};
ghost use Rattle.matching.specs.Offered.{brings};
ghost use Rattle.matching.specs.Search.{search_outcome, make_book_outcome};
ghost use Rattle.matching.specs.Index.{make_index_outcome, check_index_outcome, search_indexed_outcome};
ghost use Rattle.matching.specs.Enter.{Commits};
ghost use Rattle.matching.specs.Ask.{ask_outcome};
ghost use Rattle.containment.specs.Quote.{quote_outcome, blank};
ghost use Rattle.containment.specs.Answer.{answer_outcome, answer_from};
ghost use Rattle.containment.specs.Part.{part_outcome};
ghost use Rattle.answering.specs.Several.{several_outcome};
ghost use Rattle.containment.specs.Show.{show_outcome};
ghost use Rattle.containment.specs.Cheapest.{cheapest_outcome};
ghost use Rattle.yuthaqim.specs.Numbered.{numbered_reply_told, numbered_quote_told, numbered_both_told, numbered_several_told, numbered_cheapest_told, QuoteZeros, BothZeros, SeveralZeros, CheapestZeros, numbered_first_day_told, FirstDayZeros, numbered_asked_told, AskedZeros};
ghost use Rattle.containment.specs.Terms.{spread_of, quote_on, cheapest_on, part_on, show_on, first_day};

use containment::terms::{Term, Terms};
use matching::state::{Link, Slip, State};
use numbered::{
    NumberedAsked, NumberedBoth, NumberedCheapest, NumberedFirstDay, NumberedQuote, NumberedReply,
    NumberedSeveral,
};

// Reads a pattern.
pub fn yuthaqim_read_pattern(bytes: &[u8], out: &mut [u32], work: &mut [u32]) -> NumberedReply
    ensures { OneOutput (pattern_read bytes.now) (numbered_reply_told result) out.old out.new work.old work.new }
{
    packed::read_pattern(bytes, out, work).into()
}

// Reads a catalogue.
pub fn yuthaqim_read_catalogue(bytes: &[u8], out: &mut [u32], work: &mut [u32]) -> NumberedReply
    ensures { OneOutput (catalogue_read bytes.now) (numbered_reply_told result) out.old out.new work.old work.new }
{
    packed::read_catalogue(bytes, out, work).into()
}

// Reads a record.
pub fn yuthaqim_read_record(bytes: &[u8], out: &mut [u32], work: &mut [u32]) -> NumberedReply
    ensures { OneOutput (record_read bytes.now) (numbered_reply_told result) out.old out.new work.old work.new }
{
    packed::read_record(bytes, out, work).into()
}

// Reads a sheet beside its pattern.
pub fn yuthaqim_read_sheet(
    pattern: &[u8],
    bytes: &[u8],
    out: &mut [u32],
    work: &mut [u32],
) -> NumberedReply
    ensures { OneOutput (sheet_read pattern.now bytes.now) (numbered_reply_told result) out.old out.new work.old work.new }
{
    packed::read_sheet(pattern, bytes, out, work).into()
}

// Reads a book beside its catalogue.
pub fn yuthaqim_read_book(
    catalogue: &[u8],
    bytes: &[u8],
    out: &mut [u32],
    work: &mut [u32],
) -> NumberedReply
    ensures { OneOutput (book_read catalogue.now bytes.now) (numbered_reply_told result) out.old out.new work.old work.new }
{
    packed::read_book(catalogue, bytes, out, work).into()
}

// Writes a pattern.
pub fn yuthaqim_write_pattern(fields: &[u32], out: &mut [u8], work: &mut [u32]) -> NumberedReply
    ensures { OneOutput (pattern_written fields.now) (numbered_reply_told result) out.old out.new work.old work.new }
{
    packed::write_pattern(fields, out, work).into()
}

// Writes a catalogue.
pub fn yuthaqim_write_catalogue(fields: &[u32], out: &mut [u8], work: &mut [u32]) -> NumberedReply
    ensures { OneOutput (catalogue_written fields.now) (numbered_reply_told result) out.old out.new work.old work.new }
{
    packed::write_catalogue(fields, out, work).into()
}

// Writes a record.
pub fn yuthaqim_write_record(fields: &[u32], out: &mut [u8], work: &mut [u32]) -> NumberedReply
    ensures { OneOutput (record_written fields.now) (numbered_reply_told result) out.old out.new work.old work.new }
{
    packed::write_record(fields, out, work).into()
}

// Sorts the edges of a record that was stored before they had kinds, or even an order: writes the record.
pub fn yuthaqim_sort_record(old: &[u8], out: &mut [u8], work: &mut [u32]) -> NumberedReply
    ensures { OneOutput (record_sorted old.now) (numbered_reply_told result) out.old out.new work.old work.new }
{
    packed::sort_record(old, out, work).into()
}

// Writes a sheet beside its pattern.
pub fn yuthaqim_write_sheet(
    pattern: &[u8],
    fields: &[u32],
    out: &mut [u8],
    work: &mut [u32],
) -> NumberedReply
    ensures { OneOutput (sheet_written pattern.now fields.now) (numbered_reply_told result) out.old out.new work.old work.new }
{
    packed::write_sheet(pattern, fields, out, work).into()
}

// Writes a book beside its catalogue.
pub fn yuthaqim_write_book(
    catalogue: &[u8],
    fields: &[u32],
    out: &mut [u8],
    work: &mut [u32],
) -> NumberedReply
    ensures { OneOutput (book_written catalogue.now fields.now) (numbered_reply_told result) out.old out.new work.old work.new }
{
    packed::write_book(catalogue, fields, out, work).into()
}

// Searches a record for a pattern: writes the pattern's sheet.
pub fn yuthaqim_search(
    pattern: &[u8],
    record: &[u8],
    out: &mut [u8],
    work: &mut [u32],
) -> NumberedReply
    ensures { OneOutput (search_outcome pattern.now «record».now) (numbered_reply_told result) out.old out.new work.old work.new }
{
    matching::search(pattern, record, out, work).into()
}

// Makes the index of a record: for each item how many links begin at lower ones, and then how many there are.
pub fn yuthaqim_make_index(record: &[u8], out: &mut [u16], work: &mut [u32]) -> NumberedReply
    ensures { OneOutput (make_index_outcome «record».now) (numbered_reply_told result) out.old out.new work.old work.new }
{
    matching::make_index(record, out, work).into()
}

// Checks that an index is the record's own: how many entries it has.
pub fn yuthaqim_check_index(record: &[u8], index: &[u16], work: &mut [u32]) -> NumberedReply
    ensures { Settled [] (with_workspace (length work.old) (check_index_outcome «record».now index.now)) (numbered_reply_told result) [] [] work.old work.new }
{
    matching::check_index(record, index, work).into()
}

// Searches a record for a pattern by the record's own index: writes the pattern's sheet.
pub fn yuthaqim_search_indexed(
    pattern: &[u8],
    record: &[u8],
    index: &[u16],
    out: &mut [u8],
    work: &mut [u32],
) -> NumberedReply
    ensures { OneOutput (search_indexed_outcome pattern.now «record».now index.now) (numbered_reply_told result) out.old out.new work.old work.new }
{
    matching::search_indexed(pattern, record, index, out, work).into()
}

// Makes the book of a catalogue from a record: writes a sheet for each view.
pub fn yuthaqim_make_book(
    catalogue: &[u8],
    one_way: u16,
    record: &[u8],
    out: &mut [u8],
    work: &mut [u32],
) -> NumberedReply
    ensures { OneOutput (make_book_outcome (brings catalogue.now one_way) «record».now) (numbered_reply_told result) out.old out.new work.old work.new }
{
    matching::make_book(catalogue, one_way, record, out, work).into()
}

// Quotes a question with a catalogue.
pub fn yuthaqim_quote(
    question: &[u8],
    catalogue: &[u8],
    one_way: u16,
    work: &mut [u32],
) -> NumberedQuote
    ensures { Settled blank (with_workspace (length work.old) (quote_outcome question.now (brings catalogue.now one_way))) (numbered_quote_told result) [] [] work.old work.new × QuoteZeros result }
{
    containment::quote(question, catalogue, one_way, work).into()
}

// Answers a question from a book: writes the question's sheet.
pub fn yuthaqim_answer(
    question: &[u8],
    catalogue: &[u8],
    one_way: u16,
    book: &[u8],
    out: &mut [u8],
    work: &mut [u32],
) -> NumberedReply
    ensures { OneOutput (answer_outcome question.now (brings catalogue.now one_way) book.now) (numbered_reply_told result) out.old out.new work.old work.new }
{
    answering::answer(question, catalogue, one_way, book, out, work).into()
}

// Answers a question from a book by a set of extracts: writes the question's sheet.
pub fn yuthaqim_answer_from(
    question: &[u8],
    catalogue: &[u8],
    one_way: u16,
    set: u16,
    book: &[u8],
    out: &mut [u8],
    work: &mut [u32],
) -> NumberedReply
    ensures { OneOutput (answer_from question.now (brings catalogue.now one_way) set book.now) (numbered_reply_told result) out.old out.new work.old work.new }
{
    answering::answer_from(question, catalogue, one_way, set, book, out, work).into()
}

// Finds the part of a question that the extracts answer, and answers it from a book: writes the part as a pattern, and its sheet.
pub fn yuthaqim_part(
    question: &[u8],
    catalogue: &[u8],
    one_way: u16,
    book: &[u8],
    part: &mut [u8],
    answer: &mut [u8],
    work: &mut [u32],
) -> NumberedBoth
    ensures { Settled [] (with_workspace (length work.old) (part_outcome question.now (brings catalogue.now one_way) book.now (length part.old) (length answer.old))) (numbered_both_told result) (part.old ∷ answer.old ∷ []) (part.new ∷ answer.new ∷ []) work.old work.new × BothZeros result }
{
    answering::part(question, catalogue, one_way, book, part, answer, work).into()
}

// Answers several questions from one book: writes their sheets one after the other.
pub fn yuthaqim_answer_several(
    questions: &[u8],
    number: u32,
    catalogue: &[u8],
    one_way: u16,
    book: &[u8],
    out: &mut [u8],
    work: &mut [u32],
) -> NumberedSeveral
    ensures { Settled [] (with_workspace (length work.old) (several_outcome questions.now number (brings catalogue.now one_way) book.now (length out.old))) (numbered_several_told result) (out.old ∷ []) (out.new ∷ []) work.old work.new × SeveralZeros result }
{
    answering::answer_several(questions, number, catalogue, one_way, book, out, work).into()
}

// Shows why a question is not covered: writes it as a record, and the same without its lowest unmatched link.
pub fn yuthaqim_show_uncovered(
    question: &[u8],
    catalogue: &[u8],
    one_way: u16,
    first: &mut [u8],
    second: &mut [u8],
    work: &mut [u32],
) -> NumberedBoth
    ensures { Settled [] (with_workspace (length work.old) (show_outcome question.now (brings catalogue.now one_way) (length first.old) (length second.old))) (numbered_both_told result) (first.old ∷ second.old ∷ []) (first.new ∷ second.new ∷ []) work.old work.new × BothZeros result }
{
    answering::show_uncovered(question, catalogue, one_way, first, second, work).into()
}

// Finds the cheapest set of extracts that covers a question, by the charges of the extracts.
pub fn yuthaqim_cheapest(
    question: &[u8],
    catalogue: &[u8],
    one_way: u16,
    charges: &[u32],
    work: &mut [u32],
) -> NumberedCheapest
    ensures { Settled [] (with_workspace (length work.old) (cheapest_outcome question.now (brings catalogue.now one_way) charges.now)) (numbered_cheapest_told result) [] [] work.old work.new × CheapestZeros result }
{
    containment::cheapest(question, catalogue, one_way, charges, work).into()
}

// A list of terms in plain numbers, as the calls for a day take it.
pub fn yuthaqim_spread_terms(terms: &[Term]) -> Terms
    ensures { result ≡ spread_of terms.now }
{
    containment::spread(terms)
}

// Quotes a question for a day, by the extracts in force on it.
pub fn yuthaqim_quote_on(
    question: &[u8],
    catalogue: &[u8],
    one_way: u16,
    terms: Terms,
    day: u16,
    work: &mut [u32],
) -> NumberedQuote
    ensures { Settled blank (with_workspace (length work.old) (quote_on question.now (brings catalogue.now one_way) terms day)) (numbered_quote_told result) [] [] work.old work.new × QuoteZeros result }
{
    containment::quote_on(question, catalogue, one_way, terms, day, work).into()
}

// Finds the cheapest set of extracts in force on a day that covers a question, by the charges of all extracts.
pub fn yuthaqim_cheapest_on(
    question: &[u8],
    catalogue: &[u8],
    one_way: u16,
    terms: Terms,
    day: u16,
    charges: &[u32],
    work: &mut [u32],
) -> NumberedCheapest
    ensures { Settled [] (with_workspace (length work.old) (cheapest_on question.now (brings catalogue.now one_way) terms day charges.now)) (numbered_cheapest_told result) [] [] work.old work.new × CheapestZeros result }
{
    containment::cheapest_on(question, catalogue, one_way, terms, day, charges, work).into()
}

// Finds the part of a question that the extracts in force on a day answer, and answers it from a book: writes the part as a pattern, and its sheet.
pub fn yuthaqim_part_on(
    question: &[u8],
    catalogue: &[u8],
    one_way: u16,
    terms: Terms,
    day: u16,
    book: &[u8],
    part: &mut [u8],
    answer: &mut [u8],
    work: &mut [u32],
) -> NumberedBoth
    ensures { Settled [] (with_workspace (length work.old) (part_on question.now (brings catalogue.now one_way) terms day book.now (length part.old) (length answer.old))) (numbered_both_told result) (part.old ∷ answer.old ∷ []) (part.new ∷ answer.new ∷ []) work.old work.new × BothZeros result }
{
    answering::part_on(
        question, catalogue, one_way, terms, day, book, part, answer, work,
    )
    .into()
}

// Shows why a question is not covered on a day: writes it as a record, and the same without the lowest link that no extract in force matches.
pub fn yuthaqim_show_on(
    question: &[u8],
    catalogue: &[u8],
    one_way: u16,
    terms: Terms,
    day: u16,
    first: &mut [u8],
    second: &mut [u8],
    work: &mut [u32],
) -> NumberedBoth
    ensures { Settled [] (with_workspace (length work.old) (show_on question.now (brings catalogue.now one_way) terms day (length first.old) (length second.old))) (numbered_both_told result) (first.old ∷ second.old ∷ []) (first.new ∷ second.new ∷ []) work.old work.new × BothZeros result }
{
    answering::show_on(
        question, catalogue, one_way, terms, day, first, second, work,
    )
    .into()
}

// Finds the first day, not before the given one, on which a question is covered.
pub fn yuthaqim_first_day(
    question: &[u8],
    catalogue: &[u8],
    one_way: u16,
    terms: Terms,
    day: u16,
    work: &mut [u32],
) -> NumberedFirstDay
    ensures { Settled [] (with_workspace (length work.old) (first_day question.now (brings catalogue.now one_way) terms day)) (numbered_first_day_told result) [] [] work.old work.new × FirstDayZeros result }
{
    containment::first_day(question, catalogue, one_way, terms, day, work).into()
}

// Asks which extracts' lists a link would change, before it enters a record: the set of them, and the slip that commit takes.
pub fn yuthaqim_ask(
    catalogue: &[u8],
    one_way: u16,
    record: &[u8],
    state: State,
    link: Link,
    work: &mut [u32],
) -> NumberedAsked
    ensures { Settled [] (with_workspace (length work.old) (ask_outcome (brings catalogue.now one_way) «record».now state link)) (numbered_asked_told result) [] [] work.old work.new × AskedZeros result }
{
    matching::ask(catalogue, one_way, record, state, link, work).into()
}

// Enters the link of a slip into a record: writes the record with it and the index of that, and counts on both numbers of the state.
pub fn yuthaqim_commit(
    record: &[u8],
    state: &mut State,
    slip: Slip,
    out: &mut [u8],
    index_out: &mut [u16],
    work: &mut [u32],
) -> NumberedBoth
    ensures { Commits «record».now state.old slip (numbered_both_told result) state.new out.old out.new index_out.old index_out.new work.old work.new × BothZeros result }
{
    matching::commit(record, state, slip, out, index_out, work).into()
}
