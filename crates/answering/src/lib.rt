// Answering a query from views: answers from a book, to one question and to several, the part that can be had, and why a query is not covered.
#![tactic(auto)]

mod answering;
pub mod demands;
mod parting;
pub mod several;
mod showing;

ghost use Rattle.std.specs.Prelude.{◌≡◌, [], ◌∷◌, length};
ghost use Rattle.packed.specs.Calls.{OneOutput, Settled, with_workspace};
ghost use Rattle.packed.specs.Refusals.{reply_told, both_told};
ghost use Rattle.matching.specs.Offered.{brings};
ghost use Rattle.containment.specs.Answer.{answer_from, answer_outcome};
ghost use Rattle.containment.specs.Part.{part_for, part_outcome};
ghost use Rattle.answering.specs.Several.{several_outcome, several_told};
ghost use Rattle.containment.specs.Show.{show_for, show_outcome};
ghost use Rattle.containment.specs.Terms.{quoted_for, part_on, show_on};

use containment::terms::Terms;
use packed::reply::{Both, Reply};
use packed::{lent, limits};
use several::Several;

// Answers a question from a book by the extracts that its quote chooses: writes the question's sheet.
pub fn answer(
    question: &[u8],
    catalogue: &[u8],
    one_way: u16,
    book: &[u8],
    out: &mut [u8],
    work: &mut [u32],
) -> Reply
    ensures { OneOutput (answer_outcome question.now (brings catalogue.now one_way) book.now) (reply_told result) out.old out.new work.old work.new }
{
    lent!(
        work,
        answering::answer(
            question,
            catalogue,
            u32::from(one_way),
            book,
            out,
            &mut work[0..limits::WORKSPACE],
        )
    )
}

// The same by the extracts in a set that the client names: the bit worth 2^j for extract j. Bits that name no extract count for nothing.
pub fn answer_from(
    question: &[u8],
    catalogue: &[u8],
    one_way: u16,
    set: u16,
    book: &[u8],
    out: &mut [u8],
    work: &mut [u32],
) -> Reply
    ensures { OneOutput (answer_from question.now (brings catalogue.now one_way) set book.now) (reply_told result) out.old out.new work.old work.new }
{
    lent!(
        work,
        answering::answer_from(
            question,
            catalogue,
            u32::from(one_way),
            u32::from(set),
            book,
            out,
            &mut work[0..limits::WORKSPACE],
        )
    )
}

// Why a question is not covered on a day with its terms, or for none.
fn show_for(
    question: &[u8],
    catalogue: &[u8],
    one_way: u16,
    day: Option<(Terms, u16)>,
    first: &mut [u8],
    second: &mut [u8],
    work: &mut [u32],
) -> Both
    ensures { Settled [] (with_workspace (length work.old) (quoted_for day question.now (brings catalogue.now one_way) (show_for (length first.old) (length second.old)))) (both_told result) (first.old ∷ second.old ∷ []) (first.new ∷ second.new ∷ []) work.old work.new }
{
    lent!(
        work,
        showing::show(
            question,
            catalogue,
            u32::from(one_way),
            day,
            first,
            second,
            &mut work[0..limits::WORKSPACE],
        )
    )
}

// Shows why a question is not covered: writes it as a record, and the same without its lowest unmatched link.
pub fn show_uncovered(
    question: &[u8],
    catalogue: &[u8],
    one_way: u16,
    first: &mut [u8],
    second: &mut [u8],
    work: &mut [u32],
) -> Both
    ensures { Settled [] (with_workspace (length work.old) (show_outcome question.now (brings catalogue.now one_way) (length first.old) (length second.old))) (both_told result) (first.old ∷ second.old ∷ []) (first.new ∷ second.new ∷ []) work.old work.new }
{
    show_for(question, catalogue, one_way, None, first, second, work)
}

// The part that can be had on a day with its terms, or for none.
fn part_for(
    question: &[u8],
    catalogue: &[u8],
    one_way: u16,
    day: Option<(Terms, u16)>,
    book: &[u8],
    part: &mut [u8],
    answer: &mut [u8],
    work: &mut [u32],
) -> Both
    ensures { Settled [] (with_workspace (length work.old) (quoted_for day question.now (brings catalogue.now one_way) (part_for book.now (length part.old) (length answer.old)))) (both_told result) (part.old ∷ answer.old ∷ []) (part.new ∷ answer.new ∷ []) work.old work.new }
{
    lent!(
        work,
        parting::part(
            question,
            catalogue,
            u32::from(one_way),
            day,
            book,
            part,
            answer,
            &mut work[0..limits::WORKSPACE],
        )
    )
}

// The part of a question that the extracts do answer: writes its matched links as a pattern, and the answer that this gets from a book.
pub fn part(
    question: &[u8],
    catalogue: &[u8],
    one_way: u16,
    book: &[u8],
    part: &mut [u8],
    answer: &mut [u8],
    work: &mut [u32],
) -> Both
    ensures { Settled [] (with_workspace (length work.old) (part_outcome question.now (brings catalogue.now one_way) book.now (length part.old) (length answer.old))) (both_told result) (part.old ∷ answer.old ∷ []) (part.new ∷ answer.new ∷ []) work.old work.new }
{
    part_for(question, catalogue, one_way, None, book, part, answer, work)
}

// Answers several questions from one book: writes their sheets one after the other, each as its question gets it by itself. The result also says how
// many sheets of the book were needed.
pub fn answer_several(
    questions: &[u8],
    number: u32,
    catalogue: &[u8],
    one_way: u16,
    book: &[u8],
    out: &mut [u8],
    work: &mut [u32],
) -> Several
    ensures { Settled [] (with_workspace (length work.old) (several_outcome questions.now number (brings catalogue.now one_way) book.now (length out.old))) (several_told result) (out.old ∷ []) (out.new ∷ []) work.old work.new }
{
    lent!(
        work,
        several::answer_several(
            questions,
            number,
            catalogue,
            u32::from(one_way),
            book,
            out,
            &mut work[0..limits::WORKSPACE],
        )
    )
}

// The part of a question that the extracts in force on a day do answer, and its answer from a book by these.
pub fn part_on(
    question: &[u8],
    catalogue: &[u8],
    one_way: u16,
    terms: Terms,
    day: u16,
    book: &[u8],
    part: &mut [u8],
    answer: &mut [u8],
    work: &mut [u32],
) -> Both
    ensures { Settled [] (with_workspace (length work.old) (part_on question.now (brings catalogue.now one_way) terms day book.now (length part.old) (length answer.old))) (both_told result) (part.old ∷ answer.old ∷ []) (part.new ∷ answer.new ∷ []) work.old work.new }
{
    part_for(
        question,
        catalogue,
        one_way,
        Some((terms, day)),
        book,
        part,
        answer,
        work,
    )
}

// Shows why a question is not covered on a day: the second record lacks the lowest link that no extract in force matches.
pub fn show_on(
    question: &[u8],
    catalogue: &[u8],
    one_way: u16,
    terms: Terms,
    day: u16,
    first: &mut [u8],
    second: &mut [u8],
    work: &mut [u32],
) -> Both
    ensures { Settled [] (with_workspace (length work.old) (show_on question.now (brings catalogue.now one_way) terms day (length first.old) (length second.old))) (both_told result) (first.old ∷ second.old ∷ []) (first.new ∷ second.new ∷ []) work.old work.new }
{
    show_for(
        question,
        catalogue,
        one_way,
        Some((terms, day)),
        first,
        second,
        work,
    )
}
