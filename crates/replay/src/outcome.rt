// What a call answered, whichever it is.
use crate::digest;
use yuthaqim::numbered::NumberedReply;

// The form of an accepted answer.
#[derive(Clone, Copy, PartialEq, Eq)]
pub enum Form {
    // The value is how much was written: words, or bytes, or those of a sheet.
    Words,
    Bytes,
    Sheet,
    // The number of an index's entries; where one was made, twice as many bytes are written.
    Entries,
    // The lengths of two outputs, which are written one after the other.
    Both,
    // The bytes of several answers, and the sheets that they needed beside it.
    Several,
    // The bytes of a record and the entries of its index; the state after it is written behind them.
    Entered,
    // 1 where a question is covered, and the chosen views beside it, else 0 and the lowest unmatched link.
    Quote,
    // A sum, and the set that costs it beside it.
    Price,
    // The number of a join's steps, and the settled items beside it.
    Steps,
    // 1 and a first day beside it, or 0 where there is none.
    Day,
    // The set of extracts that a link changes, and the change number of its slip beside it.
    Asked,
}

impl Form {
    // Whether nothing is written beside the values.
    pub fn is_values(self) -> bool {
        matches!(
            self,
            Form::Quote | Form::Price | Form::Steps | Form::Day | Form::Asked
        )
    }
}

// 0 or the refusal's number, as clients get it; the two values, of which a refusal's detail is the first; how much was written, a digest of it;
// and at how many places of an output that the call alone knows the marks are not as they should be.
#[derive(Clone, Copy)]
pub struct Outcome {
    pub form: Form,
    pub number: usize,
    pub value: usize,
    pub other: usize,
    pub written: usize,
    pub digest: u64,
    pub faults: usize,
}

impl Outcome {
    // Before there was a call.
    pub fn none() -> Outcome {
        Outcome {
            digest: 0,
            ..Outcome::refused(0, 0)
        }
    }

    pub fn refused(number: usize, detail: usize) -> Outcome {
        Outcome {
            form: Form::Words,
            number,
            value: detail,
            other: 0,
            written: 0,
            digest: digest::START,
            faults: 0,
        }
    }

    // An output of one form, by the words or bytes of which so many were written.
    fn wrote<T: Copy + Default + Drop + Into<u64>>(
        form: Form,
        r: NumberedReply,
        out: &[T],
    ) -> Outcome {
        if r.number != 0 {
            return Outcome::refused(r.number, r.value);
        }
        Outcome {
            form,
            written: r.value,
            digest: digest::over(digest::START, out, r.value),
            ..Outcome::refused(0, r.value)
        }
    }

    pub fn words(r: NumberedReply, out: &[u32]) -> Outcome {
        Outcome::wrote(Form::Words, r, out)
    }

    pub fn bytes(r: NumberedReply, out: &[u8]) -> Outcome {
        Outcome::wrote(Form::Bytes, r, out)
    }

    pub fn sheet(r: NumberedReply, out: &[u8]) -> Outcome {
        Outcome::wrote(Form::Sheet, r, out)
    }

    // What is answered by values alone, also where it was refused, with a digest of all of them. Of a refusal the detail is said.
    pub fn values(form: Form, number: usize, value: usize, other: usize, digest: u64) -> Outcome {
        Outcome {
            form,
            number,
            value,
            other,
            written: 0,
            digest,
            faults: 0,
        }
    }

    pub fn is_accepted(self) -> bool {
        self.number == 0
    }

    // How much the call needs of its output: what it answered, or what there was no room for.
    pub fn needed(self) -> usize {
        match self.number {
            0 | 12 => self.value,
            _ => 0,
        }
    }

    // A digest of what was answered, beside a number more.
    pub fn over(self, h: u64) -> u64 {
        let n = digest::step(digest::step(h, self.number as u64), self.value as u64);
        digest::step(digest::step(n, self.other as u64), self.digest)
    }
}
