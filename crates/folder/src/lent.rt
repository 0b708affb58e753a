// How much programs lend. A file is read into one byte more than its most, so that a longer one is refused as too long.
ghost use Rattle.std.specs.Prelude.{◌≡◌, length};

// The bytes of a question, a pattern.
pub const QUESTION: usize = 57;

// Up to eight questions, one after the other.
pub const QUESTIONS: usize = 449;

pub const CATALOGUE: usize = 898;

// One charge more than a catalogue may have extracts.
pub const CHARGES: usize = 17;

pub const RECORD: usize = 44037;

// A record as it was stored before its links had kinds.
pub const OLD_RECORD: usize = 40965;

// One entry more than an index may have, and its bytes in a file.
pub const INDEX: usize = 4098;

pub const INDEX_BYTES: usize = 8196;

// A sheet, a book or an answer, to be read.
pub const SHEET: usize = 65537;

// A sheet, a book or an answer, to be written: no more than its most is ever needed.
pub const OUTPUT: usize = 65536;

// The answers of eight questions, to be written: eight times that. So long an array is made by a function: where it is written in place, a proof counts
// its bytes one by one.
pub fn answers_bytes() -> [u8; 524288]
    ensures { 524288 ≡ length result }
{
    [0; 524288]
}

// A part of a question, to be written: a pattern.
pub const PART: usize = 56;

// A question as a record: 16 items and 32 links.
pub const SHOWN: usize = 176;

// The content of any file, in words: the longest, that of a book, has 43,701.
pub const CONTENT: usize = 65536;

// The words to work in.
pub const WORK: usize = 16384;
