// What calls and their parts answer.
ghost use Rattle.std.specs.Prelude.{◌≡◌};
ghost use Rattle.packed.specs.Refusals.{file_number, wrong_number, number_of, detail_of};

// The kinds of files. A lone sheet is a book's, and an old record a record. No call here tells of another one, but a refusal may come from elsewhere, to be
// printed, and keeps the number that it has.
#[derive(Clone, Copy, PartialEq, Eq)]
pub enum File {
    Pattern,
    Catalogue,
    Record,
    Sheet,
    Other(u32),
}

impl File {
    // The number of a kind of file, which a refusal of it has as its detail.
    pub(crate) fn number(self) -> usize
        ensures { result ≡ file_number self }
    {
        match self {
            File::Pattern => 1,
            File::Catalogue => 2,
            File::Record => 3,
            File::Sheet => 4,
            File::Other(number) => number as usize,
        }
    }
}

// Why a call refuses. The word and the number of each are those of the requirements; specs/Refusals.antt has the numbers and details.
#[derive(Clone, Copy)]
pub enum Refusal {
    // 1, long: a file is over its most bytes
    TooLong(File),
    // 2, short: the bits or the fields end before a field does
    Truncated(File),
    // 3, count: a count, or another value of a field, lies outside its range
    OutOfRange(File),
    // 4, stray: an edge's end is not a node
    NoSuchNode(File),
    // 5, twice: an edge of a pattern repeats an earlier one; so does one of a record that was stored before its edges had kinds, or even an order
    DuplicateEdge(File),
    // 6, order: a pair of a sheet or an edge of a record doesn't exceed the one before
    NotAscending(File),
    // 7, loose: a pattern's node is at no edge
    IsolatedNode(File),
    // 8, uneven: a zero count after a 1, found at that count
    ZeroCount(File),
    // 9, tail: a padding bit isn't zero, or something follows the last field
    Trailing(File),
    // 10, crowded: over 8,192 different pairs stand in a book
    TooManyPairs(File),
    // 11, uncovered: the lowest unmatched edge
    NotContained(u32),
    // 12, no fit: how much the output takes
    NoRoom(usize),
    // 13, covered
    Contained,
    // 14, desk: fewer than 16,384 words were lent to work in
    SmallWorkspace,
    // 15, charges: how many charges were lent, where that is not the number of views
    WrongCharges(usize),
    // 16, index: how many entries the lent index has, where that is not one more than the record's nodes; else the first that differs from the record's own
    WrongIndex(usize),
    // 17, questions: how many questions were sent, where that is none or more than eight
    WrongQuestions(usize),
    // 18, terms: how many entries the list of terms has, where that is not the number of views; else the first entry whose from-day isn't below its to-day
    WrongTerms(usize),
    // 19, set: the lowest number in the set of the views that are matched one-way which is no view of the catalogue
    WrongSet(usize),
    // 20, slip: the state's change number, where that of the slip is another
    OldSlip(usize),
    // 21, last change: the state's change number, where no other follows it
    LastChange(usize),
}

// What a call with one output answers: how much of it was written, or the refusal.
pub type Reply = Result<usize, Refusal>;

// What a call with two outputs answers: how much of each was written, or the refusal.
pub type Both = Result<(usize, usize), Refusal>;

// A part of an old record that was read up to its edges, and how many edges were loaded: also where the part is refused, since a repeat among those is
// looked for first.
#[derive(Clone, Copy)]
pub(crate) struct Loaded {
    pub part: Result<(usize, usize), Refusal>,
    pub edges: usize,
}

// How a field is refused whose value lies outside its range: as such, or as an edge's end that is not a node.
#[derive(Clone, Copy)]
pub(crate) enum Wrong {
    Range,
    Node,
}

impl Wrong {
    // The refusal of a file of this kind.
    pub(crate) fn of(self, file: File) -> Refusal
        ensures { (number_of result ≡ wrong_number self) × (detail_of result ≡ file_number file) }
    {
        match self {
            Wrong::Range => Refusal::OutOfRange(file),
            Wrong::Node => Refusal::NoSuchNode(file),
        }
    }
}

impl Refusal {
    // The number of a refusal.
    pub fn number(self) -> usize
        ensures { result ≡ number_of self }
    {
        match self {
            Refusal::TooLong(_) => 1,
            Refusal::Truncated(_) => 2,
            Refusal::OutOfRange(_) => 3,
            Refusal::NoSuchNode(_) => 4,
            Refusal::DuplicateEdge(_) => 5,
            Refusal::NotAscending(_) => 6,
            Refusal::IsolatedNode(_) => 7,
            Refusal::ZeroCount(_) => 8,
            Refusal::Trailing(_) => 9,
            Refusal::TooManyPairs(_) => 10,
            Refusal::NotContained(_) => 11,
            Refusal::NoRoom(_) => 12,
            Refusal::Contained => 13,
            Refusal::SmallWorkspace => 14,
            Refusal::WrongCharges(_) => 15,
            Refusal::WrongIndex(_) => 16,
            Refusal::WrongQuestions(_) => 17,
            Refusal::WrongTerms(_) => 18,
            Refusal::WrongSet(_) => 19,
            Refusal::OldSlip(_) => 20,
            Refusal::LastChange(_) => 21,
        }
    }

    // The detail of a refusal.
    pub fn detail(self) -> usize
        ensures { result ≡ detail_of self }
    {
        match self {
            Refusal::TooLong(file) => file.number(),
            Refusal::Truncated(file) => file.number(),
            Refusal::OutOfRange(file) => file.number(),
            Refusal::NoSuchNode(file) => file.number(),
            Refusal::DuplicateEdge(file) => file.number(),
            Refusal::NotAscending(file) => file.number(),
            Refusal::IsolatedNode(file) => file.number(),
            Refusal::ZeroCount(file) => file.number(),
            Refusal::Trailing(file) => file.number(),
            Refusal::TooManyPairs(file) => file.number(),
            Refusal::NotContained(d) => d as usize,
            Refusal::NoRoom(d) => d,
            Refusal::Contained => 0,
            Refusal::SmallWorkspace => 0,
            Refusal::WrongCharges(d) => d,
            Refusal::WrongIndex(d) => d,
            Refusal::WrongQuestions(d) => d,
            Refusal::WrongTerms(d) => d,
            Refusal::WrongSet(d) => d,
            Refusal::OldSlip(d) => d,
            Refusal::LastChange(d) => d,
        }
    }
}
