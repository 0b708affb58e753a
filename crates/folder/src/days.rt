// Text files of terms: a line for each view, with its from-day and its to-day in decimal, 0 to 65,535, in digits alone, one space between them. A
// file of any length is read to its end, and its lines are counted.
use crate::files;
use crate::numbers::WrongLine;
use std::fs;
use std::io::Read;
use std::rt::Files;

// A day is at most this.
const MOST: u32 = 65535;

// How many lines there are, and the days of the first sixteen.
#[derive(Clone, Copy)]
pub struct Days {
    pub count: usize,
    pub from: [u16; 16],
    pub to: [u16; 16],
}

impl Days {
    // The days of a line go to their place, where there is one.
    fn with(self, from: u16, to: u16) -> Days {
        let mut days = self;
        if days.count < 16 {
            days.from[days.count] = from;
            days.to[days.count] = to;
        }
        days.count = days.count.wrapping_add(1);
        days
    }

    // The first of so many lines, sixteen at most, whose from-day isn't below its to-day.
    pub fn first_turned_of(&self, lines: usize) -> Option<usize> {
        self.from
            .iter()
            .zip(&self.to)
            .take(lines)
            .position(|(from, to)| *to <= *from)
    }

    // The first of all its lines.
    pub fn first_turned(&self) -> Option<usize> {
        self.first_turned_of(self.count)
    }
}

// A text so far: the days of its whole lines, the first day of the line that has begun, and the number that has.
#[derive(Clone, Copy)]
struct Text {
    days: Days,
    first: Option<u16>,
    number: Option<u32>,
}

impl Text {
    fn new() -> Text {
        Text {
            days: Days {
                count: 0,
                from: [0; 16],
                to: [0; 16],
            },
            first: None,
            number: None,
        }
    }

    fn wrong(self) -> WrongLine {
        WrongLine {
            line: self.days.count.wrapping_add(1),
        }
    }

    // The number that has begun, where it is a day.
    fn day(self) -> Option<u16> {
        u16::try_from(self.number?).ok()
    }

    // A digit more. A number over the most stays over it.
    fn with_digit(self, digit: u8) -> Text {
        let value = self.number.unwrap_or(0);
        if MOST < value {
            return self;
        }
        Text {
            number: Some(value * 10 + u32::from(digit)),
            ..self
        }
    }

    // The first day of a line is at its end.
    fn end_first(self) -> Result<Text, WrongLine> {
        match (self.first, self.day()) {
            (None, Some(first)) => Ok(Text {
                first: Some(first),
                number: None,
                ..self
            }),
            _ => Err(self.wrong()),
        }
    }

    // A line is at its end.
    fn end_line(self) -> Result<Text, WrongLine> {
        match (self.first, self.day()) {
            (Some(from), Some(to)) => Ok(Text {
                days: self.days.with(from, to),
                first: None,
                number: None,
            }),
            _ => Err(self.wrong()),
        }
    }

    fn next(self, byte: u8) -> Result<Text, WrongLine> {
        match byte {
            b'0'..=b'9' => Ok(self.with_digit(byte - b'0')),
            b' ' => self.end_first(),
            b'\n' => self.end_line(),
            _ => Err(self.wrong()),
        }
    }

    fn take(self, bytes: &[u8]) -> Result<Text, WrongLine> {
        let mut text = self;
        for byte in bytes {
            text = text.next(*byte)?;
        }
        Ok(text)
    }

    // The last line may lack its line end.
    fn end(self) -> Result<Days, WrongLine> {
        if self.first.is_none() && self.number.is_none() {
            return Ok(self.days);
        }
        Ok(self.end_line()?.days)
    }
}

// A line that is not as it should be is the last that counts, and the file is read on.
fn take_parts(file: &mut impl Read) -> Result<Days, WrongLine> {
    let mut text = Ok(Text::new());
    for _ in 0..files::PARTS {
        let mut buf = [0; files::PART];
        let n = files::read_full(file, &mut buf);
        text = text.and_then(|t| t.take(&buf[..n]));
        if n < files::PART {
            break;
        }
    }
    text?.end()
}

// The days of each line, as far as sixteen go, and how many lines there are; or the line that is not as it should be. A file that can't be opened has
// none.
pub fn read_days(rt: &impl Files, name: &[u8]) -> Result<Days, WrongLine> {
    match fs::open(rt, files::text(name)) {
        Ok(mut file) => take_parts(&mut file),
        Err(_) => Text::new().end(),
    }
}
