// Text files of decimal numbers, read a byte at a time: a file of any length is read to its end, and its lines are counted. A list has one number
// a line. In a set spaces and line ends stand between the numbers, which are below 16.
ghost use Rattle.std.specs.Prelude.{◌≡◌, ℕ, List, set};
ghost use Rattle.folder.specs.Numbers.{list_told, set_told, number_told, ListRead, SetRead, NumberRead};
ghost use Rattle.folder.specs.Reading.{empty_text, with_line, with_digit, end_member, next_in_set, state, end_line, next_in_list, next, steps, at_end, listed, set_in, Follows, OfText};

use crate::files;
use std::fs;
use std::io::Read;
use std::rt::Files;

// A number is at most this.
const MOST: u64 = 0xffff_ffff;

// The line of a text that is not as it should be, counted from 1.
#[derive(Clone, Copy, PartialEq, Eq)]
pub struct WrongLine {
    pub line: usize,
}

// A text so far: how many lines it has, whether they are as they should be, the numbers of a set, and the number that has begun.
// The laws of specs/Reading.antt are stated on these fields, one by one.
#[derive(Clone, Copy)]
pub struct Text {
    count: usize,
    good: bool,
    set: u16,
    is_list: bool,
    begun: bool,
    value: u64,
}

#[tactic(auto, unfolding(crate::specs::Reading::empty_text))]
fn empty(is_list: bool) -> Text
    ensures { result ≡ empty_text is_list }
{
    Text {
        count: 0,
        good: true,
        set: 0,
        is_list,
        begun: false,
        value: 0,
    }
}

// A line has ended, good or not: a bad one is the last that counts.
#[tactic(auto, unfolding(crate::specs::Reading::with_line))]
fn with_line(text: Text, good: bool) -> Text
    ensures { result ≡ with_line text good }
{
    Text {
        count: text.count.wrapping_add(1),
        good,
        set: text.set,
        is_list: text.is_list,
        begun: false,
        value: 0,
    }
}

// A digit more. A number over the most stays over it.
#[tactic(auto, unfolding(crate::specs::Reading::with_digit))]
fn with_digit(text: Text, digit: u8) -> Text
    ensures { result ≡ with_digit text digit }
{
    let value = text.value;
    if MOST < value {
        return text;
    }
    Text {
        count: text.count,
        good: text.good,
        set: text.set,
        is_list: text.is_list,
        begun: true,
        value: value * 10 + digit as u64,
    }
}

// By the index: with `get_mut` the proof of this clause was tried, and didn't close.
fn put(out: &mut [u32], i: usize, x: u32)
    ensures { out.new ≡ set out.old i x }
{
    if i < out.len() {
        out[i] = x;
    }
}

// A line of a list is at its end. Its number goes to its place, where there is one.
#[tactic(auto, unfolding(crate::specs::Reading::end_line, crate::specs::Reading::is_number))]
fn end_line(text: Text, out: &mut [u32]) -> Text
    ensures { state result out.new ≡ end_line (state text out.old) }
{
    let value = text.value;
    if MOST < value {
        return with_line(text, false);
    }
    if !text.begun {
        return with_line(text, false);
    }
    put(out, text.count, value as u32);
    with_line(text, true)
}

// A number of a set is at its end, if one has begun.
#[tactic(auto, using(crate::proofs::NumberLaws::one_bit), unfolding(crate::specs::Reading::end_member))]
fn end_member(text: Text) -> Text
    ensures { result ≡ end_member text }
{
    let value = text.value;
    if !text.begun {
        return text;
    }
    if 15 < value {
        return with_line(text, false);
    }
    Text {
        count: text.count,
        good: true,
        set: text.set | 1 << value as u16,
        is_list: false,
        begun: false,
        value: 0,
    }
}

// The next byte of a set.
#[tactic(auto, unfolding(crate::specs::Reading::next_in_set))]
fn next_in_set(text: Text, byte: u8) -> Text
    ensures { result ≡ next_in_set text byte }
{
    let ended = end_member(text);
    if !ended.good | (byte == b' ') {
        return ended;
    }
    with_line(ended, byte == b'\n')
}

// The next byte of a list.
#[tactic(auto, unfolding(crate::specs::Reading::next_in_list))]
fn next_in_list(text: Text, byte: u8, out: &mut [u32]) -> Text
    ensures { state result out.new ≡ next_in_list (state text out.old) byte }
{
    if byte == b'\n' {
        return end_line(text, out);
    }
    with_line(text, false)
}

#[tactic(auto, using(crate::proofs::NumberLaws::digit, crate::proofs::NumberLaws::below_digits, crate::proofs::NumberLaws::above_digits), unfolding(crate::specs::Reading::next))]
fn next(text: Text, byte: u8, out: &mut [u32]) -> Text
    ensures { state result out.new ≡ next (state text out.old) byte }
{
    if !text.good {
        return text;
    }
    match byte {
        b'0'..=b'9' => with_digit(text, byte - b'0'),
        _ => {
            if text.is_list {
                next_in_list(text, byte, out)
            } else {
                next_in_set(text, byte)
            }
        }
    }
}

fn take(bytes: &[u8], before: Text, out: &mut [u32]) -> Text
    ensures { state result out.new ≡ steps (state before out.old) bytes.now }
{
    let mut text = before;
    for byte in bytes {
        text = next(text, *byte, out);
    }
    text
}

// The last line may lack its line end.
#[tactic(auto, unfolding(crate::specs::Reading::at_end))]
fn end(text: Text, out: &mut [u32]) -> Text
    ensures { state result out.new ≡ at_end (state text out.old) }
{
    if text.begun {
        return next(text, b'\n', out);
    }
    text
}

#[derive(Clone, Copy)]
struct Part {
    text: Text,
    is_last: bool,
}

fn take_part(file: &mut impl Read, before: Text, out: &mut [u32]) -> Part
    ensures { Follows 4096 (state before out.old) (state result.text out.new) }
{
    let mut buf = [0; files::PART];
    let n = files::read_full(file, &mut buf);
    let text = take(&buf[..n], before, out);
    Part {
        text,
        is_last: n < files::PART,
    }
}

fn take_parts(file: &mut impl Read, is_list: bool, out: &mut [u32]) -> Text
    ensures { OfText is_list out.old (state result out.new) }
{
    let mut text = empty(is_list);
    for _ in 0..files::PARTS {
        let part = take_part(file, text, out);
        text = part.text;
        if part.is_last {
            break;
        }
    }
    end(text, out)
}

#[tactic(auto, using(crate::proofs::NumberLaws::no_text))]
fn read(rt: &impl Files, name: &[u8], is_list: bool, out: &mut [u32]) -> Text
    ensures { OfText is_list out.old (state result out.new) }
{
    match fs::open(rt, files::text(name)) {
        Ok(mut file) => take_parts(&mut file, is_list, out),
        Err(_) => empty(is_list),
    }
}

// What a text tells of a list, whatever words were lent for its numbers.
#[tactic(auto, unfolding(crate::specs::Numbers::list_told))]
fn list_of(text: Text) -> Result<usize, WrongLine>
    ensures { (ws : List ℕ) → list_told result ws ≡ listed (state text ws) }
{
    if !text.good {
        return Err(WrongLine { line: text.count });
    }
    Ok(text.count)
}

// What a text tells of a set.
#[tactic(auto, unfolding(crate::specs::Numbers::set_told, crate::specs::Reading::set_in))]
fn set_of(text: Text) -> Result<u16, WrongLine>
    ensures { set_told result ≡ set_in text }
{
    if !text.good {
        return Err(WrongLine { line: text.count });
    }
    Ok(text.set)
}

// The numbers of a list, as far as the output goes, and how many lines it has; or the line that is no number. A file that can't be opened has
// none.
pub fn read_list(rt: &impl Files, name: &[u8], out: &mut [u32]) -> Result<usize, WrongLine>
    ensures { ListRead out.old (list_told result out.new) }
{
    let text = read(rt, name, true, out);
    list_of(text)
}

// The numbers of a set, as bits; or the line that has something else. A file that can't be opened has none.
pub fn read_set(rt: &impl Files, name: &[u8]) -> Result<u16, WrongLine>
    ensures { SetRead (set_told result) }
{
    let mut none = [0u32; 1];
    let text = read(rt, name, false, &mut none);
    set_of(text)
}

// The one number of a list of one line. A file that can't be opened has none.
pub fn read_number(rt: &impl Files, name: &[u8]) -> Option<u32>
    ensures { NumberRead (number_told result) }
{
    let mut value = [0u32; 1];
    match read_list(rt, name, &mut value) {
        Ok(1) => Some(value[0]),
        _ => None,
    }
}
