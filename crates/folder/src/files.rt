// Files by their names. What can't be done is said on standard error, and leaves the files that were there as they were. It is said where it fails, so
// an answer of true or false is all that is left to hand on, and an error would have nothing in it.
ghost use Rattle.std.specs.Prelude.{◌≤◌, length};

use crate::lines;
use std::fs::{OpenFile, OpenOptions};
use std::io::{ErrorKind, Read, Write};
use std::rt::Files;
use std::{fs, io};

// How many bytes are read at a time.
pub(crate) const PART: usize = 4096;

// So many parts at most, 2^63 bytes in all: no file has more.
pub(crate) const PARTS: u64 = 0x8_0000_0000_0000;

// A name as the system takes it. One that is no text names no file, and is the empty one here, which none has.
pub(crate) fn text(name: &[u8]) -> &str {
    str::from_utf8(name).unwrap_or("")
}

// Reads until the buffer is full, the file ends or a read fails: how many bytes there are at the buffer's front. Each turn goes on by as much as a
// read gave, so no range counts it.
pub(crate) fn read_full(file: &mut impl Read, buf: &mut [u8]) -> usize
    ensures { result ≤ length buf.new }
{
    let mut done = 0;
    while done < buf.len() {
        match file.read(&mut buf[done..]) {
            Ok(0) | Err(_) => break,
            Ok(n) => done += n,
        }
    }
    done
}

// The bytes of a file, as far as the buffer goes: how many there are. A file that can't be opened has none.
pub fn read(rt: &impl Files, name: &[u8], buf: &mut [u8]) -> usize
    ensures { result ≤ length buf.old }
{
    let Ok(mut file) = fs::open(rt, text(name)) else {
        return 0;
    };
    read_full(&mut file, buf)
}

// How many bytes follow in an open file, read a part at a time.
fn count_rest(file: &mut impl Read) -> usize {
    let mut count: usize = 0;
    for _ in 0..PARTS {
        let mut buf = [0; PART];
        let n = read_full(file, &mut buf);
        count = count.wrapping_add(n);
        if n < PART {
            break;
        }
    }
    count
}

// The bytes of an open file, as far as the buffer goes: how many the whole file has, of whatever length it is.
fn read_open(file: &mut impl Read, buf: &mut [u8]) -> usize {
    let n = read_full(file, buf);
    n.wrapping_add(count_rest(file))
}

// The same of a file by its name. One that can't be opened has none.
pub fn read_whole(rt: &impl Files, name: &[u8], buf: &mut [u8]) -> usize {
    match fs::open(rt, text(name)) {
        Ok(mut file) => read_open(&mut file, buf),
        Err(_) => 0,
    }
}

// Whether the name can be opened. With a slash at its end it is a folder's alone, to which no file can be renamed.
pub fn opens(rt: &impl Files, name: &[u8]) -> bool {
    fs::open(rt, text(name)).is_ok()
}

// Whether the name is there; it may be one that can't be opened.
pub fn is_there(rt: &impl Files, name: &[u8]) -> bool {
    match fs::open(rt, text(name)) {
        Ok(_) => true,
        Err(e) => e.kind() != ErrorKind::NotFound,
    }
}

// Waits until the device has what was written to a file, and closes it. An error of the closing alone is not seen.
fn finish(file: impl OpenFile + Drop, written: bool) -> bool {
    written && file.sync_all().is_ok()
}

// Writes a number to a file, in decimal with a line end.
fn write_number(file: &mut impl Write, x: u32) -> io::Result<()> {
    writeln!(file, "{x}")
}

fn write_numbers(file: &mut impl Write, list: &[u32]) -> io::Result<()> {
    for x in list {
        write_number(file, *x)?;
    }
    Ok(())
}

// Removes a file that this program made.
pub fn remove(rt: &impl Files, name: &[u8]) {
    let _ = fs::remove_file(rt, text(name));
}

// Makes a file that was not there, if it can.
fn begin<R: Files + Eprint>(rt: &R, name: &[u8]) -> Option<R::File> {
    let made = OpenOptions::new()
        .write(true)
        .create_new(true)
        .open(rt, text(name))
        .ok();
    if made.is_none() {
        lines::failed(rt, name);
    }
    made
}

// What was made is there whole, or not at all.
fn whole(rt: &(impl Files + Eprint), name: &[u8], good: bool) -> bool {
    if !good {
        lines::failed(rt, name);
        remove(rt, name);
    }
    good
}

// Makes a file that was not there, with just these bytes, or none.
pub fn make(rt: &(impl Files + Eprint), name: &[u8], bytes: &[u8]) -> bool {
    let Some(mut file) = begin(rt, name) else {
        return false;
    };
    let written = file.write_all(bytes).is_ok();
    whole(rt, name, finish(file, written))
}

// The same with the numbers of a list, one to a line.
pub fn make_list(rt: &(impl Files + Eprint), name: &[u8], list: &[u32]) -> bool {
    let Some(mut file) = begin(rt, name) else {
        return false;
    };
    let written = write_numbers(&mut file, list).is_ok();
    whole(rt, name, finish(file, written))
}

// The file of the temporary name takes the name, and a file that had it is gone; or the temporary one is removed.
pub fn place(rt: &(impl Files + Eprint), temporary: &[u8], name: &[u8]) -> bool {
    if fs::rename(rt, text(temporary), text(name)).is_ok() {
        return true;
    }
    lines::failed(rt, name);
    remove(rt, temporary);
    false
}

// Makes the file of this name, or puts another in its place, with just these bytes.
pub fn write(rt: &(impl Files + Eprint), name: &[u8], temporary: &[u8], bytes: &[u8]) -> bool {
    make(rt, temporary, bytes) && place(rt, temporary, name)
}

// The same with the numbers of a list, one to a line.
pub fn write_list(rt: &(impl Files + Eprint), name: &[u8], temporary: &[u8], list: &[u32]) -> bool {
    make_list(rt, temporary, list) && place(rt, temporary, name)
}
