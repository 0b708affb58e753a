// The memory that the files of a case stand in.
use crate::{reader, slices};
use std::io;
use std::io::Read;

// So many bytes of the cases go to a place of the memory.
pub fn take<R: Read>(
    cases: &mut R,
    memory: &mut [u8],
    place: usize,
    size: usize,
) -> io::Result<()> {
    let from = place.min(memory.len());
    let n = size.min(memory.len() - from);
    reader::read_full(cases, &mut memory[from..from + n])?;
    Ok(())
}

fn mask(bit: usize) -> u8 {
    0x80 >> (bit % 8)
}

// One bit becomes 1 or 0, counted from the most significant of the first byte.
pub fn set(memory: &mut [u8], bit: usize, on: bool) {
    let i = bit / 8;
    let m = mask(bit);
    let b = slices::at(memory, i) | m;
    slices::put(memory, i, if on { b } else { b ^ m });
}

// Turns one bit, counted from the most significant of the first byte.
pub fn flip(memory: &mut [u8], bit: usize) {
    let i = bit / 8;
    let b: u8 = slices::at(memory, i);
    slices::put(memory, i, b ^ mask(bit));
}
