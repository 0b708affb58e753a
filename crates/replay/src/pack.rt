// The file of a record's content, whatever it says.
use crate::registers::Registers;
use crate::{memory, records, registers, slices};

// A value's last bits, so many, go to a place of the memory, which is a number of bits: the place after them.
fn put_field(value: u32, width: usize, place: usize, memory: &mut [u8]) -> usize {
    let mut at = place;
    for left in (0..width).rev() {
        memory::set(memory, at, value & records::bit(left) != 0);
        at = slices::plus(at, 1);
    }
    at
}

// The width of a record's field i, where it has n items and the kind of a link so many bits.
fn width(i: usize, n: usize, kind: usize) -> usize {
    let items = slices::plus(2, n);
    if i < items {
        match i {
            0 => 13,
            1 => 14,
            _ => 32,
        }
    } else if (i - items) % 3 == 2 {
        kind
    } else {
        12
    }
}

fn put_fields(
    words: &[u32],
    n: usize,
    kind: usize,
    count: usize,
    place: usize,
    memory: &mut [u8],
) -> usize {
    let mut at = place;
    for i in 0..count {
        at = put_field(slices::at(words, i), width(i, n, kind), at, memory);
    }
    at
}

// The content becomes a part, with zero bits up to a whole byte. The kind of a link has so many bits: none where records are as they were
// stored before links had kinds.
pub fn record(
    part: usize,
    kind: usize,
    words: &[u32],
    memory: &mut [u8],
    registers: &mut Registers,
) {
    let start = registers.start(part) % 0x1000_0000;
    let count = registers.at(registers::CONTENT);
    let n = slices::at(words, 0) as usize;
    let end = put_fields(words, n, kind, count, start * 8, memory);
    let last = put_field(0, 7 - slices::plus(end, 7) % 8, end, memory);
    registers.set_end(part, last / 8);
}
