// A digest of numbers, words and bytes: FNV-1a in 64 bits, a number at a time.
use crate::slices;

pub const START: u64 = 0xcbf2_9ce4_8422_2325;

const PRIME: u64 = 0x100_0000_01b3;

pub fn step(h: u64, x: u64) -> u64 {
    (h ^ x).wrapping_mul(PRIME)
}

// Over the first n words or bytes.
pub fn over<T: Copy + Default + Drop + Into<u64>>(start: u64, s: &[T], n: usize) -> u64 {
    let mut h = start;
    for i in 0..n {
        h = step(h, slices::at(s, i).into());
    }
    h
}
