// Marks in all that is lent to a call, none of them zero and each by its place, so that a change shows.
pub trait Marked: Copy + PartialEq + Drop {
    // The mark of a place.
    fn mark(i: usize) -> Self;
}

impl Marked for u8 {
    fn mark(i: usize) -> u8 {
        (i % 128 + 128) as u8
    }
}

// More than an index counts.
impl Marked for u16 {
    fn mark(i: usize) -> u16 {
        (i % 0x8000 + 0x8000) as u16
    }
}

impl Marked for u32 {
    fn mark(i: usize) -> u32 {
        (i % 0x1000_0000 + 0xa000_0000) as u32
    }
}

pub fn mark_all<T: Marked>(s: &mut [T]) {
    for (i, x) in s.iter_mut().enumerate() {
        *x = T::mark(i);
    }
}

// At how many places from one on the mark is gone.
pub fn unmarked<T: Marked>(s: &[T], from: usize) -> usize {
    s.iter()
        .enumerate()
        .skip(from)
        .filter(|(i, x)| **x != T::mark(*i))
        .count()
}

// Of the words that were lent to work in, the first 16,384 are zero and those beyond as they came; for 14 all are as they came.
pub fn work_faults(number: usize, work: &[u32], n: usize) -> usize {
    let n = n.min(work.len());
    if number == 14 {
        return unmarked(&work[..n], 0);
    }
    let zeros = work.iter().take(16384).filter(|x| **x != 0).count();
    zeros.saturating_add(unmarked(&work[..n], 16384))
}
