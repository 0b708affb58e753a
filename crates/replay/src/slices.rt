// Plain steps on numbers and slices. A place past the end of a slice is passed over, so that nothing is asked of a caller.

// A sum, or the first number where one of both is out of all measure: what a file of cases says is added up without asking how large it is.
pub fn plus(a: usize, b: usize) -> usize {
    if a < 0x1000_0000_0000 && b < 0x1000_0000_0000 {
        return a + b;
    }
    a
}

// The quotient and the remainder, 0 where there is none.
pub fn quotient(a: usize, n: usize) -> usize {
    a.checked_div(n).unwrap_or(0)
}

pub fn rest(a: usize, n: usize) -> usize {
    a.checked_rem(n).unwrap_or(0)
}

// The low 32 bits of a number.
pub fn low(a: usize) -> u32 {
    (a & 0xffff_ffff) as u32
}

pub fn at<T: Copy + Default + Drop>(s: &[T], i: usize) -> T {
    s.get(i).copied().unwrap_or_default()
}

pub fn put<T: Copy + Drop>(s: &mut [T], i: usize, x: T) {
    if let Some(place) = s.get_mut(i) {
        *place = x;
    }
}

// The first n bytes go to a place of another slice.
pub fn copy(s: &[u8], n: usize, to: &mut [u8], place: usize) {
    for i in 0..n {
        put(to, plus(place, i), at(s, i));
    }
}
