// The rule by which numbers are drawn. It is the model's too.
ghost use Rattle.std.specs.Prelude.{◌<◌};

use crate::slices;

pub fn next(state: u32) -> u32 {
    state.wrapping_mul(1664525).wrapping_add(1013904223)
}

// A state stands for its upper 16 bits.
pub fn high(state: u32) -> usize
    ensures { result < 65536 }
{
    (state / 65536) as usize
}

// The number below n that a state stands for, 0 where there is none.
pub fn below(state: u32, n: usize) -> usize {
    slices::rest(high(state), n)
}
