// Roots of numbers above zero, of every size.
use crate::sums::{double, single};

// Kept (plain): two, each in the width of its float: one would need a trait with a step, a bit pattern, a root and a sum, and two impls as long as these.
pub fn run32(times: u32) -> u64 {
    let mut sum: u64 = 0;
    let mut w: u32 = 0;
    for _ in 0..times {
        w = w.wrapping_add(0x9e37_79b1);
        let x = ieee::bits::from_bits32(w % 0x7f80_0000);
        sum = single(sum, ieee_sqrt::sqrt32(x));
    }
    sum
}

// Kept (plain): see `run32`.
pub fn run64(times: u32) -> u64 {
    let mut sum: u64 = 0;
    let mut w: u64 = 0;
    for _ in 0..times {
        w = w.wrapping_add(0x9e37_79b9_7f4a_7c15);
        let x = ieee::bits::from_bits64(w % 0x7ff0_0000_0000_0000);
        sum = double(sum, ieee_sqrt::sqrt64(x));
    }
    sum
}
