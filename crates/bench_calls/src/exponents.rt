// Factors of exponents from -1 up to 1.
use crate::sums::one_if;
use zoom_factor::zoom_factor;

// In steps of 2^-16, by the word's upper bits.
fn exponent(w: u32) -> f32 {
    (w / 0x8000) as f32 / 65536.0 - 1.0
}

// The bound lets a factor differ from another's in its last digits: only where it lies is summed up.
fn is_above_one(e: f32) -> bool {
    zoom_factor(e).is_ok_and(|factor| factor > 1.0)
}

pub fn run(times: u32) -> u64 {
    let mut above: u64 = 0;
    let mut w: u32 = 0;
    for _ in 0..times {
        w = w.wrapping_add(0x9e37_79b1);
        above = one_if(above, is_above_one(exponent(w)));
    }
    above
}
